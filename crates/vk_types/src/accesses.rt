//! Sets of memory accesses.

ghost use Rattle.std.specs.Prelude.{⊤, ◌≡◌};
ghost use Rattle.vk_types.specs.Accesses.{has_access, group_of};

use bitflags::{Flag, Flags, bitflag_items};

/// A single name of a memory access (VkAccessFlagBits2).
#[derive(Clone, Copy, Debug, PartialEq, Eq)]
pub enum Access {
    /// Every read access.
    MemoryRead,
    /// Every write access.
    MemoryWrite,
    ShaderStorageRead,
    ShaderStorageWrite,
    ShaderRead,
    UniformRead,
    TransferRead,
    TransferWrite,
    HostRead,
}

/// The accesses that the same stages support.
#[derive(Clone, Copy, Debug, PartialEq, Eq)]
pub enum AccessGroup {
    Memory,
    Shader,
    Transfer,
    Host,
}

/// A set of memory accesses (VkAccessFlags2).
#[derive(Clone, Copy, Debug, PartialEq, Eq)]
pub struct Accesses(pub u32);

bitflag_items! {
    impl Accesses: u32 {
        const MEMORY_READ = 1;
        const MEMORY_WRITE = 2;
        const SHADER_STORAGE_READ = 4;
        const SHADER_STORAGE_WRITE = 8;
        const SHADER_READ = 16;
        const UNIFORM_READ = 32;
        const TRANSFER_READ = 64;
        const TRANSFER_WRITE = 128;
        const HOST_READ = 256;
    }
}

impl Flags for Accesses {
    ghost use Rattle.vk_types.specs.Names.{accesses};

    type Bits = u32;

    ghost exact = { ⊤ };

    ghost table = { accesses };

    ghost set_of = { λ it. it.0 };

    fn flags<'a>() -> &'a [Flag<Accesses>] {
        Accesses::FLAGS
    }

    fn bits(&self) -> u32 {
        self.0
    }

    fn from_bits_retain(bits: u32) -> Accesses {
        Accesses(bits)
    }
}

impl Accesses {
    /// Whether the set has this name.
    pub fn has(self, access: Access) -> bool
        ensures { result ≡ has_access self access }
    {
        let named = match access {
            Access::MemoryRead => Accesses::MEMORY_READ,
            Access::MemoryWrite => Accesses::MEMORY_WRITE,
            Access::ShaderStorageRead => Accesses::SHADER_STORAGE_READ,
            Access::ShaderStorageWrite => Accesses::SHADER_STORAGE_WRITE,
            Access::ShaderRead => Accesses::SHADER_READ,
            Access::UniformRead => Accesses::UNIFORM_READ,
            Access::TransferRead => Accesses::TRANSFER_READ,
            Access::TransferWrite => Accesses::TRANSFER_WRITE,
            Access::HostRead => Accesses::HOST_READ,
        };
        self.0 & named.0 != 0
    }
}

impl Access {
    /// The accesses that the same stages support.
    pub fn group(self) -> AccessGroup
        ensures { result ≡ group_of self }
    {
        match self {
            Access::MemoryRead | Access::MemoryWrite => AccessGroup::Memory,
            Access::ShaderStorageRead
            | Access::ShaderStorageWrite
            | Access::ShaderRead
            | Access::UniformRead => AccessGroup::Shader,
            Access::TransferRead | Access::TransferWrite => AccessGroup::Transfer,
            Access::HostRead => AccessGroup::Host,
        }
    }
}
