//! Sets of accesses.

ghost use Rattle.std.specs.Prelude.{◌≡◌};
ghost use Rattle.dx_flags.specs.declared.atoms.Kind.{Kind};
ghost use Rattle.dx_flags.specs.Accesses.{access_has, is_well_formed_access};
ghost use Rattle.dx_flags.specs.Kinds.{has_kind, name_of_kind, kinds_of};

use crate::atoms::Kind;
use bitflags::{Flag, Flags, bitflag_items};

/// A set of names of accesses (D3D12_BARRIER_ACCESS). The bits are the project's own.
#[derive(Clone, Copy, Debug, PartialEq, Eq)]
pub struct Access(pub u32);

bitflag_items! {
    impl Access: u32 {
        const UNORDERED_ACCESS = 1;
        const SHADER_RESOURCE = 2;
        const CONSTANT_BUFFER = 4;
        const COPY_SOURCE = 8;
        const COPY_DEST = 16;
        const COMMON = 32;
        const NO_ACCESS = 64;
    }
}

impl Flags for Access {
    ghost use Rattle.std.specs.Prelude.{⊤};
    ghost use Rattle.dx_flags.specs.AccessNames.{access_table};

    type Bits = u32;

    ghost exact = { ⊤ };

    ghost table = { access_table };

    ghost set_of = { λ it. it.0 };

    fn flags<'a>() -> &'a [Flag<Access>] {
        Access::FLAGS
    }

    fn bits(&self) -> u32 {
        self.0
    }

    fn from_bits_retain(bits: u32) -> Access {
        Access(bits)
    }
}

impl Access {
    /// The names that may stand beside others.
    const JOINING: Access = Access(
        Access::UNORDERED_ACCESS.0
            | Access::SHADER_RESOURCE.0
            | Access::CONSTANT_BUFFER.0
            | Access::COPY_SOURCE.0
            | Access::COPY_DEST.0,
    );

    /// Whether the set has a name and no unknown bit, and COMMON or NO_ACCESS only alone.
    #[tactic(auto, using(crate::proofs::WellFormed::access_by_bits))]
    pub fn is_well_formed(self) -> bool
        ensures { result ≡ is_well_formed_access self }
    {
        let alone = self == Access::COMMON || self == Access::NO_ACCESS;
        let joined = !self.is_empty() && Access::JOINING.contains(self);
        alone || joined
    }

    /// Whether some access of the set has the kind.
    #[tactic(auto, unfolding(crate::specs::Kinds::has_kind, crate::specs::Accesses::access_has))]
    pub fn has_kind(self, kind: Kind) -> bool
        ensures { result ≡ has_kind kind self }
    {
        let own = match kind {
            Kind::UnorderedAccess => self.contains(Access::UNORDERED_ACCESS),
            Kind::ShaderResource => self.contains(Access::SHADER_RESOURCE),
            Kind::ConstantBuffer => self.contains(Access::CONSTANT_BUFFER),
            Kind::CopySource => self.contains(Access::COPY_SOURCE),
            Kind::CopyDest => self.contains(Access::COPY_DEST),
        };
        own || self.contains(Access::COMMON)
    }
}

/// The kinds of a set of accesses: each kind is in the result exactly where some access of the set has it,
/// by the bit of its name, and nothing else is.
#[tactic(auto, unfolding(crate::specs::Kinds::kinds_of, crate::specs::Accesses::access_has))]
pub fn kinds(access: Access) -> Access
    ensures value { result ≡ kinds_of access }
    ensures each { (kind : Kind) → access_has result (name_of_kind kind) ≡ has_kind kind access }
{
    let mut kinds = Access::empty();
    if access.has_kind(Kind::UnorderedAccess) {
        kinds.insert(Access::UNORDERED_ACCESS);
    }
    if access.has_kind(Kind::ShaderResource) {
        kinds.insert(Access::SHADER_RESOURCE);
    }
    if access.has_kind(Kind::ConstantBuffer) {
        kinds.insert(Access::CONSTANT_BUFFER);
    }
    if access.has_kind(Kind::CopySource) {
        kinds.insert(Access::COPY_SOURCE);
    }
    if access.has_kind(Kind::CopyDest) {
        kinds.insert(Access::COPY_DEST);
    }
    kinds
}
