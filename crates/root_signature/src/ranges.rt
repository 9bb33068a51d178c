//! Ranges of registers.

ghost use Rattle.std.specs.Prelude.{◌≡◌};
ghost use Rattle.root_signature.specs.Ranges.{covers as covers_register, range_of_constants, range_of_root};

use dx_base::Class;

/// Consecutive registers of a class from one on, and what is promised of their descriptors and data
/// (D3D12_DESCRIPTOR_RANGE1).
#[derive(Clone, Copy, Debug, PartialEq, Eq)]
pub struct Range {
    pub class: Class,
    /// The first register.
    pub register: u32,
    /// How many registers there are.
    pub count: u32,
    /// A flag word: the constants of this crate, joined by `|`.
    pub flags: u32,
}

impl Default for Range {
    /// No registers.
    fn default() -> Range {
        Range {
            class: Class::Cbv,
            register: 0,
            count: 0,
            flags: 0,
        }
    }
}

impl Range {
    /// The registers of constants.
    pub(crate) fn of_constants(register: u32, count: u32) -> Range
        ensures { result ≡ range_of_constants register count }
    {
        Range {
            class: Class::Cbv,
            register,
            count,
            flags: 0,
        }
    }

    /// The register of a root descriptor.
    pub(crate) fn of_root(class: Class, register: u32, flags: u32) -> Range
        ensures { result ≡ range_of_root class register flags }
    {
        Range {
            class,
            register,
            count: 1,
            flags,
        }
    }

    /// Whether the range covers a register of a class.
    pub(crate) fn covers(&self, class: Class, register: u32) -> bool
        ensures { result ≡ covers_register self.now class register }
    {
        self.class == class && self.register <= register && register - self.register < self.count
    }
}
