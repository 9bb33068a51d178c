//! The parameters of root signatures.

ghost use Rattle.std.specs.Prelude.{◌≡◌};

use crate::ranges::Range;
use arrayvec::ArrayVec;
use dx_base::Class;

/// A root parameter (D3D12_ROOT_PARAMETER1).
#[derive(Debug, Drop, PartialEq, Eq)]
pub enum Param {
    /// So many constants, of which the first is register `register` of class cbv, the next the next one.
    Const {
        register: u32,
        count: u32,
    },
    /// A descriptor in the signature itself: one register of its class.
    Root {
        class: Class,
        register: u32,
        flags: u32,
    },
    /// A table of descriptors: its ranges take consecutive slots.
    Table {
        ranges: ArrayVec<Range, 16>,
    },
}

/// The same ranges.
fn copied_ranges(ranges: &ArrayVec<Range, 16>) -> ArrayVec<Range, 16>
    ensures { result ≡ ranges.now }
{
    let mut copy = ArrayVec::new();
    if copy.try_extend_from_slice(ranges.as_slice()).is_err() {
        unreachable!();
    }
    copy
}

impl Param {
    /// An equal parameter; takes no memory.
    pub fn copied(&self) -> Param
        ensures { result ≡ self.now }
    {
        match self {
            Param::Const { register, count } => Param::Const {
                register: *register,
                count: *count,
            },
            Param::Root {
                class,
                register,
                flags,
            } => Param::Root {
                class: *class,
                register: *register,
                flags: *flags,
            },
            Param::Table { ranges } => Param::Table {
                ranges: copied_ranges(ranges),
            },
        }
    }
}
