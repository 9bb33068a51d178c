//! Flag words, and what they promise.

ghost use Rattle.std.specs.Prelude.{◌≡◌};
ghost use Rattle.root_signature.specs.Flags.{has, effective_of, fixity_of_descriptors, fixity_of_data, fixity_without_flag};

use crate::fixities::{Effective, Fixity};
use crate::versions::Version;
use dx_base::Class;

/// The descriptors of a table may change until the work that uses them has run (D3D12_DESCRIPTOR_RANGE_FLAGS).
pub const DESCRIPTORS_VOLATILE: u32 = 1;

/// The data that descriptors view may change until the work that uses it runs, and while it runs.
pub const DATA_VOLATILE: u32 = 2;

/// The data may change until the list is executed.
pub const DATA_STATIC_WHILE_SET_AT_EXECUTE: u32 = 4;

/// The data may not change from the call on that sets it.
pub const DATA_STATIC: u32 = 8;

/// The descriptors may not change, and reads past a buffer's end are still cut.
pub const DESCRIPTORS_STATIC_KEEPING_BUFFER_BOUNDS_CHECKS: u32 = 0x1_0000;

/// Whether a flag word has a flag.
pub(crate) fn has(flags: u32, flag: u32) -> bool
    ensures { result ≡ has flags flag }
{
    flags & flag != 0
}

/// What a flag word of version 1.1 promises of descriptors.
fn fixity_of_descriptors(flags: u32) -> Fixity
    ensures { result ≡ fixity_of_descriptors flags }
{
    if has(flags, DESCRIPTORS_VOLATILE) {
        Fixity::Volatile
    } else {
        Fixity::Static
    }
}

/// What a flag word of version 1.1 promises of data without a flag for data.
fn fixity_without_flag(class: Class) -> Fixity
    ensures { result ≡ fixity_without_flag class }
{
    match class {
        Class::Cbv | Class::Srv => Fixity::AtExecute,
        Class::Uav => Fixity::Volatile,
    }
}

/// What a flag word of version 1.1 promises of data.
fn fixity_of_data(class: Class, flags: u32) -> Fixity
    ensures { result ≡ fixity_of_data class flags }
{
    if has(flags, DATA_VOLATILE) {
        Fixity::Volatile
    } else if has(flags, DATA_STATIC_WHILE_SET_AT_EXECUTE) {
        Fixity::AtExecute
    } else if has(flags, DATA_STATIC) {
        Fixity::Static
    } else {
        fixity_without_flag(class)
    }
}

/// What a flag word promises of a range or a root descriptor of that class (DirectX-Specs, Root Signature
/// Version 1.1). In version 1.0 all is volatile. Of several flags for data, which no signature has, the one
/// that promises least counts.
pub fn effective(version: Version, class: Class, flags: u32) -> Effective
    ensures { result ≡ effective_of version class flags }
{
    match version {
        Version::V10 => Effective {
            descriptors: Fixity::Volatile,
            values: Fixity::Volatile,
        },
        Version::V11 => Effective {
            descriptors: fixity_of_descriptors(flags),
            values: fixity_of_data(class, flags),
        },
    }
}
