//! Which ranges and parameters a root signature may not have.

ghost use Rattle.std.specs.Prelude.{◌≡◌};
ghost use Rattle.std.specs.List.{list_any};
ghost use Rattle.root_signature.specs.Flags.{is_too_new, has_unknown_flag, has_two_data_flags, has_two_descriptor_flags, has_static_data_of_volatile, has_descriptor_flag};
ghost use Rattle.root_signature.specs.Refusals.{is_refused_word, passes_registers, is_refused_range, is_refused_param};

use crate::flags::{
    DATA_STATIC, DATA_STATIC_WHILE_SET_AT_EXECUTE, DATA_VOLATILE,
    DESCRIPTORS_STATIC_KEEPING_BUFFER_BOUNDS_CHECKS, DESCRIPTORS_VOLATILE, has,
};
use crate::params::Param;
use crate::ranges::Range;
use crate::versions::Version;
use dx_base::Class;

/// The bits of all flags.
const ALL_FLAGS: u32 = DESCRIPTORS_VOLATILE
    | DATA_VOLATILE
    | DATA_STATIC_WHILE_SET_AT_EXECUTE
    | DATA_STATIC
    | DESCRIPTORS_STATIC_KEEPING_BUFFER_BOUNDS_CHECKS;

/// Whether a version lacks the flags of a word.
fn is_too_new(version: Version, flags: u32) -> bool
    ensures { result ≡ is_too_new version flags }
{
    match version {
        Version::V10 => flags != 0,
        Version::V11 => false,
    }
}

/// Whether a word has a bit that is no flag.
fn has_unknown_flag(flags: u32) -> bool
    ensures { result ≡ has_unknown_flag flags }
{
    flags & ALL_FLAGS != flags
}

/// Whether a word has two of the flags for data.
fn has_two_data_flags(flags: u32) -> bool
    ensures { result ≡ has_two_data_flags flags }
{
    let volatile = has(flags, DATA_VOLATILE);
    let at_execute = has(flags, DATA_STATIC_WHILE_SET_AT_EXECUTE);
    let fixed = has(flags, DATA_STATIC);
    (volatile && at_execute) || (volatile && fixed) || (at_execute && fixed)
}

/// Whether a word has both flags for descriptors.
fn has_two_descriptor_flags(flags: u32) -> bool
    ensures { result ≡ has_two_descriptor_flags flags }
{
    has(flags, DESCRIPTORS_VOLATILE) && has(flags, DESCRIPTORS_STATIC_KEEPING_BUFFER_BOUNDS_CHECKS)
}

/// Whether a word promises data that no descriptor is promised for.
fn has_static_data_of_volatile(flags: u32) -> bool
    ensures { result ≡ has_static_data_of_volatile flags }
{
    has(flags, DATA_STATIC) && has(flags, DESCRIPTORS_VOLATILE)
}

/// Whether a word has a flag for descriptors.
fn has_descriptor_flag(flags: u32) -> bool
    ensures { result ≡ has_descriptor_flag flags }
{
    has(flags, DESCRIPTORS_VOLATILE) || has(flags, DESCRIPTORS_STATIC_KEEPING_BUFFER_BOUNDS_CHECKS)
}

/// Whether a flag word is refused in a version.
fn is_refused_word(version: Version, flags: u32) -> bool
    ensures { result ≡ is_refused_word version flags }
{
    is_too_new(version, flags)
        || has_unknown_flag(flags)
        || has_two_data_flags(flags)
        || has_two_descriptor_flags(flags)
        || has_static_data_of_volatile(flags)
}

/// Whether a range passes the last register, 63.
fn passes_registers(range: &Range) -> bool
    ensures { result ≡ passes_registers range.now }
{
    range.register > 64 || range.count > 64 - range.register
}

/// Whether a range is refused in a version.
fn is_refused_range(version: Version, range: &Range) -> bool
    ensures { result ≡ is_refused_range version range.now }
{
    range.count == 0 || passes_registers(range) || is_refused_word(version, range.flags)
}

/// Whether one of the ranges is refused in a version.
fn has_refused_range(version: Version, ranges: &[Range]) -> bool
    ensures { result ≡ list_any (is_refused_range version) ranges.now }
{
    ranges.iter().any(|range| is_refused_range(version, range))
}

/// Whether a parameter is refused in a version.
pub(crate) fn is_refused_param(version: Version, param: &Param) -> bool
    ensures { result ≡ is_refused_param version param.now }
{
    match param {
        Param::Const { register, count } => {
            is_refused_range(version, &Range::of_constants(*register, *count))
        }
        Param::Root {
            class,
            register,
            flags,
        } => {
            has_descriptor_flag(*flags)
                || is_refused_range(version, &Range::of_root(*class, *register, *flags))
        }
        Param::Table { ranges } => has_refused_range(version, ranges.as_slice()),
    }
}
