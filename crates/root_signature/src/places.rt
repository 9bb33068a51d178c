//! Where registers lie in root signatures.

ghost use Rattle.std.specs.Prelude.{◌≡◌, ◌+◌, ◌*◌, ◌≤◌, ◌<◌, ◌^◌, length, slice_get, IsFalse};
ghost use Rattle.std.specs.List.{list_any};
ghost use Rattle.root_signature.specs.Ranges.{ranges_of};
ghost use Rattle.root_signature.specs.Places.{first_place, places_in_range, places_in_ranges, places_in_param, places_from, places_of};
ghost use Rattle.root_signature.specs.Refusals.{passes_registers};

use crate::params::Param;
use crate::ranges::Range;
use dx_base::Class;

/// Where a register lies in a root signature.
#[derive(Clone, Copy, Debug, PartialEq, Eq)]
pub struct Place {
    /// The parameter, counted from 0.
    pub param: u32,
    /// The range of the table, counted from 0; 0 of a root descriptor and of constants.
    pub range: u32,
    /// The slot, counted from the table's start; 0 of a root descriptor; the constant's index of constants.
    pub slot: u32,
}

/// The place of a register in a range that begins at a place, if the range covers it.
fn place_in_range(start: Place, range: &Range, class: Class, register: u32) -> Option<Place>
    requires { start.slot + range.now.count < 2 ^ 32 }
    ensures { result ≡ slice_get (places_in_range start range.now class register) 0 }
{
    if !range.covers(class, register) {
        return None;
    }
    Some(Place {
        slot: start.slot + (register - range.register),
        ..start
    })
}

/// The first place of a register in the ranges of a parameter, if one covers it.
fn place_in_ranges(param: u32, ranges: &[Range], class: Class, register: u32) -> Option<Place>
    requires few { length ranges.now ≤ 16 }
    requires small { IsFalse (list_any passes_registers ranges.now) }
    ensures { result ≡ slice_get (places_in_ranges (first_place param) ranges.now class register) 0 }
{
    let mut start = Place {
        param,
        range: 0,
        slot: 0,
    };
    for range in ranges {
        let found = place_in_range(start, range, class, register);
        if found.is_some() {
            return found;
        }
        start.range += 1;
        start.slot += range.count;
    }
    None
}

/// The first place of a register in a parameter, if it covers it.
fn place_in_param(number: u32, param: &Param, class: Class, register: u32) -> Option<Place>
    requires { IsFalse (list_any passes_registers (ranges_of param.now)) }
    ensures { result ≡ slice_get (places_in_param number param.now class register) 0 }
{
    match param {
        Param::Const {
            register: first,
            count,
        } => place_in_ranges(
            number,
            &[Range::of_constants(*first, *count)],
            class,
            register,
        ),
        Param::Root {
            class: of,
            register: first,
            flags,
        } => place_in_ranges(
            number,
            &[Range::of_root(*of, *first, *flags)],
            class,
            register,
        ),
        Param::Table { ranges } => place_in_ranges(number, ranges.as_slice(), class, register),
    }
}

/// The first place of a register in parameters, if one covers it.
pub(crate) fn first_place_in(params: &[Param], class: Class, register: u32) -> Option<Place>
    requires few { length params.now < 2 ^ 32 }
    requires small { IsFalse (list_any (λ param. list_any passes_registers (ranges_of param)) params.now) }
    ensures { result ≡ slice_get (places_of params.now class register) 0 }
{
    let mut number: u32 = 0;
    for param in params {
        let found = place_in_param(number, param, class, register);
        if found.is_some() {
            return found;
        }
        number += 1;
    }
    None
}
