//! Whether a register is covered twice.

ghost use Rattle.std.specs.Prelude.{◌≡◌, ◌≤◌, ◌↔◌, ℕ, length, nat_lt, IsTrue};
ghost use Rattle.std.specs.List.{list_any, count_by};
ghost use Rattle.root_signature.specs.Ranges.{covers as covers_register, ranges_of};
ghost use Rattle.root_signature.specs.Places.{places_in_param, places_of};
ghost use Rattle.root_signature.specs.Refusals.{CoversTwice};

use crate::params::Param;
use crate::ranges::Range;
use dx_base::Class;

/// How many ranges cover a register.
fn covering(ranges: &[Range], class: Class, register: u32) -> usize
    ensures { result ≡ count_by (λ range. covers_register range class register) ranges.now }
{
    ranges
        .iter()
        .filter(|range| range.covers(class, register))
        .count()
}

/// How many ranges of a parameter cover a register.
fn covering_in(param: &Param, class: Class, register: u32) -> usize
    ensures value { result ≡ count_by (λ range. covers_register range class register) (ranges_of param.now) }
    ensures bound { result ≤ 16 }
{
    match param {
        Param::Const {
            register: first,
            count,
        } => covering(&[Range::of_constants(*first, *count)], class, register),
        Param::Root {
            class: of,
            register: first,
            flags,
        } => covering(&[Range::of_root(*of, *first, *flags)], class, register),
        Param::Table { ranges } => covering(ranges.as_slice(), class, register),
    }
}

/// Whether two parameters or ranges cover a register.
fn is_covered_twice(params: &[Param], class: Class, register: u32) -> bool
    ensures { result ≡ nat_lt 1 (length (places_of params.now class register)) }
{
    let mut found: usize = 0;
    for param in params {
        found += covering_in(param, class, register);
        if found > 1 {
            return true;
        }
    }
    false
}

/// Whether one of the ranges begins at a register that two parameters or ranges cover.
fn has_covered_twice(params: &[Param], ranges: &[Range]) -> bool
    ensures { result ≡ list_any (λ range. nat_lt 1 (length (places_of params.now range.class range.register))) ranges.now }
{
    ranges.iter().any(|range| is_covered_twice(params, range.class, range.register))
}

/// Whether a range of a parameter begins at a register that two parameters or ranges cover.
fn begins_covered_twice(params: &[Param], param: &Param) -> bool
    ensures { result ≡ list_any (λ range. nat_lt 1 (length (places_of params.now range.class range.register))) (ranges_of param.now) }
{
    match param {
        Param::Const { register, .. } => is_covered_twice(params, Class::Cbv, *register),
        Param::Root {
            class,
            register,
            ..
        } => is_covered_twice(params, *class, *register),
        Param::Table { ranges } => has_covered_twice(params, ranges.as_slice()),
    }
}

/// Whether a range of some parameter begins at a register that two parameters or ranges cover.
fn some_begins_covered_twice(params: &[Param]) -> bool
    ensures { result ≡ list_any (λ param. list_any (λ range. nat_lt 1 (length (places_of params.now range.class range.register))) (ranges_of param)) params.now }
{
    params
        .iter()
        .any(|param| begins_covered_twice(params, param))
}

/// Whether two parameters or ranges cover one register of one class. Where they do, one of them begins at such
/// a register, so that these alone are looked at.
pub(crate) fn covers_twice(params: &[Param]) -> bool
    ensures { IsTrue result ↔ CoversTwice params.now }
{
    some_begins_covered_twice(params)
}
