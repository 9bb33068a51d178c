//! The names of objects by kind, to print ids.

ghost use Rattle.std.specs.Prelude.{◌≡◌, map, drop, IfOk};
ghost use Rattle.trace_lines.specs.Known.{names_for, names_of_kind, known_names};
ghost use Rattle.trace_lines.specs.Names.{name_at};

use crate::object::Declared;
use crate::things::{KINDS, place_of, same_kind};
use dx_base::Memory;
use line_forms::{Kind, Named};
use std::alloc::Global;
use std::marker::Model;
use trace_words::Name;

/// The names of the objects of each kind, in order: a list for each kind, by its place.
#[derive(Drop)]
pub struct Known<'a> {
    tables: Vec<Vec<&'a Name>>,
}

impl<'a> Model for Known<'a> {
    ghost use Rattle.std.specs.Prelude.{map};
    ghost use Rattle.trace_lines.specs.Known.{KnownNames};

    ghost Value = { KnownNames };

    ghost view = { λ k. map (λ t. map (λ n. n.now) t.items) k.tables.items };
}

/// The names from a place on; none where the place is behind their end.
pub fn behind(names: &[Name], at: usize) -> &[Name]
    ensures { result.now ≡ drop at names.now }
{
    match names.get(at..) {
        Some(names) => names,
        None => &[],
    }
}

/// The name of that place; empty where there is none.
pub fn name_of(names: &[Name], at: usize) -> &[u8]
    ensures { result.now ≡ name_at names.now at }
{
    match names.get(at) {
        Some(name) => name.as_bytes(),
        None => b"",
    }
}

/// The name of that place; empty where there is none.
fn known_name<'a>(names: &[&'a Name], at: usize) -> &'a [u8]
    ensures { result.now ≡ name_at (map (λ n. n.now) names.now) at }
{
    match names.get(at) {
        Some(name) => name.as_bytes(),
        None => b"",
    }
}

/// The names of the objects of a kind, in order.
#[tactic(auto, unfolding(crate::specs::Known::names_of_kind))]
pub fn names_of_kind<'a>(
    alloc: Global,
    kind: Kind,
    names: &'a [Name],
    declared: &[Declared],
) -> Result<Vec<&'a Name>, Memory>
    ensures { IfOk result (λ found. map (λ n. n.now) found.items ≡ names_of_kind kind names.now declared.now) }
{
    let mut found = Vec::new(alloc);
    for at in 0..names.len().min(declared.len()) {
        let name = &names[at];
        if same_kind(kind, declared[at].kind()) {
            found.push(name)?;
        }
    }
    Ok(found)
}

impl<'a> Known<'a> {
    /// The names of the declared objects.
    pub fn of(alloc: Global, names: &'a [Name], declared: &[Declared]) -> Result<Known<'a>, Memory>
        ensures { IfOk result (λ known. known ≡ known_names names.now declared.now) }
    {
        let mut tables = Vec::new(alloc);
        for kind in &KINDS {
            tables.push(names_of_kind(alloc, *kind, names, declared)?)?;
        }
        Ok(Known { tables })
    }
}

impl<'a> Named for Known<'a> {
    ghost use Rattle.trace_lines.specs.Known.{known_of};

    ghost known = { known_of };

    fn name(&self, kind: Kind, number: u32) -> &[u8] {
        match self.tables.get(place_of(kind)) {
            Some(names) => known_name(names, number as usize),
            None => b"",
        }
    }
}
