//! Sets of syncs, of accesses and of resource states, as their words write them.

ghost use Rattle.std.specs.Prelude.{◌≡◌, ◌++◌, false, map, OnOk};
ghost use Rattle.line_forms.specs.Sets.{rows_of, with_bit, set_from, set_text};

use crate::append::put;
use crate::cause::Cause;
use dx_base::Memory;
use trace_words::{cut, first_row};

/// What a set is of.
#[derive(Clone, Copy, Debug, PartialEq, Eq)]
pub enum SetOf {
    Sync,
    Access,
    State,
}

/// The names of syncs and their bits, in the order in which they are printed.
const SYNCS: [(&str, u32); 7] = [
    ("NONE", 1),
    ("ALL", 2),
    ("COMPUTE_SHADING", 4),
    ("ALL_SHADING", 8),
    ("NON_PIXEL_SHADING", 16),
    ("COPY", 32),
    ("CLEAR_UNORDERED_ACCESS_VIEW", 64),
];

/// The names of accesses and their bits, in the order in which they are printed.
const ACCESSES: [(&str, u32); 7] = [
    ("UNORDERED_ACCESS", 1),
    ("SHADER_RESOURCE", 2),
    ("CONSTANT_BUFFER", 4),
    ("COPY_SOURCE", 8),
    ("COPY_DEST", 16),
    ("COMMON", 32),
    ("NO_ACCESS", 64),
];

/// The names of resource states and their bits, in the order in which they are printed.
const STATES: [(&str, u32); 7] = [
    ("COMMON", 1),
    ("VERTEX_AND_CONSTANT_BUFFER", 2),
    ("NON_PIXEL_SHADER_RESOURCE", 4),
    ("PIXEL_SHADER_RESOURCE", 8),
    ("COPY_SOURCE", 16),
    ("COPY_DEST", 32),
    ("UNORDERED_ACCESS", 64),
];

impl SetOf {
    /// The names and their bits, in the order in which they are printed.
    fn rows(self) -> &'static [(&'static str, u32)]
        ensures { map (λ row. (row.0.now, row.1)) result.now ≡ rows_of self }
    {
        match self {
            SetOf::Sync => &SYNCS,
            SetOf::Access => &ACCESSES,
            SetOf::State => &STATES,
        }
    }
}

/// A set with one more name, which it has not yet.
fn with_bit(bit: Option<u32>, set: Result<u32, Cause>) -> Result<u32, Cause>
    ensures { result ≡ with_bit bit set }
{
    let Some(bit) = bit else {
        return Err(Cause::Form);
    };
    let set = set?;
    if set & bit == 0 {
        Ok(set | bit)
    } else {
        Err(Cause::Form)
    }
}

/// The set that a word writes by rows of names and bits.
#[tactic(auto, unfolding(crate::specs::Sets::set_from, crate::specs::Sets::set_in))]
fn set_from(rows: &[(&str, u32)], word: &[u8]) -> Result<u32, Cause>
    ensures { result ≡ set_from (map (λ row. (row.0.now, row.1)) rows.now) word.now }
{
    match cut(b'|', word) {
        None => with_bit(first_row(rows, word), Ok(0)),
        Some((front, behind)) => with_bit(first_row(rows, front), set_from(rows, behind)),
    }
}

/// Appends the names of a set that rows have, with bars between; `begun`: a name stands before them.
#[tactic(auto, unfolding(crate::specs::Sets::set_text))]
fn put_rows(out: &mut Vec<u8>, rows: &[(&str, u32)], set: u32, begun: bool) -> Result<(), Memory>
    ensures { OnOk result (out.new.items ≡ out.old.items ++ set_text (map (λ row. (row.0.now, row.1)) rows.now) set begun) }
{
    match rows {
        [] => Ok(()),
        [row, rows @ ..] => {
            if set & row.1 == 0 {
                return put_rows(out, rows, set, begun);
            }
            if begun {
                put(out, b"|")?;
            }
            put(out, row.0.as_bytes())?;
            put_rows(out, rows, set, true)
        }
    }
}

impl SetOf {
    /// The set that a word writes.
    pub fn read(self, word: &[u8]) -> Result<u32, Cause>
        ensures { result ≡ set_from (rows_of self) word.now }
    {
        set_from(self.rows(), word)
    }

    /// Appends the word of a set.
    pub fn put(self, out: &mut Vec<u8>, set: u32) -> Result<(), Memory>
        ensures { OnOk result (out.new.items ≡ out.old.items ++ set_text (rows_of self) set false) }
    {
        put_rows(out, self.rows(), set, false)
    }
}
