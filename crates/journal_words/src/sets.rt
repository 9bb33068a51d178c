//! Sets of stages and of accesses, as their words write them.

ghost use Rattle.std.specs.Prelude.{◌≡◌, ◌++◌, false, map, OnOk};
ghost use Rattle.line_forms.specs.Sets.{with_bit as with_a_bit, set_from as set_by, set_text};
ghost use Rattle.journal_words.specs.Tables.{access_rows, stage_rows};
ghost use Rattle.journal_words.specs.Words.{set_of, set_word};

use dx_base::Memory;
use line_forms::{Cause, put};
use trace_words::{cut, first_row, is_word};
use vk_types::{Accesses, Stages};

/// The names of stages and their bits, in the order in which they are printed.
const STAGES: [(&str, u32); 4] = [
    ("ALL_COMMANDS", 1),
    ("COMPUTE_SHADER", 2),
    ("COPY", 4),
    ("HOST", 8),
];

/// The names of accesses and their bits, in the order in which they are printed.
const ACCESSES: [(&str, u32); 9] = [
    ("MEMORY_READ", 1),
    ("MEMORY_WRITE", 2),
    ("SHADER_STORAGE_READ", 4),
    ("SHADER_STORAGE_WRITE", 8),
    ("SHADER_READ", 16),
    ("UNIFORM_READ", 32),
    ("TRANSFER_READ", 64),
    ("TRANSFER_WRITE", 128),
    ("HOST_READ", 256),
];

/// A set with one more name, which it has not yet.
fn with_bit(bit: Option<u32>, set: Result<u32, Cause>) -> Result<u32, Cause>
    ensures { result ≡ with_a_bit bit set }
{
    let Some(bit) = bit else {
        return Err(Cause::Form);
    };
    let set = set?;
    if set & bit == 0 {
        Ok(set | bit)
    } else {
        Err(Cause::Form)
    }
}

/// The set of names that a word writes by rows of names and bits.
#[tactic(auto, unfolding(line_forms::specs::Sets::set_from, line_forms::specs::Sets::set_in))]
fn named_set(rows: &[(&str, u32)], word: &[u8]) -> Result<u32, Cause>
    ensures { result ≡ set_by (map (λ row. (row.0.now, row.1)) rows.now) word.now }
{
    match cut(b'|', word) {
        None => with_bit(first_row(rows, word), Ok(0)),
        Some((front, behind)) => with_bit(first_row(rows, front), named_set(rows, behind)),
    }
}

/// The set that a word writes by rows of names and bits; `-` is that of no names.
#[tactic(auto, unfolding(crate::specs::Words::set_of))]
fn read_set(rows: &[(&str, u32)], word: &[u8]) -> Result<u32, Cause>
    ensures { result ≡ set_of (map (λ row. (row.0.now, row.1)) rows.now) word.now }
{
    if is_word(word, "-") {
        Ok(0)
    } else {
        named_set(rows, word)
    }
}

/// The set of stages that a word writes.
pub(crate) fn stages(word: &[u8]) -> Result<u32, Cause>
    ensures { result ≡ set_of stage_rows word.now }
{
    read_set(&STAGES, word)
}

/// The set of accesses that a word writes.
pub(crate) fn accesses(word: &[u8]) -> Result<u32, Cause>
    ensures { result ≡ set_of access_rows word.now }
{
    read_set(&ACCESSES, word)
}

/// Appends the names of a set that rows have, with bars between; `begun`: a name stands before them.
#[tactic(auto, unfolding(line_forms::specs::Sets::set_text))]
fn put_names(out: &mut Vec<u8>, rows: &[(&str, u32)], set: u32, begun: bool) -> Result<(), Memory>
    ensures { OnOk result (out.new.items ≡ out.old.items ++ set_text (map (λ row. (row.0.now, row.1)) rows.now) set begun) }
{
    match rows {
        [] => Ok(()),
        [row, rows @ ..] => {
            if set & row.1 == 0 {
                return put_names(out, rows, set, begun);
            }
            if begun {
                put(out, b"|")?;
            }
            put(out, row.0.as_bytes())?;
            put_names(out, rows, set, true)
        }
    }
}

/// Appends the word of a set.
#[tactic(auto, unfolding(crate::specs::Words::set_word))]
fn put_set(out: &mut Vec<u8>, rows: &[(&str, u32)], set: u32) -> Result<(), Memory>
    ensures { OnOk result (out.new.items ≡ out.old.items ++ set_word (map (λ row. (row.0.now, row.1)) rows.now) set) }
{
    if set == 0 {
        put(out, b"-")
    } else {
        put_names(out, rows, set, false)
    }
}

/// Appends the word of a set of stages.
pub fn put_stages(out: &mut Vec<u8>, stages: Stages) -> Result<(), Memory>
    ensures { OnOk result (out.new.items ≡ out.old.items ++ set_word stage_rows stages.0) }
{
    put_set(out, &STAGES, stages.0)
}

/// Appends the word of a set of accesses.
pub fn put_accesses(out: &mut Vec<u8>, accesses: Accesses) -> Result<(), Memory>
    ensures { OnOk result (out.new.items ≡ out.old.items ++ set_word access_rows accesses.0) }
{
    put_set(out, &ACCESSES, accesses.0)
}
