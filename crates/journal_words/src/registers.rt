//! Registers and counts, as their words write them.

ghost use Rattle.std.specs.Prelude.{◌≡◌};
ghost use Rattle.line_forms.specs.Causes.{wrapped};
ghost use Rattle.journal_words.specs.Fields.{count_of, keyed_count, keyed_register, lone_register, place_of, register_of, root_at, slot_at};

use crate::fields::{cut_colon, place, triple};
use crate::words::{data, narrow};
use line_forms::Cause;
use trace_words::is_word;
use vk_types::{Count, Register};

/// A register that a buffer and a word of it make.
fn root(rest: &[u8]) -> Result<Register, Cause>
    ensures { result ≡ wrapped root_at (place_of rest.now) }
{
    let (buffer, first) = place(rest)?;
    Ok(Register::Root { buffer, first })
}

/// A register that a heap and a slot of it make.
fn slot(rest: &[u8]) -> Result<Register, Cause>
    ensures { result ≡ wrapped slot_at (place_of rest.now) }
{
    let (heap, slot) = place(rest)?;
    Ok(Register::Slot { heap, slot })
}

/// A register, by what stands before and behind its first colon.
#[tactic(auto, unfolding(crate::specs::Fields::keyed_register))]
fn keyed_register(key: &[u8], rest: &[u8]) -> Result<Register, Cause>
    ensures { result ≡ keyed_register key.now rest.now }
{
    if is_word(key, "c") {
        Ok(Register::Constant(data(rest)?))
    } else if is_word(key, "b") {
        root(rest)
    } else if is_word(key, "v") {
        Ok(Register::Fixed(narrow(rest)?))
    } else if is_word(key, "s") {
        slot(rest)
    } else {
        Err(Cause::Form)
    }
}

/// A register without a colon.
#[tactic(auto, unfolding(crate::specs::Fields::lone_register))]
fn lone_register(word: &[u8]) -> Result<Register, Cause>
    ensures { result ≡ lone_register word.now }
{
    if is_word(word, "-") {
        Ok(Register::Unbound)
    } else {
        Err(Cause::Form)
    }
}

/// The register that a word writes.
#[tactic(auto, unfolding(crate::specs::Fields::register_of))]
pub(crate) fn register(word: &[u8]) -> Result<Register, Cause>
    ensures { result ≡ register_of word.now }
{
    match cut_colon(word) {
        None => lone_register(word),
        Some((key, rest)) => keyed_register(key, rest),
    }
}

/// A count, by what stands before and behind its first colon.
#[tactic(auto, unfolding(crate::specs::Fields::keyed_count))]
fn keyed_count(key: &[u8], rest: &[u8]) -> Result<Count, Cause>
    ensures { result ≡ keyed_count key.now rest.now }
{
    if !is_word(key, "b") {
        return Err(Cause::Form);
    }
    let (buffer, (word, most)) = triple(rest)?;
    Ok(Count::Word { buffer, word, most })
}

/// The count that a word writes.
#[tactic(auto, unfolding(crate::specs::Fields::count_of))]
pub(crate) fn count(word: &[u8]) -> Result<Count, Cause>
    ensures { result ≡ count_of word.now }
{
    match cut_colon(word) {
        None => Ok(Count::Number(narrow(word)?)),
        Some((key, rest)) => keyed_count(key, rest),
    }
}
