//! Words of several fields with colons between.

ghost use Rattle.std.specs.Prelude.{◌≡◌};
ghost use Rattle.std.specs.Option.{option_map};
ghost use Rattle.journal_words.specs.Fields.{pair_of, place_of, triple_of};
ghost use Rattle.journal_words.specs.Words.{cut_at};

use crate::words::{narrow, wide};
use line_forms::{Cause, two};
use trace_words::cut;

/// What stands before and behind the first colon of a word.
#[tactic(auto, using(crate::proofs::Colons::cut_is))]
pub(crate) fn cut_colon(word: &[u8]) -> Option<(&[u8], &[u8])>
    ensures { option_map (λ p. (p.0.now, p.1.now)) result ≡ cut_at 58 word.now }
{
    cut(b':', word)
}

/// The timeline and the value that a word writes.
#[tactic(auto, unfolding(crate::specs::Fields::pair_of))]
pub(crate) fn pair(word: &[u8]) -> Result<(u32, u64), Cause>
    ensures { result ≡ pair_of word.now }
{
    match cut_colon(word) {
        None => Err(Cause::Form),
        Some((front, behind)) => two(narrow(front), wide(behind)),
    }
}

/// The two numbers that a word writes.
#[tactic(auto, unfolding(crate::specs::Fields::place_of))]
pub(crate) fn place(word: &[u8]) -> Result<(u32, u32), Cause>
    ensures { result ≡ place_of word.now }
{
    match cut_colon(word) {
        None => Err(Cause::Form),
        Some((front, behind)) => two(narrow(front), narrow(behind)),
    }
}

/// The three numbers that a word writes.
#[tactic(auto, unfolding(crate::specs::Fields::triple_of))]
pub(crate) fn triple(word: &[u8]) -> Result<(u32, (u32, u32)), Cause>
    ensures { result ≡ triple_of word.now }
{
    match cut_colon(word) {
        None => Err(Cause::Form),
        Some((front, behind)) => two(narrow(front), place(behind)),
    }
}
