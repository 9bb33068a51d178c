//! What each of several words means.

ghost use Rattle.std.specs.Prelude.{◌≡◌, ◌+◌, ◌++◌, [], ◌∷◌, ◌≤◌, length, map, IfOk};
ghost use Rattle.line_forms.specs.Causes.{two_of, wrapped};
ghost use Rattle.line_forms.specs.Reading.{each_of, word_of};
ghost use Rattle.journal_words.specs.Fields.{pair_of};
ghost use Rattle.journal_words.specs.LineWords.{place_of_word};
ghost use Rattle.journal_words.specs.Words.{narrow_of};

use crate::fields::pair;
use crate::words::{data, narrow};
use dx_base::{Memory, Seq};
use line_forms::{Cause, two};
use std::alloc::Global;
use trace_words::is_word;

/// What was found, with one more value behind it, or the earlier cause.
fn with_next<T: Drop>(
    found: Result<Seq<T>, Cause>,
    next: Result<T, Cause>,
) -> Result<Result<Seq<T>, Cause>, Memory>
    ensures { IfOk result (λ all. all ≡ wrapped (λ v. v.0 ++ v.1 ∷ []) (two_of found next)) }
{
    match two(found, next) {
        Ok((mut all, one)) => {
            all.push(one)?;
            Ok(Ok(all))
        }
        Err(cause) => Ok(Err(cause)),
    }
}

/// The numbers that words write in decimal.
pub(crate) fn numbers(alloc: Global, words: &[&[u8]]) -> Result<Result<Seq<u32>, Cause>, Memory>
    ensures { IfOk result (λ all. all ≡ each_of narrow_of (map (λ w. w.now) words.now)) }
{
    let mut found = Ok(Seq::new(alloc));
    for word in words {
        found = with_next(found, narrow(word))?;
    }
    Ok(found)
}

/// The numbers that data words write.
pub(crate) fn data_words(alloc: Global, words: &[&[u8]]) -> Result<Result<Seq<u32>, Cause>, Memory>
    ensures { IfOk result (λ all. all ≡ each_of word_of (map (λ w. w.now) words.now)) }
{
    let mut found = Ok(Seq::new(alloc));
    for word in words {
        found = with_next(found, data(word))?;
    }
    Ok(found)
}

/// The timelines and values that words write.
pub(crate) fn pairs(
    alloc: Global,
    words: &[&[u8]],
) -> Result<Result<Seq<(u32, u64)>, Cause>, Memory>
    ensures { IfOk result (λ all. all ≡ each_of pair_of (map (λ w. w.now) words.now)) }
{
    let mut found = Ok(Seq::new(alloc));
    for word in words {
        found = with_next(found, pair(word))?;
    }
    Ok(found)
}

/// How many words stand before the first that is a text, or in all where none is.
#[tactic(auto, unfolding(crate::specs::LineWords::place_of_word))]
pub(crate) fn place_of_word(text: &str, words: &[&[u8]]) -> usize
    ensures place { result ≡ place_of_word text.now (map (λ w. w.now) words.now) }
    ensures inside { result ≤ length words.now }
{
    for at in 0..words.len() {
        if is_word(words[at], text) {
            return at;
        }
    }
    words.len()
}
