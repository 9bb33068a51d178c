//! What the words of a line mean.

ghost use Rattle.std.specs.Prelude.{◌≡◌, ◌++◌, [], ◌∷◌, map, drop, slice_get, IfOk};
ghost use Rattle.line_forms.specs.Causes.{wrapped, two_of};
ghost use Rattle.line_forms.specs.declared.part.PartValue.TheVariants as value;
ghost use Rattle.line_forms.specs.Parts.{place_of};
ghost use Rattle.line_forms.specs.Reading.{number_of, word_of, all_or_of, read_part, read_at, read_parts, each_of, read_rest, read_row};

use crate::cause::Cause;
use crate::form::{Line, LineForm};
use crate::kind::Kind;
use crate::naming::Naming;
use crate::part::{Part, PartValue, Rest};
use crate::words::{all_word, as_it_stands, choice, number, word_value};
use dx_base::{Memory, Seq};
use std::alloc::Global;
use trace_words::is_word;

/// Both values, or the earlier cause.
#[tactic(auto, unfolding(crate::specs::Causes::two_of))]
pub fn two<A: Drop, B: Drop>(a: Result<A, Cause>, b: Result<B, Cause>) -> Result<(A, B), Cause>
    ensures { result ≡ two_of a b }
{
    match (a, b) {
        (Ok(a), Ok(b)) => Ok((a, b)),
        (Ok(_), Err(cause)) => Err(cause),
        (Err(cause), Ok(_)) => Err(cause),
        (Err(one), Err(other)) => Err(one.earlier(other)),
    }
}

/// All things, or the thing of that kind that a word names.
#[tactic(auto, unfolding(crate::specs::Reading::all_or_of))]
fn all_or<N: Naming>(names: &N, kind: Kind, word: &[u8]) -> Result<PartValue, Cause>
    ensures { result ≡ all_or_of value.AllOr ((N.names names.now).number kind) word.now }
{
    if is_word(word, all_word()) {
        Ok(PartValue::AllOr(None))
    } else {
        Ok(PartValue::AllOr(Some(names.number(kind, word)?)))
    }
}

/// All, or the number that a word writes.
#[tactic(auto, unfolding(crate::specs::Reading::all_or_of))]
fn all_or_number(word: &[u8]) -> Result<PartValue, Cause>
    ensures { result ≡ all_or_of value.AllOrNumber number_of word.now }
{
    if is_word(word, all_word()) {
        Ok(PartValue::AllOrNumber(None))
    } else {
        Ok(PartValue::AllOrNumber(Some(number(word)?)))
    }
}

/// What a word means as a part.
fn read_part<N: Naming>(names: &N, part: Part, word: &[u8]) -> Result<PartValue, Cause>
    ensures { result ≡ read_part (N.names names.now) (place_of part) word.now }
{
    match part {
        Part::Word(text) => as_it_stands(text, word),
        Part::Name(kind) => Ok(PartValue::Id(names.number(kind, word)?)),
        Part::NewName => Ok(PartValue::NewName(names.fresh(word)?)),
        Part::Number => Ok(PartValue::Number(number(word)?)),
        Part::DataWord => Ok(PartValue::Word(word_value(word)?)),
        Part::FlagWord => Ok(PartValue::Word(word_value(word)?)),
        Part::Set(set) => Ok(PartValue::Set(set.read(word)?)),
        Part::Choice(choices) => Ok(PartValue::Chosen(choice(choices, word)?)),
        Part::AllOr(kind) => all_or(names, kind, word),
        Part::AllOrNumber => all_or_number(word),
    }
}

/// What a word of that place means as a part.
fn read_at<N: Naming>(names: &N, part: Part, words: &[&[u8]], at: usize) -> Result<PartValue, Cause>
    ensures { result ≡ read_at (N.names names.now) (place_of part) (slice_get (map (λ w. w.now) words.now) at) }
{
    match words.get(at) {
        Some(word) => read_part(names, part, word),
        None => Err(Cause::Form),
    }
}

/// What was found, with one more value behind it, or the earlier cause.
fn with_next<T: Drop>(
    found: Result<Seq<T>, Cause>,
    next: Result<T, Cause>,
) -> Result<Result<Seq<T>, Cause>, Memory>
    ensures { IfOk result (λ all. all ≡ wrapped (λ v. v.0 ++ v.1 ∷ []) (two_of found next)) }
{
    match two(found, next) {
        Ok((mut all, one)) => {
            all.push(one)?;
            Ok(Ok(all))
        }
        Err(cause) => Ok(Err(cause)),
    }
}

/// What the first words mean as parts, or the earliest cause.
fn read_parts<N: Naming>(
    alloc: Global,
    names: &N,
    parts: &[Part],
    words: &[&[u8]],
) -> Result<Result<Seq<PartValue>, Cause>, Memory>
    ensures { IfOk result (λ all. all ≡ read_parts (N.names names.now) (map place_of parts.now) (map (λ w. w.now) words.now)) }
{
    let mut found = Ok(Seq::new(alloc));
    for at in 0..parts.len() {
        found = with_next(found, read_at(names, parts[at], words, at))?;
    }
    Ok(found)
}

/// The things that words name.
fn read_names<N: Naming>(
    alloc: Global,
    names: &N,
    kind: Kind,
    words: &[&[u8]],
) -> Result<Result<Seq<u32>, Cause>, Memory>
    ensures { IfOk result (λ all. all ≡ each_of ((N.names names.now).number kind) (map (λ w. w.now) words.now)) }
{
    let mut found = Ok(Seq::new(alloc));
    for word in words {
        found = with_next(found, names.number(kind, word))?;
    }
    Ok(found)
}

/// The numbers that data words write.
fn read_words(alloc: Global, words: &[&[u8]]) -> Result<Result<Seq<u32>, Cause>, Memory>
    ensures { IfOk result (λ all. all ≡ each_of word_of (map (λ w. w.now) words.now)) }
{
    let mut found = Ok(Seq::new(alloc));
    for word in words {
        found = with_next(found, word_value(word))?;
    }
    Ok(found)
}

/// What the words up to the end mean.
#[tactic(auto, unfolding(crate::specs::Reading::read_rest))]
fn read_rest<N: Naming>(
    alloc: Global,
    names: &N,
    rest: Rest,
    words: &[&[u8]],
) -> Result<Result<Seq<u32>, Cause>, Memory>
    ensures { IfOk result (λ all. all ≡ read_rest (N.names names.now) rest (map (λ w. w.now) words.now)) }
{
    match rest {
        Rest::Nothing => {
            if words.is_empty() {
                Ok(Ok(Seq::new(alloc)))
            } else {
                Ok(Err(Cause::Form))
            }
        }
        Rest::Names(kind) => read_names(alloc, names, kind, words),
        Rest::Words => {
            if words.is_empty() || words.len() > 256 {
                Ok(Err(Cause::Form))
            } else {
                read_words(alloc, words)
            }
        }
    }
}

/// The words from a place on.
#[tactic(auto, using(crate::proofs::EachWord::map_drop, crate::proofs::EachWord::drop_most))]
fn behind<'a, 'b>(words: &'b [&'a [u8]], at: usize) -> &'b [&'a [u8]]
    ensures { map (λ w. w.now) result.now ≡ drop at (map (λ w. w.now) words.now) }
{
    let (_, behind) = words.split_at(at.min(words.len()));
    behind
}

/// What the words of a line mean by a form. `Form`: the words have not that form; else the first cause in order that
/// there is among the words.
#[tactic(auto, unfolding(crate::specs::Reading::read_row), using(crate::proofs::EachWord::length_places))]
pub fn read_line<F: LineForm, N: Naming>(
    alloc: Global,
    names: &N,
    form: F,
    words: &[&[u8]],
) -> Result<Result<Line, Cause>, Memory>
    ensures { IfOk result (λ line. line ≡ read_row (N.names names.now) (F.shape form) (map (λ w. w.now) words.now)) }
{
    let parts = form.parts();
    let values = read_parts(alloc, names, parts, words)?;
    let rest = read_rest(alloc, names, form.rest(), behind(words, parts.len()))?;
    match two(values, rest) {
        Ok((values, rest)) => Ok(Ok(Line { values, rest })),
        Err(cause) => Ok(Err(cause)),
    }
}
