//! What single words of numbers mean.

ghost use Rattle.std.specs.Prelude.{◌≡◌};
ghost use Rattle.line_forms.specs.Reading.{number_of, word_of};
ghost use Rattle.journal_words.specs.Words.{literal_of, narrow_of};

use line_forms::Cause;
use trace_words::{data_word, is_number, is_word, number_value};

/// The number that a word writes in decimal. `Form`: it writes none; `Number`: it is 2^64 or more.
#[tactic(auto, unfolding(line_forms::specs::Reading::number_of))]
pub(crate) fn wide(word: &[u8]) -> Result<u64, Cause>
    ensures { result ≡ number_of word.now }
{
    if !is_number(word) {
        return Err(Cause::Form);
    }
    number_value(word).ok_or(Cause::Number)
}

/// The number that a word writes in decimal. `Form`: it writes none; `Number`: it is 2^32 or more.
#[tactic(auto, unfolding(crate::specs::Words::narrow_of))]
pub(crate) fn narrow(word: &[u8]) -> Result<u32, Cause>
    ensures { result ≡ narrow_of word.now }
{
    let number = wide(word)?;
    if number < 4_294_967_296 {
        Ok(number as u32)
    } else {
        Err(Cause::Number)
    }
}

/// The number that 1 to 8 hexadecimal digits write.
#[tactic(auto, unfolding(line_forms::specs::Reading::word_of))]
pub(crate) fn data(word: &[u8]) -> Result<u32, Cause>
    ensures { result ≡ word_of word.now }
{
    match data_word(word) {
        Some(value) => Ok(value),
        None => Err(Cause::Form),
    }
}

/// A word that stands as it is.
#[tactic(auto, unfolding(crate::specs::Words::literal_of))]
pub(crate) fn literal(text: &str, word: &[u8]) -> Result<bool, Cause>
    ensures { result ≡ literal_of text.now word.now }
{
    if is_word(word, text) {
        Ok(true)
    } else {
        Err(Cause::Form)
    }
}
