//! What single words mean.

ghost use Rattle.std.specs.Prelude.{◌≡◌};
ghost use Rattle.line_forms.specs.Reading.{or_form, all_text, number_of, word_of, stands_for};
ghost use Rattle.line_forms.specs.Choices.{choices_of, chosen};

use crate::cause::Cause;
use crate::choice::{Choice, Choices, chosen};
use crate::part::PartValue;
use trace_words::{data_word, is_number, is_word, number_value};

/// The word that means all things.
pub fn all_word() -> &'static str
    ensures { result.now ≡ all_text }
{
    "all"
}

/// The number that a word writes in decimal. `Form`: it writes none; `Number`: it is 2^64 or more.
#[tactic(auto, unfolding(crate::specs::Reading::number_of))]
pub fn number(word: &[u8]) -> Result<u64, Cause>
    ensures { result ≡ number_of word.now }
{
    if !is_number(word) {
        return Err(Cause::Form);
    }
    number_value(word).ok_or(Cause::Number)
}

/// The number that a data word or a flag word writes.
#[tactic(auto, unfolding(crate::specs::Reading::word_of))]
pub fn word_value(word: &[u8]) -> Result<u32, Cause>
    ensures { result ≡ word_of word.now }
{
    match data_word(word) {
        Some(value) => Ok(value),
        None => Err(Cause::Form),
    }
}

/// A word that stands as it is.
#[tactic(auto, unfolding(crate::specs::Reading::stands_for))]
pub fn as_it_stands(text: &str, word: &[u8]) -> Result<PartValue, Cause>
    ensures { result ≡ stands_for text.now word.now }
{
    if is_word(word, text) {
        Ok(PartValue::AsItStands)
    } else {
        Err(Cause::Form)
    }
}

/// What a word chooses.
pub fn choice(choices: Choices, word: &[u8]) -> Result<Choice, Cause>
    ensures { result ≡ or_form (chosen (choices_of choices) word.now) }
{
    match chosen(choices.all(), word) {
        Some(choice) => Ok(choice),
        None => Err(Cause::Form),
    }
}
