//! The words of a program that runs a trace: `--choices N` and `--history`.

ghost use Rattle.std.specs.Prelude.{◌≡◌, map, string_bytes};
ghost use Rattle.trace_runner.specs.Words.{number_in, number_said, said_in_all, said_by, said_with, with_choices, with_history};

#[cfg(test)]
mod tests;

use trace_words::{is_number, is_word, number_value};

/// What the words of a program say.
#[derive(Clone, Copy, Debug, PartialEq, Eq)]
pub struct Words {
    /// The number behind `--choices`, where that word is there.
    pub choices: Option<u64>,
    /// The word `--history` is there.
    pub shown: bool,
}

impl Words {
    /// The number that the choices start from: the one behind `--choices`, and 0 where that word is not there.
    pub fn number(self) -> u64
        ensures { result ≡ number_said self }
    {
        match self.choices {
            Some(number) => number,
            None => 0,
        }
    }
}

/// The number of `--choices`, as far as the words are read.
#[derive(Clone, Copy)]
enum Choices {
    /// `--choices` has not come.
    Unasked,
    /// `--choices` has come, and its number is the next word.
    Awaited,
    /// Both have come.
    Given(u64),
}

/// What the words say, as far as they are read.
#[derive(Clone, Copy)]
struct Said {
    choices: Choices,
    shown: bool,
}

/// The number that a word writes: decimal, below 2^64, without a sign and without a leading zero.
#[tactic(auto, unfolding(crate::specs::Words::number_in))]
fn number_in(word: &[u8]) -> Option<u64>
    ensures { result ≡ number_in word.now }
{
    if is_number(word) {
        number_value(word)
    } else {
        None
    }
}

/// What is said with a word that is `--history` and comes for the first time.
#[tactic(auto, unfolding(crate::specs::Words::with_history))]
fn with_history(said: Said, word: &[u8]) -> Option<Said>
    ensures { result ≡ with_history said word.now }
{
    if is_word(word, "--history") && !said.shown {
        Some(Said {
            choices: said.choices,
            shown: true,
        })
    } else {
        None
    }
}

/// What is said with a word where `--choices` has not come.
#[tactic(auto, unfolding(crate::specs::Words::with_choices))]
fn with_choices(said: Said, word: &[u8]) -> Option<Said>
    ensures { result ≡ with_choices said word.now }
{
    if is_word(word, "--choices") {
        Some(Said {
            choices: Choices::Awaited,
            shown: said.shown,
        })
    } else {
        with_history(said, word)
    }
}

/// What is said with one more word, where that is a good one.
#[tactic(auto, unfolding(crate::specs::Words::said_with))]
fn said_with(said: Said, word: &[u8]) -> Option<Said>
    ensures { result ≡ said_with said word.now }
{
    match said.choices {
        Choices::Unasked => with_choices(said, word),
        Choices::Given(_) => with_history(said, word),
        Choices::Awaited => match number_in(word) {
            Some(number) => Some(Said {
                choices: Choices::Given(number),
                shown: said.shown,
            }),
            None => None,
        },
    }
}

/// What all words say, or the place behind them where the number of `--choices` is missing.
#[tactic(auto, unfolding(crate::specs::Words::said_in_all))]
fn said_in_all(said: Said, place: u32) -> Result<Words, u32>
    ensures { result ≡ said_in_all said place }
{
    let choices = match said.choices {
        Choices::Unasked => None,
        Choices::Awaited => return Err(place),
        Choices::Given(number) => Some(number),
    };
    Ok(Words {
        choices,
        shown: said.shown,
    })
}

/// What the words of a program say: `--choices N` and `--history`, each at most once, in either order, where N is a
/// decimal number below 2^64 without a sign and without a leading zero. The error is the place of the first bad or
/// missing word, counted from 1: `--choices` without N is bad at the place behind it.
#[tactic(auto, unfolding(crate::specs::Words::said_from))]
pub fn read_words(words: &[String]) -> Result<Words, u32>
    ensures { result ≡ said_by (map string_bytes words.now) }
{
    let mut said = Said {
        choices: Choices::Unasked,
        shown: false,
    };
    let mut place = 1;
    for word in words {
        let Some(more) = said_with(said, word.as_bytes()) else {
            return Err(place);
        };
        said = more;
        place += 1;
    }
    said_in_all(said, place)
}
