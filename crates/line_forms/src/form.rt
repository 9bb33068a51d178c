//! Forms of lines.

ghost use Rattle.std.specs.Prelude.{◌≡◌, map};
ghost use Rattle.line_forms.specs.Finding.{may_stand, may_end, fits, form_for, first_byte_of};
ghost use Rattle.line_forms.specs.Parts.{place_of};

use crate::part::{Part, PartValue, Rest};
use dx_base::Seq;
use trace_words::is_word;

/// A form of lines, which has a row of parts.
pub trait LineForm: Copy {
    ghost use Rattle.std.specs.Prelude.{map};
    ghost use Rattle.line_forms.specs.Parts.{Row, place_of};

    ghost shape: { Self → Row };

    /// The parts, one for each of the first words.
    fn parts(self) -> &'static [Part]
        ensures { map place_of result.now ≡ (shape self).parts };

    /// What stands behind them.
    fn rest(self) -> Rest
        ensures { result ≡ (shape self).rest };
}

/// What the parts of a line mean, in order, and what stands behind them.
#[derive(Debug, Drop)]
pub struct Line {
    pub values: Seq<PartValue>,
    pub rest: Seq<u32>,
}

impl Part {
    /// A word may stand at the part.
    fn may_stand(self, word: &[u8]) -> bool
        ensures { result ≡ may_stand (place_of self) word.now }
    {
        match self {
            Part::Word(text) => is_word(word, text),
            Part::Name(_)
            | Part::NewName
            | Part::Number
            | Part::DataWord
            | Part::FlagWord
            | Part::Set(_)
            | Part::Choice(_)
            | Part::AllOr(_)
            | Part::AllOrNumber => true,
        }
    }
}

impl Rest {
    /// There may be so many words behind the parts.
    fn may_end(self, words: &[&[u8]]) -> bool
        ensures { result ≡ may_end self (map (λ w. w.now) words.now) }
    {
        match self {
            Rest::Nothing => words.is_empty(),
            Rest::Names(_) | Rest::Words => true,
        }
    }
}

/// The words have the fixed words and the number of words of the parts.
#[tactic(auto, unfolding(crate::specs::Finding::fits))]
fn fits(parts: &[Part], rest: Rest, words: &[&[u8]]) -> bool
    ensures { result ≡ fits (map place_of parts.now) rest (map (λ w. w.now) words.now) }
{
    match parts {
        [] => rest.may_end(words),
        [part, parts @ ..] => match words {
            [] => false,
            [word, words @ ..] => part.may_stand(word) && fits(parts, rest, words),
        },
    }
}

/// The first byte of the words of a line, or 0 where they have none. A line fits only forms of which a line may begin
/// with it.
pub fn first_byte(words: &[&[u8]]) -> u8
    ensures { result ≡ first_byte_of (map (λ w. w.now) words.now) }
{
    match words {
        [] => 0,
        [word, ..] => match word {
            [] => 0,
            [byte, ..] => *byte,
        },
    }
}

/// The first of some forms that the words of a line fit. Each other form costs the comparison of its first word, so
/// they are best those alone that may begin with the words' first byte.
#[tactic(auto, unfolding(crate::specs::Finding::form_for))]
pub fn form_for<F: LineForm>(forms: &[F], words: &[&[u8]]) -> Option<F>
    ensures { result ≡ form_for F.shape forms.now (map (λ w. w.now) words.now) }
{
    for form in forms {
        if fits(form.parts(), form.rest(), words) {
            return Some(*form);
        }
    }
    None
}
