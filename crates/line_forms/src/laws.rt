//! Laws of forms. The functions do nothing.

ghost use Rattle.line_forms.specs.Laws.{IsGrammar, ReadsAgain, PrintsBack};

/// What is read of words is what they say, and words that say a line are read as it. The cause that is told is the
/// first in order of those that the words have, and the first of those that they have is told.
#[tactic(auto, using(crate::proofs::Grammar::grammar))]
pub fn what_is_read_is_what_the_words_say()
    ensures { IsGrammar }
{}

/// What is read is read of its own words, where names are named by themselves; and each value is of its part's kind.
#[tactic(auto, using(crate::proofs::Good::reads_again))]
pub fn what_is_read_is_read_again()
    ensures { ReadsAgain }
{}

/// What is printed of a line whose values are read of their words is read as the line, by the form that is found for
/// it among forms that are apart.
#[tactic(auto, using(crate::proofs::Good::prints_back))]
pub fn what_is_printed_is_read()
    ensures { PrintsBack }
{}
