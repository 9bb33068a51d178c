//! Tables from words.

ghost use Rattle.std.specs.Prelude.{◌≡◌, map};
ghost use Rattle.trace_words.specs.Rows.{row_of, is_among};

use crate::word::is_word;

/// What the first row with that word has.
#[tactic(auto, unfolding(crate::specs::Rows::row_of))]
pub fn first_row<T: Copy>(rows: &[(&str, T)], word: &[u8]) -> Option<T>
    ensures { result ≡ row_of (map (λ row. (row.0.now, row.1)) rows.now) word.now }
{
    for row in rows {
        if is_word(word, row.0) {
            return Some(row.1);
        }
    }
    None
}

/// The word is one of those texts.
#[tactic(auto, unfolding(crate::specs::Rows::is_among))]
pub fn is_among(texts: &[&str], word: &[u8]) -> bool
    ensures { result ≡ is_among (map (λ text. text.now) texts.now) word.now }
{
    for text in texts {
        if is_word(word, text) {
            return true;
        }
    }
    false
}
