//! Lines and words, cut out of a text.

ghost use Rattle.std.specs.Prelude.{◌≡◌, ◌==◌, ◌++◌, [], ◌∷◌, map, OnOk};
ghost use Rattle.std.specs.List.{slice_split, list_all};
ghost use Rattle.trace_words.specs.Lines.{is_plain, is_plain_byte, words_of};
ghost use Rattle.trace_words.specs.Cut.{IsCut};

use dx_base::{LINE_BYTES, Memory};
use memchr::memchr;

/// What stands before and behind the first such byte of the text; nothing where there is none. Linear in the first
/// part.
pub fn cut<'a>(byte: u8, text: &'a [u8]) -> Option<(&'a [u8], &'a [u8])>
    ensures { IsCut byte text.now result }
{
    let Some(at) = memchr(byte, text) else {
        return None;
    };
    let (front, rest) = text.split_at(at);
    let [_, behind @ ..] = rest else {
        return None;
    };
    Some((front, behind))
}

/// Each byte may stand in a line.
fn are_plain_bytes(line: &[u8]) -> bool
    ensures { result ≡ list_all is_plain_byte line.now }
{
    line.iter().all(|b| 32 <= *b && *b <= 126)
}

/// The line has at most `LINE_BYTES` bytes, each from 32 to 126.
#[tactic(auto, unfolding(crate::specs::Lines::is_plain))]
pub fn is_plain(line: &[u8]) -> bool
    ensures { result ≡ is_plain line.now }
{
    line.len() <= LINE_BYTES && are_plain_bytes(line)
}

/// Puts the words of a line in place of those that the list holds.
pub fn words_of_line<'a>(line: &'a [u8], words: &mut Vec<&'a [u8]>) -> Result<(), Memory>
    ensures { OnOk result (map (λ word. word.now) words.new.items ≡ words_of line.now) }
{
    words.clear();
    let mut rest = line;
    while let Some((word, behind)) = cut(b' ', rest) {
        words.push(word)?;
        rest = behind;
    }
    words.push(rest)?;
    Ok(())
}
