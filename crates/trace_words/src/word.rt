//! What words are.

ghost use Rattle.std.specs.Prelude.{◌≡◌};
ghost use Rattle.std.specs.Char.{is_ascii_digit};
ghost use Rattle.std.specs.List.{list_all};
ghost use Rattle.std.specs.Str.{bytes_eq};
ghost use Rattle.trace_words.specs.Words.{is_name, is_name_byte, is_letter};

/// The word is that text.
pub fn is_word(word: &[u8], text: &str) -> bool
    ensures { result ≡ bytes_eq word.now text.now }
{
    word == text.as_bytes()
}

/// The byte is `a` to `z`.
fn is_letter(b: u8) -> bool
    ensures { result ≡ is_letter b }
{
    97 <= b && b <= 122
}

/// Each byte is `a` to `z`, `0` to `9` or `_`.
fn are_name_bytes(bytes: &[u8]) -> bool
    ensures { result ≡ list_all is_name_byte bytes.now }
{
    bytes.iter().all(|b| (97 <= *b && *b <= 122) || (b.is_ascii_digit() || *b == 95))
}

/// The word is spelled as a name is: bytes of `a` to `z`, `0` to `9` and `_`, of which the first is a letter.
#[tactic(auto, unfolding(crate::specs::Words::is_name))]
pub fn is_name(word: &[u8]) -> bool
    ensures { result ≡ is_name word.now }
{
    let [first, rest @ ..] = word else {
        return false;
    };
    is_letter(*first) && are_name_bytes(rest)
}
