//! Data words: numbers in hexadecimal.

ghost use Rattle.std.specs.Prelude.{◌≡◌, ◌≤◌, ◌<◌, length, true};
ghost use Rattle.std.specs.Char.{digit_value};
ghost use Rattle.std.specs.List.{list_all};
ghost use Rattle.std.specs.Str.Parse.{digits_value};
ghost use Rattle.trace_words.specs.Words.{data_word_of, is_data_word, is_hex_digit};

/// The value of one hexadecimal digit.
fn hex_digit(b: u8) -> u8
    requires { is_hex_digit b ≡ true }
    ensures value { result ≡ digit_value b }
    ensures small { result < 16 }
{
    if b <= b'9' { b - b'0' } else { b - b'a' + 10 }
}

/// The value of at most eight hexadecimal digits.
fn hex_value(digits: &[u8]) -> u32
    requires short { length digits.now ≤ 8 }
    requires digits { list_all is_hex_digit digits.now ≡ true }
    ensures { result ≡ digits_value 16 digits.now }
{
    let mut value: u32 = 0;
    for b in digits {
        value = value * 16 + u32::from(hex_digit(*b));
    }
    value
}

/// Each byte is a hexadecimal digit in lower case.
fn all_hex_digits(word: &[u8]) -> bool
    ensures { result ≡ list_all is_hex_digit word.now }
{
    word.iter()
        .all(|b| (48 <= *b && *b <= 57) || (97 <= *b && *b <= 102))
}

/// The word is 1 to 8 hexadecimal digits in lower case.
#[tactic(auto, unfolding(crate::specs::Words::is_data_word))]
fn is_data(word: &[u8]) -> bool
    ensures { result ≡ is_data_word word.now }
{
    1 <= word.len() && word.len() <= 8 && all_hex_digits(word)
}

/// The number that a word of 1 to 8 hexadecimal digits in lower case writes; leading zeros may stand.
#[tactic(auto, unfolding(crate::specs::Words::data_word_of, crate::specs::Words::is_data_word))]
pub fn data_word(word: &[u8]) -> Option<u32>
    ensures { result ≡ data_word_of word.now }
{
    if !is_data(word) {
        return None;
    }
    Some(hex_value(word))
}
