//! Numbers in decimal.

ghost use Rattle.std.specs.Prelude.{◌≡◌, ◌<◌, ◌^◌, nat_lt, true, Some, None, if◌then◌else◌};
ghost use Rattle.std.specs.Char.{is_ascii_digit, digit_value};
ghost use Rattle.std.specs.List.{list_all};
ghost use Rattle.std.specs.Str.Parse.{digits_value};
ghost use Rattle.trace_words.specs.Words.{is_number};

/// Each byte is a decimal digit.
fn all_digits(word: &[u8]) -> bool
    ensures { result ≡ list_all is_ascii_digit word.now }
{
    word.iter().all(|b| b.is_ascii_digit())
}

/// The word is one or more decimal digits, without a leading zero.
#[tactic(auto, unfolding(crate::specs::Words::is_number))]
pub fn is_number(word: &[u8]) -> bool
    ensures { result ≡ is_number word.now }
{
    match word {
        [] => false,
        [digit] => digit.is_ascii_digit(),
        [first, _, ..] => *first != b'0' && all_digits(word),
    }
}

/// The value of one decimal digit.
fn decimal_digit(b: u8) -> u8
    requires { is_ascii_digit b ≡ true }
    ensures value { result ≡ digit_value b }
    ensures small { result < 10 }
{
    b - b'0'
}

/// The value of decimal digits, where it is below 2^64.
fn decimal_value(digits: &[u8]) -> Option<u64>
    requires { list_all is_ascii_digit digits.now ≡ true }
    ensures { result ≡ (if nat_lt (digits_value 10 digits.now) (2 ^ 64) then Some (digits_value 10 digits.now) else None) }
{
    let mut value: u64 = 0;
    for b in digits {
        value = value
            .checked_mul(10)?
            .checked_add(u64::from(decimal_digit(*b)))?;
    }
    Some(value)
}

/// The value of a number, where it is below 2^64.
#[tactic(auto, using(crate::proofs::Digits::number_digits))]
pub fn number_value(word: &[u8]) -> Option<u64>
    requires { is_number word.now ≡ true }
    ensures { result ≡ (if nat_lt (digits_value 10 word.now) (2 ^ 64) then Some (digits_value 10 word.now) else None) }
{
    decimal_value(word)
}
