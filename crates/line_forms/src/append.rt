//! Appends to an output: words, numbers and the ends of lines.

ghost use Rattle.std.specs.Prelude.{◌≡◌, ◌<◌, ◌++◌, [], ◌∷◌, map, decimal, OnOk};
ghost use Rattle.std.specs.Char.{digit_char};
ghost use Rattle.line_forms.specs.Lines.{hex_word, flag_word, without_zeros, rest_of_line};

use dx_base::Memory;
use itoa::Buffer;

/// Appends bytes.
pub fn put(out: &mut Vec<u8>, bytes: &[u8]) -> Result<(), Memory>
    ensures { OnOk result (out.new.items ≡ out.old.items ++ bytes.now) }
{
    out.extend_from_slice(bytes)?;
    Ok(())
}

/// Appends a space and a word.
pub fn put_next(out: &mut Vec<u8>, word: &[u8]) -> Result<(), Memory>
    ensures { OnOk result (out.new.items ≡ out.old.items ++ 32 ∷ word.now) }
{
    put(out, b" ")?;
    put(out, word)
}

/// Appends a number in decimal.
pub fn put_decimal(out: &mut Vec<u8>, number: u64) -> Result<(), Memory>
    ensures { OnOk result (out.new.items ≡ out.old.items ++ decimal number) }
{
    let mut buffer = Buffer::new();
    put(out, buffer.format(number).as_bytes())
}

/// Appends a space and a number in decimal.
pub fn put_number(out: &mut Vec<u8>, number: u64) -> Result<(), Memory>
    ensures { OnOk result (out.new.items ≡ out.old.items ++ 32 ∷ decimal number) }
{
    put(out, b" ")?;
    put_decimal(out, number)
}

/// A hexadecimal digit, in lower case.
fn hex_digit(value: u32) -> u8
    requires { value < 16 }
    ensures { result ≡ digit_char value }
{
    if value < 10 {
        b'0' + value as u8
    } else {
        b'a' + (value as u8 - 10)
    }
}

/// The eight hexadecimal digits of a number.
#[tactic(auto, unfolding(crate::specs::Lines::hex_word, crate::specs::Lines::hex_from))]
fn hex_digits(number: u32) -> [u8; 8]
    ensures { result ≡ hex_word number }
{
    let seventh = number / 16;
    let sixth = seventh / 16;
    let fifth = sixth / 16;
    let fourth = fifth / 16;
    let third = fourth / 16;
    let second = third / 16;
    let first = second / 16;
    [
        hex_digit(first % 16),
        hex_digit(second % 16),
        hex_digit(third % 16),
        hex_digit(fourth % 16),
        hex_digit(fifth % 16),
        hex_digit(sixth % 16),
        hex_digit(seventh % 16),
        hex_digit(number % 16),
    ]
}

/// The digits without leading zeros, at least one.
#[tactic(auto, unfolding(crate::specs::Lines::without_zeros))]
fn without_zeros(digits: &[u8]) -> &[u8]
    ensures { result.now ≡ without_zeros digits.now }
{
    match digits {
        [] => digits,
        [first, rest @ ..] => {
            if *first == b'0' && !rest.is_empty() {
                without_zeros(rest)
            } else {
                digits
            }
        }
    }
}

/// Appends eight hexadecimal digits.
pub fn put_data_word(out: &mut Vec<u8>, number: u32) -> Result<(), Memory>
    ensures { OnOk result (out.new.items ≡ out.old.items ++ hex_word number) }
{
    put(out, &hex_digits(number))
}

/// Appends the hexadecimal digits of a number, without leading zeros.
#[tactic(auto, unfolding(crate::specs::Lines::flag_word))]
pub fn put_flag_word(out: &mut Vec<u8>, number: u32) -> Result<(), Memory>
    ensures { OnOk result (out.new.items ≡ out.old.items ++ flag_word number) }
{
    put(out, without_zeros(&hex_digits(number)))
}

/// Appends a space and eight hexadecimal digits.
pub fn put_hex(out: &mut Vec<u8>, number: u32) -> Result<(), Memory>
    ensures { OnOk result (out.new.items ≡ out.old.items ++ 32 ∷ hex_word number) }
{
    put_next(out, &hex_digits(number))
}

/// Ends a line.
pub fn end_line(out: &mut Vec<u8>) -> Result<(), Memory>
    ensures { OnOk result (out.new.items ≡ out.old.items ++ 10 ∷ []) }
{
    put(out, b"\n")
}

/// Ends a line with data words.
#[tactic(auto, unfolding(crate::specs::Lines::rest_of_line))]
pub fn end_with_words(out: &mut Vec<u8>, words: &[u32]) -> Result<(), Memory>
    ensures { OnOk result (out.new.items ≡ out.old.items ++ rest_of_line (map hex_word words.now)) }
{
    for word in words {
        put_hex(out, *word)?;
    }
    end_line(out)
}
