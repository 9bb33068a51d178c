//! The words of a journal's lines, printed.

ghost use Rattle.std.specs.Prelude.{◌≡◌, ◌<◌, ◌++◌, ◌∷◌, codes, decimal, map, OnOk};
ghost use Rattle.std.specs.Char.{digit_char};
ghost use Rattle.line_forms.specs.Lines.{hex_word, rest_of_line};
ghost use Rattle.journal_words.specs.PrintedWords.{count_word, pair_word, register_word, sub_word};

use dx_base::Memory;
use itoa::Buffer;
use line_forms::{end_line, put, put_number};
use vk_types::{Count, Register};

/// Appends a number in decimal.
fn put_decimal(out: &mut Vec<u8>, number: u64) -> Result<(), Memory>
    ensures { OnOk result (out.new.items ≡ out.old.items ++ decimal number) }
{
    let mut buffer = Buffer::new();
    put(out, buffer.format(number).as_bytes())
}

/// A hexadecimal digit, in lower case.
fn hex_digit(value: u32) -> u8
    requires { value < 16 }
    ensures { result ≡ digit_char value }
{
    if value < 10 {
        b'0' + value as u8
    } else {
        b'a' + (value as u8 - 10)
    }
}

/// Appends eight hexadecimal digits.
#[tactic(auto, unfolding(line_forms::specs::Lines::hex_word, line_forms::specs::Lines::hex_from))]
fn put_data(out: &mut Vec<u8>, number: u32) -> Result<(), Memory>
    ensures { OnOk result (out.new.items ≡ out.old.items ++ hex_word number) }
{
    let seventh = number / 16;
    let sixth = seventh / 16;
    let fifth = sixth / 16;
    let fourth = fifth / 16;
    let third = fourth / 16;
    let second = third / 16;
    let first = second / 16;
    put(
        out,
        &[
            hex_digit(first % 16),
            hex_digit(second % 16),
            hex_digit(third % 16),
            hex_digit(fourth % 16),
            hex_digit(fifth % 16),
            hex_digit(sixth % 16),
            hex_digit(seventh % 16),
            hex_digit(number % 16),
        ],
    )
}

/// Appends two numbers with a colon between.
fn put_pair(out: &mut Vec<u8>, one: u64, other: u64) -> Result<(), Memory>
    ensures { OnOk result (out.new.items ≡ out.old.items ++ pair_word (one, other)) }
{
    put_decimal(out, one)?;
    put(out, b":")?;
    put_decimal(out, other)
}

/// Appends a register.
fn put_register_word(out: &mut Vec<u8>, register: Register) -> Result<(), Memory>
    ensures { OnOk result (out.new.items ≡ out.old.items ++ register_word register) }
{
    match register {
        Register::Unbound => put(out, b"-"),
        Register::Constant(word) => {
            put(out, b"c:")?;
            put_data(out, word)
        }
        Register::Root { buffer, first } => {
            put(out, b"b:")?;
            put_pair(out, buffer as u64, first as u64)
        }
        Register::Fixed(view) => {
            put(out, b"v:")?;
            put_decimal(out, view as u64)
        }
        Register::Slot { heap, slot } => {
            put(out, b"s:")?;
            put_pair(out, heap as u64, slot as u64)
        }
    }
}

/// Appends a space and a register.
pub fn put_register(out: &mut Vec<u8>, register: Register) -> Result<(), Memory>
    ensures { OnOk result (out.new.items ≡ out.old.items ++ 32 ∷ register_word register) }
{
    put(out, b" ")?;
    put_register_word(out, register)
}

/// Appends a count.
fn put_count_word(out: &mut Vec<u8>, count: Count) -> Result<(), Memory>
    ensures { OnOk result (out.new.items ≡ out.old.items ++ count_word count) }
{
    match count {
        Count::Number(number) => put_decimal(out, number as u64),
        Count::Word { buffer, word, most } => {
            put(out, b"b:")?;
            put_decimal(out, buffer as u64)?;
            put(out, b":")?;
            put_pair(out, word as u64, most as u64)
        }
    }
}

/// Appends a space and a count.
pub fn put_count(out: &mut Vec<u8>, count: Count) -> Result<(), Memory>
    ensures { OnOk result (out.new.items ≡ out.old.items ++ 32 ∷ count_word count) }
{
    put(out, b" ")?;
    put_count_word(out, count)
}

/// Appends a space and a subresource, or `all`.
pub fn put_sub(out: &mut Vec<u8>, sub: Option<u32>) -> Result<(), Memory>
    ensures { OnOk result (out.new.items ≡ out.old.items ++ 32 ∷ sub_word sub) }
{
    match sub {
        None => put(out, b" all"),
        Some(sub) => put_number(out, sub as u64),
    }
}

/// Appends a space, and two numbers with a colon between.
fn put_next_pair(out: &mut Vec<u8>, pair: (u32, u64)) -> Result<(), Memory>
    ensures { OnOk result (out.new.items ≡ out.old.items ++ 32 ∷ pair_word pair) }
{
    put(out, b" ")?;
    put_pair(out, pair.0 as u64, pair.1)
}

/// Ends a line with pairs.
#[tactic(auto, unfolding(line_forms::specs::Lines::rest_of_line))]
fn end_with_pairs(out: &mut Vec<u8>, pairs: &[(u32, u64)]) -> Result<(), Memory>
    ensures { OnOk result (out.new.items ≡ out.old.items ++ rest_of_line (map pair_word pairs.now)) }
{
    for pair in pairs {
        put_next_pair(out, *pair)?;
    }
    end_line(out)
}

/// Ends a line with pairs, the word `sets`, and pairs.
#[tactic(auto, unfolding(line_forms::specs::Lines::rest_of_line))]
pub fn end_with_both(
    out: &mut Vec<u8>,
    waits: &[(u32, u64)],
    sets: &[(u32, u64)],
) -> Result<(), Memory>
    ensures { OnOk result (out.new.items ≡ out.old.items ++ rest_of_line (map pair_word waits.now ++ codes "sets" ∷ map pair_word sets.now)) }
{
    for pair in waits {
        put_next_pair(out, *pair)?;
    }
    put(out, b" sets")?;
    end_with_pairs(out, sets)
}

/// Ends a line with numbers.
#[tactic(auto, unfolding(line_forms::specs::Lines::rest_of_line))]
pub fn end_with_numbers(out: &mut Vec<u8>, numbers: &[u32]) -> Result<(), Memory>
    ensures { OnOk result (out.new.items ≡ out.old.items ++ rest_of_line (map decimal numbers.now)) }
{
    for number in numbers {
        put_number(out, *number as u64)?;
    }
    end_line(out)
}
