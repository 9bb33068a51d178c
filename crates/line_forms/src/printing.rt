//! The words of a line, printed.

ghost use Rattle.std.specs.Prelude.{◌≡◌, ◌++◌, ◌∷◌, map, OnOk};
ghost use Rattle.line_forms.specs.Lines.{rest_of_line};
ghost use Rattle.line_forms.specs.Parts.{place_of};
ghost use Rattle.line_forms.specs.Printing.{part_text, part_texts, rest_texts, spaced, joined, text_of};

use crate::append::{
    end_line, end_with_words, put, put_data_word, put_decimal, put_flag_word, put_next,
};
use crate::form::LineForm;
use crate::kind::Kind;
use crate::naming::Named;
use crate::part::{Part, PartValue, Rest};
use crate::words::all_word;
use dx_base::Memory;

/// Appends the word of what a part means.
fn put_part<N: Named>(
    out: &mut Vec<u8>,
    names: &N,
    part: Part,
    value: &PartValue,
) -> Result<(), Memory>
    ensures { OnOk result (out.new.items ≡ out.old.items ++ part_text (N.known names.now) (place_of part) value.now) }
{
    match part {
        Part::Word(text) => put(out, text.as_bytes()),
        Part::Name(kind) => put(out, names.name(kind, value.id())),
        Part::NewName => put(out, value.name().as_bytes()),
        Part::Number => put_decimal(out, value.number()),
        Part::DataWord => put_data_word(out, value.word()),
        Part::FlagWord => put_flag_word(out, value.word()),
        Part::Set(set) => set.put(out, value.set()),
        Part::Choice(_) => put(out, value.choice().text().as_bytes()),
        Part::AllOr(kind) => match value.all_or() {
            None => put(out, all_word().as_bytes()),
            Some(number) => put(out, names.name(kind, number)),
        },
        Part::AllOrNumber => match value.all_or_number() {
            None => put(out, all_word().as_bytes()),
            Some(number) => put_decimal(out, number),
        },
    }
}

/// Appends the words of what parts mean, each behind a space.
#[tactic(auto, unfolding(crate::specs::Printing::part_texts, crate::specs::Printing::spaced))]
fn put_parts<N: Named>(
    out: &mut Vec<u8>,
    names: &N,
    parts: &[Part],
    values: &[PartValue],
) -> Result<(), Memory>
    ensures { OnOk result (out.new.items
        ≡ out.old.items ++ spaced (part_texts (N.known names.now) (map place_of parts.now) values.now)) }
{
    match parts {
        [] => Ok(()),
        [part, parts @ ..] => match values {
            [] => Ok(()),
            [value, values @ ..] => {
                put(out, b" ")?;
                put_part(out, names, *part, value)?;
                put_parts(out, names, parts, values)
            }
        },
    }
}

/// Appends the words of what parts mean, with spaces between.
#[tactic(auto, unfolding(crate::specs::Printing::part_texts, crate::specs::Printing::joined))]
fn put_first_parts<N: Named>(
    out: &mut Vec<u8>,
    names: &N,
    parts: &[Part],
    values: &[PartValue],
) -> Result<(), Memory>
    ensures { OnOk result (out.new.items
        ≡ out.old.items ++ joined (part_texts (N.known names.now) (map place_of parts.now) values.now)) }
{
    match parts {
        [] => Ok(()),
        [part, parts @ ..] => match values {
            [] => Ok(()),
            [value, values @ ..] => {
                put_part(out, names, *part, value)?;
                put_parts(out, names, parts, values)
            }
        },
    }
}

/// Ends a line with names.
#[tactic(auto, unfolding(crate::specs::Lines::rest_of_line))]
fn end_with_names<N: Named>(
    out: &mut Vec<u8>,
    names: &N,
    kind: Kind,
    numbers: &[u32],
) -> Result<(), Memory>
    ensures { OnOk result (out.new.items
        ≡ out.old.items ++ rest_of_line (map (N.known names.now kind) numbers.now)) }
{
    for number in numbers {
        put_next(out, names.name(kind, *number))?;
    }
    end_line(out)
}

/// Ends a line with what stands behind its parts.
#[tactic(auto, unfolding(crate::specs::Printing::rest_texts, crate::specs::Lines::rest_of_line))]
fn end_with_rest<N: Named>(
    out: &mut Vec<u8>,
    names: &N,
    rest: Rest,
    values: &[u32],
) -> Result<(), Memory>
    ensures { OnOk result (out.new.items
        ≡ out.old.items ++ rest_of_line (rest_texts (N.known names.now) rest values.now)) }
{
    match rest {
        Rest::Nothing => end_line(out),
        Rest::Names(kind) => end_with_names(out, names, kind, values),
        Rest::Words => end_with_words(out, values),
    }
}

/// Appends a line by the values of its parts and what stands behind them.
#[tactic(auto, unfolding(crate::specs::Printing::text_of))]
pub fn put_line<F: LineForm, N: Named>(
    out: &mut Vec<u8>,
    names: &N,
    form: F,
    values: &[PartValue],
    rest: &[u32],
) -> Result<(), Memory>
    ensures { OnOk result (out.new.items
        ≡ out.old.items ++ text_of (N.known names.now) (F.shape form) (record { values = values.now; rest = rest.now })) }
{
    put_first_parts(out, names, form.parts(), values)?;
    end_with_rest(out, names, form.rest(), rest)
}
