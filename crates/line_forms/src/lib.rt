//! Forms of lines: a form is a row of parts, and lines are read and printed by their rows.
#![tactic(auto)]

mod append;
mod cause;
mod choice;
mod form;
mod kind;
mod laws;
mod naming;
mod part;
mod printing;
mod reading;
mod sets;
mod values;
mod words;

pub use append::{end_line, end_with_words, put, put_hex, put_next, put_number};
pub use cause::Cause;
pub use choice::{Choice, Choices, Version};
pub use form::{Line, LineForm, first_byte, form_for};
pub use kind::Kind;
pub use laws::{
    what_is_printed_is_read, what_is_read_is_read_again, what_is_read_is_what_the_words_say,
};
pub use naming::{Named, Naming};
pub use part::{Part, PartValue, Rest};
pub use printing::put_line;
pub use reading::{read_line, two};
pub use sets::SetOf;
pub use values::{
    all_or_at, all_or_number_at, choice_at, id_at, name_at, number_at, set_at, word_at,
};
