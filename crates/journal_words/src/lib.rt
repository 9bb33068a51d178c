//! The words of a journal's lines: what they mean, one after the other, and how they are printed.
#![tactic(auto)]

mod each;
mod fields;
mod form;
mod line_words;
mod printed_words;
mod registers;
mod sets;
mod tables;
#[cfg(test)]
mod tests;
mod words;

pub use form::{Form, LineClass, form_of};
pub use line_words::LineWords;
pub use printed_words::{end_with_both, end_with_numbers, put_count, put_register, put_sub};
pub use sets::{put_accesses, put_stages};
pub use tables::{class_word, home_word, layout_word, routine_word};
