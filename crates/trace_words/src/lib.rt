//! The words of a text: how lines and words are cut, which words are names, numbers and data words, and the tables
//! of words.
#![tactic(auto)]

mod data;
mod line;
mod name;
mod number;
mod rows;
mod word;

pub use data::data_word;
pub use line::{cut, is_plain, words_of_line};
pub use name::Name;
pub use number::{is_number, number_value};
pub use rows::{first_row, is_among};
pub use word::{is_name, is_word};
