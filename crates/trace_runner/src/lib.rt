//! The whole of a program's run: it reads a trace, runs it by choices, and writes the output.
#![tactic(auto)]

mod laws;
mod log;
mod runner;
mod steps;
#[cfg(test)]
mod tests;
mod words;

pub use laws::{
    runs_of_rounds_are_calm, runs_of_rounds_go_on, texts_of_rounds_are_read,
    traces_of_rounds_have_their_worlds,
};
pub use runner::simulate;
pub use words::{Words, read_words};
