//! The whole of a program that checks a journal: it reads the journal, checks its steps, and writes what they are.
#![tactic(auto)]

mod answer;
mod fault;
mod runner;
mod text;

pub use answer::exit_code;
pub use fault::ToolFault;
pub use journal_text::only_the_first_bytes_count;
pub use runner::{journal_main, refuse_memory};
