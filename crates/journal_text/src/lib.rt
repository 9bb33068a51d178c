//! Journals as text: the objects of a device and the steps that it took, as lines that are read and printed.
#![tactic(auto)]

mod command_lines;
mod fault;
mod item;
mod laws;
mod names;
mod plan_lines;
mod printer;
mod reading;
mod step_lines;
mod texts;

pub use fault::JournalFault;
pub use laws::{a_printed_journal_reads_as_it_was, only_the_first_bytes_count};
pub use line_forms::Cause;
pub use printer::print_steps;
pub use texts::{JOURNAL_BYTES, read_steps};
