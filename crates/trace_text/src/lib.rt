//! Traces: the reader and the printer of their text, and their world.
#![tactic(auto)]

mod declarations;
mod laws;
mod line_fault;
mod name_table;
mod printer;
mod read;
mod reading;
mod scripts;
mod texts;
mod trace;
mod trace_fault;
mod world_of;

pub use laws::{
    a_printed_trace_reads_as_it_was, a_trace_says_a_sound_value,
    each_sound_value_is_read_of_its_text, only_the_first_bytes_count, spellings_play_no_part,
    what_is_read_is_the_grammar,
};
pub use line_forms::Cause;
pub use printer::print_trace;
pub use read::read_trace;
pub use trace::Trace;
pub use trace_fault::TraceFault;
pub use world_of::world;
