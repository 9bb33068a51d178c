//! The output of runs: how a run ends, what came of it, its history, and the text of all.
#![tactic(auto)]

mod history;
mod laws;
mod left;
mod names;
mod outcome;
mod status;
mod text;

pub use history::print_history;
pub use laws::stalled_lines_tell_the_state;
pub use names::{Ending, Names};
pub use outcome::{Outcome, output, refused_of};
pub use status::{Report, Status};
pub use text::{plain_line, put_output};
pub use verdicts::{Rule, Verdict};
