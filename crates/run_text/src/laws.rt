//! Laws of the lines of a run. The function does nothing.

ghost use Rattle.run_text.specs.StalledLines.{StalledLinesTellTheState};

/// The lines of a stalled run tell the machine's state after the history: a thread is unfinished exactly where it has
/// calls left or waits, and a queue is not empty exactly where a called operation is not complete.
#[tactic(auto, using(crate::proofs::StalledLines::stalled_lines_tell))]
pub fn stalled_lines_tell_the_state()
    ensures { StalledLinesTellTheState }
{}
