//! Events that break nothing, whatever was made before them, and so can be taken later than they are fed.

use crate::kept::Kept;
use d3d_machine::Call;
use verdicts::Rule;

/// A call that accesses no words, or the completion of a queue's signal.
#[derive(Drop)]
pub(crate) enum LateEvent {
    Call { thread: u32, call: Call },
    Completion(u32),
}

/// Such an event that was fed and not taken yet, with what was fed before it.
#[derive(Drop)]
pub(crate) struct Late {
    pub what: LateEvent,
    pub before: Kept,
}

/// What becomes of an event: the first rule that it breaks is told, where it breaks one, or it is taken later.
#[derive(Drop)]
pub(crate) enum Taken {
    Told(Option<Rule>),
    Later(LateEvent),
}
