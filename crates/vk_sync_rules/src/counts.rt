//! How far the batches and commands of queues have come.

use crate::places::Place;

/// The numbers of the next batches of a queue: to be submitted, to pass its waits, and to end.
#[derive(Clone, Copy, Debug, PartialEq, Eq)]
pub struct Counts {
    pub submitted: u64,
    pub passed: u64,
    pub ended: u64,
}

/// A command that is done.
#[derive(Clone, Copy, Debug, PartialEq, Eq)]
pub struct Done {
    pub queue: u32,
    pub place: Place,
}
