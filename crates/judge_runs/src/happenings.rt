//! What happens at the events of a history.

use crate::words::Stretch;
use dx_flags::{Kind, Part};
use enhanced_barriers::Barrier;

/// A part of a command: one of its accesses, or its barrier.
#[derive(Clone, Copy)]
pub enum What {
    Reads(Part, Kind, Stretch),
    Writes(Part, Kind, Stretch),
    Bars(Barrier),
}

/// A part of a command, with the command's place in its execute.
#[derive(Clone, Copy)]
pub struct Piece {
    pub place: u32,
    pub what: What,
}

/// What a call gives a queue to do. The commands of an execute are told by their parts, in order.
#[derive(Drop)]
pub enum Work {
    Executes(Vec<Piece>),
    Signals(u32, u64),
    Waits(u32, u64),
}

/// What a call of a thread does, where it is not refused.
#[derive(Drop)]
pub enum Deed {
    /// It gives a queue work.
    Gives(u32, Work),
    /// It sets a fence's value at once.
    Sets(u32, u64),
    /// It waits until a fence has a value.
    WaitsFor(u32, u64),
    /// It reads a fence's value.
    Asks(u32),
    /// It writes words of a buffer.
    Stores(Stretch),
    /// It reads words of a buffer.
    Loads(Stretch),
    Nothing,
}

/// A call of a thread, its waking, or the completion of a queue's oldest work.
#[derive(Drop)]
pub enum Happening {
    Calls(u32, Deed),
    Wakes(u32),
    Completes(u32),
}
