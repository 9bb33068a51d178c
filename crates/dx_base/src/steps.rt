//! The steps of the system, and the record of a torn descriptor word.

/// A step: of a thread, of a queue's worker, or the device's step of that place among those it offers.
#[derive(Clone, Copy, Debug, PartialEq, Eq)]
pub enum Step {
    Thread(u32),
    Worker(u32),
    Device(u32),
}

/// A descriptor word that had another version than the one declared.
#[derive(Clone, Copy, Debug, PartialEq, Eq)]
pub struct Torn {
    pub heap: u32,
    pub slot: u32,
    pub declared: u32,
    pub found: u32,
}
