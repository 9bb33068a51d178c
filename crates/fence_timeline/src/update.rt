//! An update of a fence.

/// Who makes an update of a fence.
#[derive(Clone, Copy, Debug, PartialEq, Eq)]
pub enum Target {
    /// The host has made it.
    Host,
    /// The queue with that number makes it, when its timeline reaches that value.
    Gpu { queue: u32, value: u64 },
}

/// An update of a fence: the value that the fence takes, and who makes it.
#[derive(Clone, Copy, Debug, PartialEq, Eq)]
pub struct Update {
    pub value: u64,
    pub target: Target,
}
