//! The steps that a device takes by itself.

/// A step that was taken. A queue comes first, then the number of its batch.
#[derive(Clone, Copy, Debug, PartialEq, Eq)]
pub enum Stepped {
    /// The batch's waits were over.
    Passed(u32, u64),
    /// One command of the batch ran; its place among them is counted from 1.
    Ran(u32, u64, u64),
    /// The batch ended, and set its timelines.
    Bumped(u32, u64),
    /// Nothing that the Vulkan machine sees.
    Free,
}
