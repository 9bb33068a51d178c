//! The steps that the Vulkan machine is told of.

use crate::batches::Batch;
use dx_base::Seq;

/// A step of the Vulkan machine. A buffer and a heap are named by their place in the plan, and a `first`
/// is in words of 32 bits.
#[derive(Debug, PartialEq, Eq, Drop)]
pub enum VkStep {
    /// A batch was submitted.
    Submit(Batch),
    /// The batch's waits were over.
    Pass {
        queue: u32,
        number: u64,
    },
    /// One command of the batch ran; its place among them is counted from 1.
    Command {
        queue: u32,
        number: u64,
        place: u64,
        /// What the slots that it loads gave, in the order of the loads.
        loaded: Seq<u32>,
    },
    /// The batch ended, and set its timelines.
    Bump {
        queue: u32,
        number: u64,
    },
    /// The host wrote words.
    HostWrite {
        buffer: u32,
        first: u32,
        words: Seq<u32>,
    },
    /// The host read these words.
    HostRead {
        buffer: u32,
        first: u32,
        words: Seq<u32>,
    },
    /// A slot of a heap was written.
    Update {
        heap: u32,
        slot: u32,
    },
}
