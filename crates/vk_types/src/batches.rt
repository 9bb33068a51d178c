//! The batches that bring commands to a queue.

ghost use Rattle.std.specs.Prelude.{◌≡◌, IfOk};

use crate::commands::VkCommand;
use dx_base::{Memory, Seq};
use std::alloc::Global;

/// What is submitted to a queue as one (VkSubmitInfo2). A wait and a set are a timeline and a value.
#[derive(Debug, PartialEq, Eq, Drop)]
pub struct Batch {
    pub queue: u32,
    /// One more than that of the queue's batch before it; the first is 0 on queue 0, and 1 on another.
    pub number: u64,
    pub waits: Seq<(u32, u64)>,
    pub commands: Seq<VkCommand>,
    pub sets: Seq<(u32, u64)>,
}

impl Batch {
    /// A copy of the batch.
    pub fn copied(&self, alloc: Global) -> Result<Batch, Memory>
        ensures { IfOk result (λ copy. copy ≡ self.now) }
    {
        Ok(Batch {
            queue: self.queue,
            number: self.number,
            waits: Seq::from_slice(alloc, self.waits.as_slice())?,
            commands: Seq::from_slice(alloc, self.commands.as_slice())?,
            sets: Seq::from_slice(alloc, self.sets.as_slice())?,
        })
    }
}
