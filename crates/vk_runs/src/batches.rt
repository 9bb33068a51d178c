//! The batches that were submitted to the slow machine.

use crate::slow_machine::SlowMachine;
use crate::word_accesses::At;
use dx_base::{Memory, Seq};
use std::alloc::Global;
use vk_types::{Batch, VkCommand};

/// A batch that was submitted, and which of its commands are done.
#[derive(Drop)]
pub(crate) struct SlowBatch {
    pub queue: u32,
    pub number: u64,
    pub waits: Seq<(u32, u64)>,
    pub commands: Seq<(VkCommand, bool)>,
    pub sets: Seq<(u32, u64)>,
    pub passed: bool,
    pub finished: bool,
}

/// The commands of a batch, of which none is done.
fn undone(alloc: Global, commands: &[VkCommand]) -> Result<Seq<(VkCommand, bool)>, Memory> {
    let mut undone = Seq::new(alloc);
    for command in commands {
        undone.push((*command, false))?;
    }
    Ok(undone)
}

/// A submitted batch.
pub(crate) fn submitted(alloc: Global, batch: &Batch) -> Result<SlowBatch, Memory> {
    Ok(SlowBatch {
        queue: batch.queue,
        number: batch.number,
        waits: Seq::from_slice(alloc, batch.waits.as_slice())?,
        commands: undone(alloc, batch.commands.as_slice())?,
        sets: Seq::from_slice(alloc, batch.sets.as_slice())?,
        passed: false,
        finished: false,
    })
}

/// The batch of a queue with a number.
pub(crate) fn batch_in(batches: &[SlowBatch], queue: u32, number: u64) -> Option<&SlowBatch> {
    for batch in batches {
        if batch.queue == queue && batch.number == number {
            return Some(batch);
        }
    }
    None
}

/// The lesser of two numbers, where there is one already.
fn least_of(least: Option<u64>, number: u64) -> u64 {
    match least {
        None => number,
        Some(least) => least.min(number),
    }
}

impl SlowBatch {
    /// The command at a place, counted from 1, and whether it is done.
    fn command_at(&self, index: u64) -> Option<(VkCommand, bool)> {
        let mut place = 1u64;
        for command in self.commands.as_slice() {
            if place == index {
                return Some(*command);
            }
            place = place.saturating_add(1);
        }
        None
    }

    /// The command at a place is done.
    pub fn set_done(&mut self, index: u64) {
        let mut place = 1u64;
        for command in self.commands.as_mut_slice().iter_mut() {
            if place == index {
                command.1 = true;
            }
            place = place.saturating_add(1);
        }
    }

    /// Whether all its commands are done.
    pub fn is_done(&self) -> bool {
        for (_, done) in self.commands.as_slice() {
            if !*done {
                return false;
            }
        }
        true
    }
}

impl SlowMachine {
    /// The batch of a queue with a number.
    pub(crate) fn batch_of(&self, queue: u32, number: u64) -> Option<&SlowBatch> {
        batch_in(self.batches.as_slice(), queue, number)
    }

    /// The command at a place, and whether it is done.
    pub(crate) fn command_at(&self, at: At) -> Option<(VkCommand, bool)> {
        self.batch_of(at.queue, at.place.number)?
            .command_at(at.place.index)
    }

    /// The number of the least batch of a queue that has not passed.
    pub(crate) fn next_to_pass(&self, queue: u32) -> Option<u64> {
        let mut next = None;
        for batch in self.batches.as_slice() {
            if batch.queue == queue && !batch.passed {
                next = Some(least_of(next, batch.number));
            }
        }
        next
    }

    /// The number of the least batch of a queue that has not finished.
    pub(crate) fn next_to_finish(&self, queue: u32) -> Option<u64> {
        let mut next = None;
        for batch in self.batches.as_slice() {
            if batch.queue == queue && !batch.finished {
                next = Some(least_of(next, batch.number));
            }
        }
        next
    }

    /// The number that the next batch of a queue has to have.
    pub(crate) fn next_number(&self, queue: u32) -> u64 {
        let mut next = if queue == 0 { 0 } else { 1 };
        for batch in self.batches.as_slice() {
            if batch.queue == queue {
                next = batch.number.saturating_add(1);
            }
        }
        next
    }
}
