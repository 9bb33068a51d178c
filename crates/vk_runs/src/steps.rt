//! The steps of the slow machine: which can be taken, and which rule each breaks.

use crate::access_names::{STAGES, names_stage};
use crate::barrier_rules::barrier_of;
use crate::batches::SlowBatch;
use crate::host_rules::host_part;
use crate::parts::stage_of;
use crate::registers::{answers_of, slot_count};
use crate::slow_machine::SlowMachine;
use crate::word_accesses::At;
use dx_base::Memory;
use vk_sync_rules::{Place, VkRule};
use vk_types::{Stage, VkCommand, VkStep};

/// Whether a command gives a stage to those behind it: a barrier its second scope.
fn gives(command: VkCommand, stage: Stage) -> bool {
    match barrier_of(command) {
        Some(barrier) => names_stage(barrier.to.stages, stage),
        None => stage_of(command) == stage,
    }
}

/// Whether a command takes a stage from those before it: a barrier its first scope.
fn takes(command: VkCommand, stage: Stage) -> bool {
    match barrier_of(command) {
        Some(barrier) => names_stage(barrier.from.stages, stage),
        None => stage_of(command) == stage,
    }
}

/// Whether a command has to be done before a later one: one of the two is a barrier.
fn has_to_come_before(first: VkCommand, later: VkCommand) -> bool {
    if barrier_of(first).is_none() && barrier_of(later).is_none() {
        return false;
    }
    for stage in STAGES {
        if gives(first, stage) && takes(later, stage) {
            return true;
        }
    }
    false
}

/// A place of a queue.
fn at_place(queue: u32, number: u64, index: u64) -> At {
    At {
        queue,
        place: Place { number, index },
    }
}

impl SlowBatch {
    /// Whether it has an undone command before a place that has to come before a command.
    fn holds(&self, at: At, command: VkCommand) -> bool {
        let mut index = 1u64;
        for (earlier, done) in self.commands.as_slice() {
            if !*done
                && at_place(self.queue, self.number, index).is_before(at)
                && has_to_come_before(*earlier, command)
            {
                return true;
            }
            index = index.saturating_add(1);
        }
        false
    }
}

impl SlowMachine {
    /// Whether each of some values is reached.
    fn are_reached(&self, waits: &[(u32, u64)]) -> bool {
        for (timeline, value) in waits {
            if self.value_of(*timeline) < *value {
                return false;
            }
        }
        true
    }

    /// Whether the next batch of a queue has that number, and each of its waits has its value reached.
    fn can_pass(&self, queue: u32, number: u64) -> bool {
        match self.batch_of(queue, number) {
            None => false,
            Some(batch) => {
                self.next_to_pass(queue) == Some(number) && self.are_reached(batch.waits.as_slice())
            }
        }
    }

    /// Whether the least unfinished batch of a queue has that number, has passed, and all its commands are done.
    fn can_finish(&self, queue: u32, number: u64) -> bool {
        match self.batch_of(queue, number) {
            None => false,
            Some(batch) => {
                self.next_to_finish(queue) == Some(number) && batch.passed && batch.is_done()
            }
        }
    }

    /// Whether all that has to come before a command is done.
    fn is_free(&self, at: At, command: VkCommand) -> bool {
        for batch in self.batches.as_slice() {
            if batch.queue == at.queue && batch.holds(at, command) {
                return false;
            }
        }
        true
    }

    /// Whether the batch of a place has passed.
    fn is_passed(&self, at: At) -> bool {
        match self.batch_of(at.queue, at.place.number) {
            None => false,
            Some(batch) => batch.passed,
        }
    }

    /// Whether a command of a passed batch can be done, with so many answers of slots.
    fn can_run(&self, at: At, answers: usize) -> Result<bool, Memory> {
        let Some((command, done)) = self.command_at(at) else {
            return Ok(false);
        };
        let wants = slot_count(self.alloc, command)?;
        Ok(!done && self.is_passed(at) && self.is_free(at, command) && wants == answers)
    }

    /// Whether a step can be taken.
    pub fn can(&self, step: &VkStep) -> Result<bool, Memory> {
        match step {
            VkStep::Pass { queue, number } => Ok(self.can_pass(*queue, *number)),
            VkStep::Bump { queue, number } => Ok(self.can_finish(*queue, *number)),
            VkStep::Command {
                queue,
                number,
                place,
                loaded,
            } => self.can_run(at_place(*queue, *number, *place), loaded.len()),
            VkStep::Submit(_)
            | VkStep::HostWrite { .. }
            | VkStep::HostRead { .. }
            | VkStep::Update { .. } => Ok(true),
        }
    }

    /// The least rule that a command breaks, with these answers of slots.
    fn rule_of_command(
        &self,
        at: At,
        command: VkCommand,
        loaded: &[u32],
    ) -> Result<Option<VkRule>, Memory> {
        if let Some(barrier) = barrier_of(command) {
            return self.rule_of_barrier(at, barrier);
        }
        let answers = answers_of(self.alloc, command, loaded)?;
        let parts = self.parts_of(command, answers.as_slice());
        drop(answers);
        let parts = parts?;
        let rule = self.rule_of_parts(at, command, parts.as_slice());
        drop(parts);
        Ok(rule)
    }

    /// The least rule that the command at a place breaks.
    fn rule_of_run(&self, at: At, loaded: &[u32]) -> Result<Option<VkRule>, Memory> {
        match self.command_at(at) {
            None => Ok(None),
            Some((command, _)) => self.rule_of_command(at, command, loaded),
        }
    }

    /// The least rule that a step breaks, if it breaks one.
    pub fn rule_of(&self, step: &VkStep) -> Result<Option<VkRule>, Memory> {
        match step {
            VkStep::Submit(batch) => Ok(self.rule_of_submission(batch)),
            VkStep::Pass { .. } | VkStep::Bump { .. } => Ok(None),
            VkStep::Command {
                queue,
                number,
                place,
                loaded,
            } => self.rule_of_run(at_place(*queue, *number, *place), loaded.as_slice()),
            VkStep::HostWrite {
                buffer,
                first,
                words,
            } => Ok(self.rule_of_host(&host_part(*buffer, *first, words.len(), true))),
            VkStep::HostRead {
                buffer,
                first,
                words,
            } => Ok(self.rule_of_host(&host_part(*buffer, *first, words.len(), false))),
            VkStep::Update { heap, slot } => Ok(self.rule_of_update(*heap, *slot)),
        }
    }
}
