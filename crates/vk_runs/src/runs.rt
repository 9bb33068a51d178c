//! What commands do.

use crate::barrier_rules::{Barrier, barrier_of};
use crate::parts::{Part, stage_of};
use crate::registers::{Answer, answers_of};
use crate::slow_machine::SlowMachine;
use crate::word_accesses::{At, Side, WordAccess};
use crate::words::Word;
use dx_base::Memory;
use vk_sync_rules::{Place, VkResource};
use vk_types::{Change, Stage, VkCommand, VkLayout};

/// Who makes an access: a command at a place, in a stage.
#[derive(Clone, Copy)]
pub(crate) struct Maker {
    pub at: At,
    pub stage: Stage,
}

impl SlowMachine {
    /// The accesses of some parts are done.
    fn push_parts_by(&mut self, parts: &[Part], maker: Maker) -> Result<(), Memory> {
        for part in parts {
            self.push_part(part, Some(maker))?;
        }
        Ok(())
    }

    /// Does a command with these parts; past an end it leaves any number in what it writes.
    fn run_parts(
        &mut self,
        at: At,
        command: VkCommand,
        parts: &[Part],
        answers: &[Answer],
    ) -> Result<(), Memory> {
        if self.some_pass_end(parts) {
            self.open_all(parts);
            return Ok(());
        }
        let stage = stage_of(command);
        self.take_effect(at, command, parts, answers)?;
        self.push_parts_by(parts, Maker { at, stage })
    }

    /// Does a command with these answers of slots.
    fn run_answers(
        &mut self,
        at: At,
        command: VkCommand,
        answers: &[Answer],
    ) -> Result<(), Memory> {
        let parts = self.parts_of(command, answers)?;
        let done = self.run_parts(at, command, parts.as_slice(), answers);
        drop(parts);
        done
    }

    /// Does a command that is no barrier.
    fn run_command(&mut self, at: At, command: VkCommand, loaded: &[u32]) -> Result<(), Memory> {
        let answers = answers_of(self.alloc, command, loaded)?;
        let done = self.run_answers(at, command, answers.as_slice());
        drop(answers);
        done
    }

    /// The access of a layout change to a word: it is available, and reaches the barrier's second scope.
    fn push_change(&mut self, at: At, to: Side, word: Word) -> Result<(), Memory> {
        let mut access = WordAccess::new(self.alloc, word, true);
        access.maker = Some(at);
        access.available = true;
        access.extend(at, to)?;
        self.accesses.push(access)
    }

    /// Changes the layout of a subresource; from UNDEFINED it leaves any numbers.
    fn change_sub(
        &mut self,
        at: At,
        to: Side,
        change: Change,
        sub: VkResource,
    ) -> Result<(), Memory> {
        self.set_layout(sub, change.new);
        for place in 0..self.size_of(sub).unwrap_or(0) {
            let word = Word {
                resource: sub,
                at: place,
            };
            if change.old == VkLayout::Undefined {
                self.set_number(word, None);
            }
            self.push_change(at, to, word)?;
        }
        Ok(())
    }

    /// Changes the layout of some subresources, if they all are there.
    fn change_subs(&mut self, at: At, barrier: Barrier, subs: &[VkResource]) -> Result<(), Memory> {
        let Some(change) = barrier.change else {
            return Ok(());
        };
        if self.some_missing(subs) {
            return Ok(());
        }
        for sub in subs {
            self.change_sub(at, barrier.to, change, *sub)?;
        }
        Ok(())
    }

    /// What was done meets a barrier, which then changes layouts.
    fn run_barrier(&mut self, at: At, barrier: Barrier) -> Result<(), Memory> {
        for access in self.accesses.as_mut_slice().iter_mut() {
            access.cross(at, barrier.from, barrier.to)?;
        }
        let subs = self.changed_by(barrier)?;
        let done = self.change_subs(at, barrier, subs.as_slice());
        drop(subs);
        done
    }

    /// The command at a place is done.
    fn set_done(&mut self, at: At) {
        for batch in self.batches.as_mut_slice().iter_mut() {
            if batch.queue == at.queue && batch.number == at.place.number {
                batch.set_done(at.place.index);
            }
        }
    }

    /// Does the command at a place, if there is one.
    pub(crate) fn run(
        &mut self,
        queue: u32,
        number: u64,
        index: u64,
        loaded: &[u32],
    ) -> Result<(), Memory> {
        let at = At {
            queue,
            place: Place { number, index },
        };
        let Some((command, _)) = self.command_at(at) else {
            return Ok(());
        };
        match barrier_of(command) {
            Some(barrier) => self.run_barrier(at, barrier)?,
            None => self.run_command(at, command, loaded)?,
        }
        self.set_done(at);
        Ok(())
    }
}
