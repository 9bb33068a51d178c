//! What submissions, passes, ends and host accesses do.

use crate::batches::{batch_in, submitted};
use crate::host_rules::host_part;
use crate::parts::Part;
use crate::runs::Maker;
use crate::slow_machine::SlowMachine;
use crate::word_accesses::{WordAccess, start_of};
use dx_base::Memory;
use vk_sync_rules::VkRule;
use vk_types::{Batch, VkStep};

/// Sets the value of a timeline.
fn set_value(timelines: &mut [u64], timeline: u32, value: u64) {
    let mut at = 0u32;
    for one in timelines.iter_mut() {
        if at == timeline {
            *one = value;
        }
        at = at.saturating_add(1);
    }
}

impl SlowMachine {
    /// Submits a batch.
    fn submit(&mut self, batch: &Batch) -> Result<(), Memory> {
        let start = start_of(batch.queue, batch.number);
        for access in self.accesses.as_mut_slice().iter_mut() {
            access.submit(start)?;
        }
        self.batches.push(submitted(self.alloc, batch)?)
    }

    /// Whether some batch has passed and not finished.
    fn is_busy(&self) -> bool {
        for batch in self.batches.as_slice() {
            if batch.passed && !batch.finished {
                return true;
            }
        }
        false
    }

    /// Passes a batch.
    fn pass(&mut self, queue: u32, number: u64) -> Result<(), Memory> {
        self.serial = self.serial && !self.is_busy();
        if let Some(batch) = batch_in(self.batches.as_slice(), queue, number) {
            for access in self.accesses.as_mut_slice().iter_mut() {
                access.pass(start_of(queue, number), batch.waits.as_slice())?;
            }
        }
        for batch in self.batches.as_mut_slice().iter_mut() {
            if batch.queue == queue && batch.number == number {
                batch.passed = true;
            }
        }
        Ok(())
    }

    /// Finishes a batch.
    fn finish(&mut self, queue: u32, number: u64) -> Result<(), Memory> {
        if let Some(batch) = batch_in(self.batches.as_slice(), queue, number) {
            for access in self.accesses.as_mut_slice().iter_mut() {
                access.finish(queue, number, batch.sets.as_slice())?;
            }
        }
        self.set_values(queue, number);
        for batch in self.batches.as_mut_slice().iter_mut() {
            if batch.queue == queue && batch.number == number {
                batch.finished = true;
            }
        }
        Ok(())
    }

    /// The sets of a batch are done.
    fn set_values(&mut self, queue: u32, number: u64) {
        if let Some(batch) = batch_in(self.batches.as_slice(), queue, number) {
            for (timeline, value) in batch.sets.as_slice() {
                set_value(self.timelines.as_mut_slice(), *timeline, *value);
            }
        }
    }

    /// The accesses of a part are done, by a maker or by the host.
    pub(crate) fn push_part(&mut self, part: &Part, maker: Option<Maker>) -> Result<(), Memory> {
        for place in 0..part.columns.count {
            let mut access = WordAccess::new(self.alloc, part.word(place), part.writes);
            match maker {
                None => access.available = part.writes,
                Some(maker) => {
                    access.access = Some(part.access);
                    access.maker = Some(maker.at);
                    access.stage = Some(maker.stage);
                }
            }
            self.accesses.push(access)?;
        }
        Ok(())
    }

    /// The host writes words; past an end it leaves any.
    fn host_write(&mut self, part: &Part, words: &[u32]) -> Result<(), Memory> {
        if self.passes_end(part) {
            self.open_all(&[*part]);
            return Ok(());
        }
        let mut place = 0u64;
        for word in words {
            self.set_number(part.word(place), Some(*word));
            place = place.saturating_add(1);
        }
        self.push_part(part, None)
    }

    /// The host reads words; past an end it makes no access.
    fn host_read(&mut self, part: &Part) -> Result<(), Memory> {
        if self.passes_end(part) {
            return Ok(());
        }
        self.push_part(part, None)
    }

    /// Does what a step does.
    fn go(&mut self, step: &VkStep) -> Result<(), Memory> {
        match step {
            VkStep::Submit(batch) => self.submit(batch),
            VkStep::Pass { queue, number } => self.pass(*queue, *number),
            VkStep::Command {
                queue,
                number,
                place,
                loaded,
            } => self.run(*queue, *number, *place, loaded.as_slice()),
            VkStep::Bump { queue, number } => self.finish(*queue, *number),
            VkStep::HostWrite {
                buffer,
                first,
                words,
            } => self.host_write(
                &host_part(*buffer, *first, words.len(), true),
                words.as_slice(),
            ),
            VkStep::HostRead {
                buffer,
                first,
                words,
            } => self.host_read(&host_part(*buffer, *first, words.len(), false)),
            VkStep::Update { .. } => Ok(()),
        }
    }

    /// Takes a step; the least rule that it breaks, if it breaks one.
    pub fn take(&mut self, step: &VkStep) -> Result<Option<VkRule>, Memory> {
        let rule = self.rule_of(step)?;
        self.go(step)?;
        if self.broken.is_none() {
            self.broken = rule;
        }
        Ok(rule)
    }
}
