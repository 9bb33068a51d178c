//! The rules of the host: its accesses, and its updates of descriptors.

use crate::batches::SlowBatch;
use crate::parts::{Part, words_of_buffer};
use crate::registers::registers_of;
use crate::slow_machine::SlowMachine;
use crate::word_accesses::{Sight, WordAccess};
use vk_sync_rules::VkRule;
use vk_types::{Access, Register, Stage, VkCommand};

/// The words that the host touches.
pub(crate) fn host_part(buffer: u32, first: u32, count: usize, writes: bool) -> Part {
    Part {
        columns: words_of_buffer(buffer, first as u64, count as u64),
        access: Access::HostRead,
        writes,
        register: 0,
        named: None,
    }
}

/// Whether a command names a slot.
fn names_slot(command: VkCommand, heap: u32, slot: u32) -> bool {
    for register in registers_of(command) {
        if register == (Register::Slot { heap, slot }) {
            return true;
        }
    }
    false
}

/// Whether some command of a batch names a slot.
fn some_name_slot(batch: &SlowBatch, heap: u32, slot: u32) -> bool {
    for (command, _) in batch.commands.as_slice() {
        if names_slot(*command, heap, slot) {
            return true;
        }
    }
    false
}

impl SlowMachine {
    /// Whether from the place of a finished batch on a write is visible to reads of the host.
    fn is_host_sight(&self, sight: &Sight) -> bool {
        if sight.stage != Stage::Host || sight.access != Access::HostRead {
            return false;
        }
        match self.batch_of(sight.from.queue, sight.from.place.number) {
            None => false,
            Some(batch) => batch.finished,
        }
    }

    /// Whether the host sees a write: its own, or one that is visible to its reads.
    fn is_seen_by_host(&self, write: &WordAccess) -> bool {
        if write.maker.is_none() {
            return true;
        }
        for sight in write.visible.as_slice() {
            if self.is_host_sight(sight) {
                return true;
            }
        }
        false
    }

    /// Whether a host access is ordered after all that was done to its words.
    fn is_host_ordered(&self, part: &Part) -> bool {
        for access in self.accesses.as_slice() {
            if (part.writes || access.writes)
                && part.has(access.word)
                && !access.is_ordered_for_host()
            {
                return false;
            }
        }
        true
    }

    /// Whether a host access sees the last writes of its words, or finds them available where it writes.
    fn host_finds_last(&self, part: &Part) -> bool {
        for at in 0..part.columns.count {
            if let Some(write) = self.last_write(part.word(at)) {
                let finds = if part.writes {
                    write.available
                } else {
                    self.is_seen_by_host(write)
                };
                if !finds {
                    return false;
                }
            }
        }
        true
    }

    /// The least rule that a host access breaks.
    pub(crate) fn rule_of_host(&self, part: &Part) -> Option<VkRule> {
        if self.passes_end(part) {
            return Some(VkRule::V7);
        }
        if self.is_host_ordered(part) && self.host_finds_last(part) {
            return None;
        }
        Some(if part.writes { VkRule::V1 } else { VkRule::V10 })
    }

    /// V6: the rule that an update of a slot breaks, which an unfinished command names.
    pub(crate) fn rule_of_update(&self, heap: u32, slot: u32) -> Option<VkRule> {
        for batch in self.batches.as_slice() {
            if !batch.finished && some_name_slot(batch, heap, slot) {
                return Some(VkRule::V6);
            }
        }
        None
    }
}
