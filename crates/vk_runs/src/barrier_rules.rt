//! The rules of barriers, and what they change.

use crate::access_names::is_unsupported;
use crate::slow_machine::SlowMachine;
use crate::word_accesses::{At, Side};
use crate::words::Word;
use dx_base::{Memory, Seq};
use vk_sync_rules::{VkResource, VkRule};
use vk_types::{Change, VkCommand, VkLayout};

/// A barrier: what comes before it and behind it, and the layout change between.
#[derive(Clone, Copy)]
pub(crate) struct Barrier {
    pub from: Side,
    pub to: Side,
    pub change: Option<Change>,
}

/// A command as a barrier, if it is one.
pub(crate) fn barrier_of(command: VkCommand) -> Option<Barrier> {
    let VkCommand::Barrier {
        from,
        made,
        to,
        seen,
        change,
    } = command
    else {
        return None;
    };
    Some(Barrier {
        from: Side {
            stages: from,
            accesses: made,
        },
        to: Side {
            stages: to,
            accesses: seen,
        },
        change,
    })
}

impl SlowMachine {
    /// Appends the subresources of an image.
    fn push_subs(&self, subs: &mut Seq<VkResource>, image: u32) -> Result<(), Memory> {
        for extent in self.extents.as_slice() {
            if let VkResource::Image(one, _) = extent.resource {
                if one == image {
                    subs.push(extent.resource)?;
                }
            }
        }
        Ok(())
    }

    /// Appends the subresources that a change names.
    fn push_changed(&self, subs: &mut Seq<VkResource>, change: Change) -> Result<(), Memory> {
        match change.sub {
            Some(sub) => subs.push(VkResource::Image(change.image, sub)),
            None => self.push_subs(subs, change.image),
        }
    }

    /// The subresources whose layout a barrier changes.
    pub(crate) fn changed_by(&self, barrier: Barrier) -> Result<Seq<VkResource>, Memory> {
        let mut subs = Seq::new(self.alloc);
        if let Some(change) = barrier.change {
            self.push_changed(&mut subs, change)?;
        }
        Ok(subs)
    }

    /// V7: whether some subresource is not there.
    pub(crate) fn some_missing(&self, subs: &[VkResource]) -> bool {
        for sub in subs {
            if self.size_of(*sub).is_none() {
                return true;
            }
        }
        false
    }

    /// Whether the last write of a word is available, or a barrier makes it so.
    fn finds_available(&self, at: At, from: Side, word: Word) -> bool {
        match self.last_write(word) {
            None => true,
            Some(write) => write.available || write.is_made_available(at, from),
        }
    }

    /// V1: whether a layout change of a subresource has all that was done to it in its first scope, and finds its last writes
    /// available.
    fn is_change_ordered(&self, at: At, from: Side, sub: VkResource) -> bool {
        for access in self.accesses.as_slice() {
            if access.word.resource == sub && !access.is_in_first_scope(at, from.stages) {
                return false;
            }
        }
        for (word, _) in self.words.as_slice() {
            if word.resource == sub && !self.finds_available(at, from, *word) {
                return false;
            }
        }
        true
    }

    /// V1: whether the change of some subresource is not ordered.
    fn some_unordered(&self, at: At, from: Side, subs: &[VkResource]) -> bool {
        for sub in subs {
            if !self.is_change_ordered(at, from, *sub) {
                return true;
            }
        }
        false
    }

    /// V3: whether the old layout of a change is neither UNDEFINED nor the current one of some subresource.
    fn is_wrong_change(&self, change: Option<Change>, subs: &[VkResource]) -> bool {
        let Some(change) = change else {
            return false;
        };
        for sub in subs {
            if change.old != VkLayout::Undefined && change.old != self.layout_of(*sub) {
                return true;
            }
        }
        false
    }

    /// The least rule that a barrier breaks, which changes these subresources.
    fn rule_of_changes(&self, at: At, barrier: Barrier, subs: &[VkResource]) -> Option<VkRule> {
        if self.some_missing(subs) {
            return Some(VkRule::V7);
        }
        if self.some_unordered(at, barrier.from, subs) {
            return Some(VkRule::V1);
        }
        if self.is_wrong_change(barrier.change, subs) {
            return Some(VkRule::V3);
        }
        if is_unsupported(barrier.from.stages, barrier.from.accesses)
            || is_unsupported(barrier.to.stages, barrier.to.accesses)
        {
            return Some(VkRule::V8);
        }
        None
    }

    /// The least rule that a barrier breaks.
    pub(crate) fn rule_of_barrier(
        &self,
        at: At,
        barrier: Barrier,
    ) -> Result<Option<VkRule>, Memory> {
        let subs = self.changed_by(barrier)?;
        let rule = self.rule_of_changes(at, barrier, subs.as_slice());
        drop(subs);
        Ok(rule)
    }
}
