//! The rules of commands that are no barriers.

use crate::access_names::allows;
use crate::parts::{Part, stage_of};
use crate::slow_machine::SlowMachine;
use crate::word_accesses::At;
use crate::words::Word;
use vk_sync_rules::{VkResource, VkRule};
use vk_types::{Access, Stage, VkCommand};

/// Whether two parts have a word in common.
fn share(one: &Part, other: &Part) -> bool {
    for at in 0..one.columns.count {
        if other.has(one.word(at)) {
            return true;
        }
    }
    false
}

/// Whether two parts are of two registers and touch a word that one of them writes.
fn collide(one: &Part, other: &Part) -> bool {
    one.register != other.register && (one.writes || other.writes) && share(one, other)
}

/// Whether two registers of a command touch a word that one of them writes.
fn some_collide(parts: &[Part]) -> bool {
    for one in parts {
        for other in parts {
            if collide(one, other) {
                return true;
            }
        }
    }
    false
}

impl SlowMachine {
    /// V7: whether a part passes the end of its resource, or that is not there.
    pub(crate) fn passes_end(&self, part: &Part) -> bool {
        match self.size_of(part.columns.resource) {
            None => true,
            Some(size) => part.columns.first.saturating_add(part.columns.count) > size,
        }
    }

    /// V7: whether some part passes an end.
    pub(crate) fn some_pass_end(&self, parts: &[Part]) -> bool {
        for part in parts {
            if self.passes_end(part) {
                return true;
            }
        }
        false
    }

    /// V1: whether a part is ordered after all that was done to its words.
    fn is_ordered(&self, at: At, stage: Stage, part: &Part) -> bool {
        for access in self.accesses.as_slice() {
            if (part.writes || access.writes)
                && part.has(access.word)
                && !access.is_reached(at, stage)
            {
                return false;
            }
        }
        true
    }

    /// Whether a command sees the last write of a word.
    pub(crate) fn is_seen(&self, at: At, stage: Stage, access: Access, word: Word) -> bool {
        match self.last_write(word) {
            None => true,
            Some(write) => write.is_visible(at, stage, access),
        }
    }

    /// Whether the last write of a word is available.
    pub(crate) fn is_available(&self, word: Word) -> bool {
        match self.last_write(word) {
            None => true,
            Some(write) => write.available,
        }
    }

    /// V1: whether a part sees the last writes of its words, or finds them available where it writes.
    fn finds_last(&self, at: At, stage: Stage, part: &Part) -> bool {
        for place in 0..part.columns.count {
            let word = part.word(place);
            let finds = if part.writes {
                self.is_available(word)
            } else {
                self.is_seen(at, stage, part.access, word)
            };
            if !finds {
                return false;
            }
        }
        true
    }

    /// V1: whether each part is in order.
    fn are_in_order(&self, at: At, stage: Stage, parts: &[Part]) -> bool {
        for part in parts {
            if !self.is_ordered(at, stage, part) || !self.finds_last(at, stage, part) {
                return false;
            }
        }
        true
    }

    /// V2: whether the current layout does not allow a part, or is not the one that its copy names.
    fn is_wrong_layout(&self, part: &Part) -> bool {
        if let VkResource::Buffer(_) = part.columns.resource {
            return false;
        }
        let layout = self.layout_of(part.columns.resource);
        let is_other = match part.named {
            None => false,
            Some(named) => named != layout,
        };
        part.columns.count != 0 && (is_other || !allows(layout, part.access))
    }

    /// V2: whether some part finds a wrong layout.
    fn some_wrong_layout(&self, parts: &[Part]) -> bool {
        for part in parts {
            if self.is_wrong_layout(part) {
                return true;
            }
        }
        false
    }

    /// The least rule that a command with these parts breaks.
    pub(crate) fn rule_of_parts(
        &self,
        at: At,
        command: VkCommand,
        parts: &[Part],
    ) -> Option<VkRule> {
        if self.some_pass_end(parts) {
            return Some(VkRule::V7);
        }
        if some_collide(parts) || !self.are_in_order(at, stage_of(command), parts) {
            return Some(VkRule::V1);
        }
        if self.some_wrong_layout(parts) {
            return Some(VkRule::V2);
        }
        None
    }
}
