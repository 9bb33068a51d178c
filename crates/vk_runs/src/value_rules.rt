//! The rules of submissions: what values may be set and waited for, and which number comes next.

use crate::slow_machine::SlowMachine;
use vk_sync_rules::VkRule;
use vk_types::Batch;

/// The greatest difference of values of a timeline.
const MOST_APART: u64 = 2_147_483_647;

/// Whether two values are too far apart.
fn are_far(one: u64, other: u64) -> bool {
    one.saturating_sub(other) > MOST_APART || other.saturating_sub(one) > MOST_APART
}

/// Whether some value of a timeline is at least that.
fn some_reach(pairs: &[(u32, u64)], timeline: u32, value: u64) -> bool {
    for (one, other) in pairs {
        if *one == timeline && value <= *other {
            return true;
        }
    }
    false
}

/// Whether some value of a timeline is far from that.
fn some_far(pairs: &[(u32, u64)], timeline: u32, value: u64) -> bool {
    for (one, other) in pairs {
        if *one == timeline && are_far(value, *other) {
            return true;
        }
    }
    false
}

impl SlowMachine {
    /// V4: whether a value set is not above the timeline's and each that is still to be set.
    fn is_old(&self, timeline: u32, value: u64) -> bool {
        if value <= self.value_of(timeline) {
            return true;
        }
        for batch in self.batches.as_slice() {
            if !batch.finished && some_reach(batch.sets.as_slice(), timeline, value) {
                return true;
            }
        }
        false
    }

    /// V5: whether a value is far from the timeline's, or from one that is still to be set or waited for.
    fn is_far(&self, timeline: u32, value: u64) -> bool {
        if are_far(value, self.value_of(timeline)) {
            return true;
        }
        for batch in self.batches.as_slice() {
            if !batch.finished && some_far(batch.sets.as_slice(), timeline, value) {
                return true;
            }
            if !batch.passed && some_far(batch.waits.as_slice(), timeline, value) {
                return true;
            }
        }
        false
    }

    /// V4: whether some value set is too old.
    fn some_old(&self, sets: &[(u32, u64)]) -> bool {
        for (timeline, value) in sets {
            if self.is_old(*timeline, *value) {
                return true;
            }
        }
        false
    }

    /// V5: whether some value is too far.
    fn some_far(&self, pairs: &[(u32, u64)]) -> bool {
        for (timeline, value) in pairs {
            if self.is_far(*timeline, *value) {
                return true;
            }
        }
        false
    }

    /// The least rule that a submission breaks.
    pub(crate) fn rule_of_submission(&self, batch: &Batch) -> Option<VkRule> {
        if self.some_old(batch.sets.as_slice()) {
            return Some(VkRule::V4);
        }
        if self.some_far(batch.sets.as_slice()) || self.some_far(batch.waits.as_slice()) {
            return Some(VkRule::V5);
        }
        if batch.number == self.next_number(batch.queue) {
            None
        } else {
            Some(VkRule::V9)
        }
    }
}
