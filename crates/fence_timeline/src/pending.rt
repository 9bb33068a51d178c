//! The pending updates of a fence.

ghost use Rattle.std.specs.Prelude.{ℕ, ◌≡◌, ◌≤◌, ◌<◌, ◌+◌, ◌-◌, ◌^◌, true, false, [], ◌∷◌, ◌++◌, length, drop, IfNone, IfSome, Some};
ghost use Rattle.fence_timeline.specs.FenceList.{is_reached, HasCounter, HaveCounters, caught, left, last_other, other_queue, gpu_update};
ghost use Rattle.fence_timeline.specs.Endings.{EndsAlike, IsOf, IsOfOther, StandsReached, StandsBefore};

use crate::update::{Target, Update};
use crate::updates::Updates;

/// Whether the counters reached an update.
fn is_reached_by(counters: &[u64], target: Target) -> bool
    requires { HasCounter counters.now target }
    ensures { result ≡ is_reached counters.now target }
{
    match target {
        Target::Host => true,
        Target::Gpu { queue, value } => counters[queue as usize] >= value,
    }
}

/// The first of the pending updates, where the counters reached it.
fn first_reached(pending: &Updates, counters: &[u64]) -> Option<Update>
    requires { HaveCounters counters.now pending.now.items }
    ensures none { IfNone result ((caught counters.now pending.now.items ≡ []) × (left counters.now pending.now.items ≡ pending.now.items)) }
    ensures some { IfSome result (λ update. StandsReached counters.now pending.now.items update) }
{
    match pending.get(0) {
        Some(update) => {
            if is_reached_by(counters, update.target) {
                return Some(update);
            }
            None
        }
        None => None,
    }
}

/// Applies the pending updates that the counters reached, as far as they reached all before them; takes no memory.
pub(crate) fn apply_reached(applied: &mut Updates, pending: &mut Updates, counters: &[u64])
    requires room { length pending.old.items ≤ applied.old.spare }
    requires counters { HaveCounters counters.now pending.old.items }
    ensures applied { applied.new.items ≡ applied.old.items ++ caught counters.now pending.old.items }
    ensures pending { pending.new.items ≡ left counters.now pending.old.items }
    ensures room { length pending.new.items ≤ applied.new.spare }
{
    while let Some(update) = first_reached(pending, counters) {
        pending.pop();
        applied.push_reserved(update);
    }
}

/// Whether a queue makes an update.
fn is_made_by(target: Target, queue: u32) -> bool
    ensures own { result ≡ true → IsOf queue target }
    ensures other { result ≡ false → (q : ℕ) → IsOf q target → IsOfOther queue target }
{
    match target {
        Target::Host => false,
        Target::Gpu { queue: own, .. } => own == queue,
    }
}

/// How many of the last pending updates are of one queue, where one of that queue comes behind them.
pub(crate) fn ending_behind(pending: &Updates, ending: usize, queue: u32) -> usize
    requires ends { EndsAlike ending pending.now.items }
    requires room { length pending.now.items < 2 ^ 64 - 1 }
    ensures { (value : ℕ) → (at : ℕ) → EndsAlike result (pending.now.items ++ gpu_update value queue at ∷ []) }
{
    match pending.last() {
        Some(last) => {
            if is_made_by(last.target, queue) {
                return ending.min(pending.len()) + 1;
            }
            1
        }
        None => 1,
    }
}

/// The queue and the value of an update of another queue.
fn of_other(target: Target, queue: u32) -> Option<(u32, u64)>
    ensures { result ≡ other_queue queue target }
{
    match target {
        Target::Host => None,
        Target::Gpu { queue: own, value } => {
            if own == queue {
                return None;
            }
            Some((own, value))
        }
    }
}

/// The update before the last ones of one queue.
fn before_ending(pending: &Updates, ending: usize) -> Option<Update>
    ensures none { IfNone result (length pending.now.items ≤ ending) }
    ensures some { IfSome result (λ update. StandsBefore ending pending.now.items update) }
{
    let count = pending.len();
    if ending < count {
        return pending.get(count - 1 - ending);
    }
    None
}

/// The last pending update of another queue: that queue, and its value.
pub(crate) fn last_of_other(pending: &Updates, ending: usize, queue: u32) -> Option<(u32, u64)>
    requires { EndsAlike ending pending.now.items }
    ensures { result ≡ last_other queue pending.now.items }
{
    match pending.last() {
        Some(last) => match of_other(last.target, queue) {
            Some(other) => Some(other),
            None => match before_ending(pending, ending) {
                Some(before) => of_other(before.target, queue),
                None => None,
            },
        },
        None => None,
    }
}
