//! The armed waits of a fence, in the order in which they were armed.

ghost use Rattle.std.specs.Prelude.{◌≡◌, ◌≤◌, ◌<◌, ◌∷◌, ◌++◌, [], length, nat_lt, OnErr, OnOk, IfOk};
ghost use Rattle.std.specs.List.{prefix_len};
ghost use Rattle.dx_base.specs.Each.{Each};
ghost use Rattle.fence_timeline.specs.Waits.{IsIn, AreNumbered, without, earliest};

use crate::wait::Wait;
use dx_base::{FenceId, Memory};
use std::alloc::Global;
use std::collections::VecDeque;
use std::marker::Model;

/// The armed waits, with rising numbers, and the number of the next.
#[derive(Debug, Drop)]
pub(crate) struct Waits {
    items: VecDeque<Wait>,
    next: u64,
}

impl Model for Waits {
    ghost use Rattle.std.specs.Prelude.{List};
    ghost use Rattle.fence_timeline.specs.declared.wait.Wait.{Wait};
    ghost use Rattle.fence_timeline.specs.Waits.{IsWaits};

    ghost Value = { List Wait };

    ghost view = { λ it. it.items.items };

    ghost invariant = { λ it. IsWaits it.items.items it.next };
}

/// How many waits, which are the first, have numbers below that number.
fn place_of(items: &VecDeque<Wait>, number: u64) -> usize
    requires { AreNumbered 0 items.now.items }
    ensures { result ≡ prefix_len (λ w. nat_lt w.number number) items.now.items }
{
    items.partition_point(|wait| wait.number < number)
}

impl Waits {
    /// No waits; takes no memory.
    pub(crate) fn new(alloc: Global) -> Waits
        ensures { result ≡ [] }
    {
        Waits {
            items: VecDeque::new(alloc),
            next: 0,
        }
    }

    /// The number of the earliest update that a wait may need.
    pub(crate) fn earliest(&self, current: u64) -> u64
        ensures { result ≡ earliest current self.now }
    {
        match self.items.front() {
            Some(wait) => wait.since,
            None => current,
        }
    }

    /// Arms a wait with a number of its own. Refused for memory, or where there are no more numbers, all stays.
    pub(crate) fn arm(&mut self, fence: FenceId, value: u64, since: u64) -> Result<Wait, Memory>
        ensures wait { IfOk result (λ wait. (wait.fence ≡ fence) × (wait.value ≡ value) × (wait.since ≡ since)) }
        ensures fresh { IfOk result (λ wait. Each (λ other. other.number < wait.number) self.old) }
        ensures armed { IfOk result (λ wait. self.new ≡ self.old ++ wait ∷ []) }
        ensures same { OnErr result (self.new ≡ self.old) }
    {
        if self.next == u64::MAX {
            return Err(Memory);
        }
        let wait = Wait {
            fence,
            value,
            since,
            number: self.next,
        };
        self.items.push_back(wait)?;
        self.next += 1;
        Ok(wait)
    }

    /// Lets go of a wait.
    pub(crate) fn done(&mut self, wait: Wait)
        requires { IsIn self.old wait }
        ensures { self.new ≡ without wait.number self.old }
    {
        let place = place_of(&self.items, wait.number);
        self.items.remove(place);
    }
}
