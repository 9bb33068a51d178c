//! A fence as a list of updates.

ghost use Rattle.std.specs.Prelude.{◌≡◌, ◌≤◌, ◌<◌, ◌+◌, ◌-◌, ◌++◌, ◌^◌, false, length, drop, IfOk, OnOk, OnErr};
ghost use Rattle.dx_base.specs.Each.{Each};
ghost use Rattle.fence_timeline.specs.Sufficient.{first_sufficient};
ghost use Rattle.fence_timeline.specs.Waits.{IsIn, earliest, AreInOrder};
ghost use Rattle.fence_timeline.specs.FenceList.{FenceList, IsFenceList, IsSame, IsWaitFrom, resolved, is_met, value_of, last_other, HaveCounters, pending_of, current, host_update, gpu_update, new_list, caught_up, host_signalled, gpu_signalled, armed_with, done_with};

use crate::pending::{apply_reached, ending_behind, last_of_other};
use crate::update::{Target, Update};
use crate::updates::Updates;
use crate::wait::Wait;
use crate::waits::Waits;
use dx_base::{FenceId, Memory};
use std::alloc::Global;
use std::marker::Model;

/// A fence: the updates that were applied, those that are still pending on queues, and the armed waits. Updates that no
/// armed wait may need are let go of.
#[derive(Debug, Drop)]
pub struct Fence {
    id: FenceId,
    base: u64,
    applied: Updates,
    pending: Updates,
    ending: usize,
    waits: Waits,
}

impl Model for Fence {
    ghost use Rattle.fence_timeline.specs.FenceList.{FenceList};
    ghost use Rattle.fence_timeline.specs.Fence.{list_of, IsFence};

    ghost Value = { FenceList };

    ghost view = { λ it. list_of it.id it.base it.applied it.pending it.waits };

    ghost invariant = { λ it. IsFence it.id it.base it.applied it.pending it.ending it.waits };
}

/// An update that the host makes.
fn host(value: u64) -> Update
    ensures { result ≡ host_update value }
{
    Update {
        value,
        target: Target::Host,
    }
}

/// Lets go of the applied updates that no armed wait may need; takes no memory.
fn let_go(base: &mut u64, applied: &mut Updates, waits: &Waits)
    requires some { 1 ≤ length applied.old.items }
    requires fits { base.old + length applied.old.items ≤ 2 ^ 64 - 1 }
    requires in_order { AreInOrder base.old waits.now (base.old + (length applied.old.items - 1)) }
    ensures base { base.new ≡ earliest (base.old + (length applied.old.items - 1)) waits.now }
    ensures applied { applied.new.items ≡ drop (base.new - base.old) applied.old.items }
    ensures room { applied.new.spare + length applied.new.items ≡ applied.old.spare + length applied.old.items }
{
    let current = *base + (applied.len() as u64 - 1);
    let first = waits.earliest(current);
    while *base < first {
        applied.pop();
        *base += 1;
    }
}

/// The first update that suffices, of the applied ones from a place on and the pending ones.
fn first_in(applied: &Updates, pending: &Updates, from: usize, value: u64) -> Option<Update>
    requires { from ≤ length applied.now.items }
    ensures { result ≡ first_sufficient value (drop from (applied.now.items ++ pending.now.items)) }
{
    match applied.first_from(from, value) {
        Some(update) => Some(update),
        None => pending.first_from(0, value),
    }
}

impl Fence {
    /// A fence with its starting value.
    pub fn new(alloc: Global, id: FenceId, value: u64) -> Result<Fence, Memory>
        ensures new { IfOk result (λ fence. IsSame fence (new_list id value fence.spare)) }
        ensures list { IfOk result IsFenceList }
    {
        let mut applied = Updates::new(alloc);
        applied.reserve(1)?;
        applied.push_reserved(host(value));
        Ok(Fence {
            id,
            base: 0,
            applied,
            pending: Updates::new(alloc),
            ending: 1,
            waits: Waits::new(alloc),
        })
    }

    /// Applies the longest prefix of the pending updates that the counters, by queue, all reached; takes no memory.
    pub fn catch_up(&mut self, counters: &[u64])
        requires { HaveCounters counters.now (pending_of self.old) }
        ensures state { IsSame self.new (caught_up counters.now self.old) }
        ensures list { IsFenceList self.new }
    {
        apply_reached(&mut self.applied, &mut self.pending, counters);
        let_go(&mut self.base, &mut self.applied, &self.waits);
    }

    /// Whether there is no number for one more update.
    fn is_full(&self) -> bool
        ensures { result ≡ false → self.now.base + length self.now.updates < 2 ^ 64 - 1 }
    {
        self.base + self.applied.len() as u64 + self.pending.len() as u64 == u64::MAX
    }

    /// Applies an update behind those applied. Refused for memory, the fence stays.
    pub fn host_signal(&mut self, value: u64) -> Result<(), Memory>
        ensures state { OnOk result (IsSame self.new (host_signalled value self.old)) }
        ensures same { OnErr result (IsSame self.new self.old) }
        ensures list { IsFenceList self.new }
    {
        if self.is_full() {
            return Err(Memory);
        }
        let count = self.pending.len();
        self.applied.reserve(count + 1)?;
        let update = host(value);
        self.applied.push_reserved(update);
        let_go(&mut self.base, &mut self.applied, &self.waits);
        Ok(())
    }

    /// The last pending update of another queue: that queue, and the value at which it makes the update.
    pub fn other_pending(&self, queue: u32) -> Option<(u32, u64)>
        ensures { result ≡ last_other queue (pending_of self.now) }
    {
        last_of_other(&self.pending, self.ending, queue)
    }

    /// Makes room for one signal. Refused for memory, the fence stays.
    pub fn reserve(&mut self) -> Result<(), Memory>
        ensures room { OnOk result (1 ≤ self.new.spare) }
        ensures same { IsSame self.new self.old }
        ensures list { IsFenceList self.new }
    {
        if self.is_full() {
            return Err(Memory);
        }
        let count = self.pending.len();
        self.applied.reserve(count + 1)?;
        self.pending.reserve(1)?;
        Ok(())
    }

    /// Appends a pending update, which the queue makes when its timeline reaches `at`; takes no memory.
    pub fn gpu_signal(&mut self, value: u64, queue: u32, at: u64)
        requires { 1 ≤ self.old.spare }
        ensures state { IsSame self.new (gpu_signalled (gpu_update value queue at) self.old) }
        ensures list { IsFenceList self.new }
    {
        self.ending = ending_behind(&self.pending, self.ending, queue);
        self.pending.push_reserved(Update {
            value,
            target: Target::Gpu { queue, value: at },
        });
    }

    /// Arms a wait for a value: updates that it may need are kept until it is done. Refused for memory, the fence stays.
    pub fn arm(&mut self, value: u64) -> Result<Wait, Memory>
        ensures wait { IfOk result (λ wait. IsWaitFrom self.old value wait) }
        ensures state { IfOk result (λ wait. IsSame self.new (armed_with wait self.old)) }
        ensures same { OnErr result (IsSame self.new self.old) }
        ensures list { IsFenceList self.new }
    {
        let since = self.base + (self.applied.len() as u64 - 1);
        let wait = self.waits.arm(self.id, value, since)?;
        Ok(wait)
    }

    /// A wait's target: the update current at its call if its value suffices, else the first later one that does.
    pub fn resolve(&self, wait: &Wait) -> Option<Target>
        requires { IsIn self.now.armed wait.now }
        ensures { result ≡ resolved self.now wait.now }
    {
        let from = (wait.since - self.base) as usize;
        match first_in(&self.applied, &self.pending, from, wait.value) {
            Some(update) => Some(update.target),
            None => None,
        }
    }

    /// Whether an applied update, of that current at the wait's call and the later ones, suffices.
    pub fn met(&self, wait: &Wait) -> bool
        requires { IsIn self.now.armed wait.now }
        ensures { result ≡ is_met self.now wait.now }
    {
        let from = (wait.since - self.base) as usize;
        self.applied.first_from(from, wait.value).is_some()
    }

    /// The fence's value: that of the last applied update.
    pub fn value(&self) -> u64
        ensures { result ≡ value_of self.now }
    {
        match self.applied.last() {
            Some(update) => update.value,
            None => 0,
        }
    }

    /// Lets go of a wait, and of the updates that it alone may need; takes no memory.
    pub fn done(&mut self, wait: Wait)
        requires { IsIn self.old.armed wait }
        ensures state { IsSame self.new (done_with wait self.old) }
        ensures list { IsFenceList self.new }
    {
        self.waits.done(wait);
        let_go(&mut self.base, &mut self.applied, &self.waits);
    }
}
