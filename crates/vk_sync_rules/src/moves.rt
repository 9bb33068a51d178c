//! What submissions, passes and ends do.

ghost use Rattle.std.specs.Prelude.{◌≡◌, ◌+◌, IfOk, OnOk, OnErr};
ghost use Rattle.std.specs.List.{list_all};
ghost use Rattle.std.specs.Option.{option_copied};
ghost use Rattle.dx_base.specs.Lists.{changed_at};
ghost use Rattle.vk_sync_rules.specs.Machines.{state_of, with_submitted, with_passed, with_ended};
ghost use Rattle.vk_sync_rules.specs.NextState.{is_idle, waits_in as waits_of, sets_in as sets_of};
ghost use Rattle.vk_sync_rules.specs.Rules.{or_rule, after_step, rule_of};
ghost use Rattle.vk_types.specs.declared.steps.VkStep.TheVariants.{Submit, Pass, Bump};

use crate::counts::Counts;
use crate::journal::batch_in;
use crate::machine::VkMachine;
use crate::rules::VkRule;
use crate::scopes::{all_ended, all_passed, all_submitted};
use dx_base::{Memory, Seq};
use std::alloc::Global;
use vk_types::{Batch, set_timelines};

/// The first of two rules, if there is one.
pub(crate) fn first_rule(broken: Option<VkRule>, rule: Option<VkRule>) -> Option<VkRule>
    ensures { result ≡ or_rule broken rule }
{
    match broken {
        None => rule,
        Some(broken) => Some(broken),
    }
}

/// Sets the number of the next batch of a queue to be submitted.
fn set_submitted(queues: &mut Seq<Counts>, queue: u32, next: u64)
    ensures { queues.new ≡ changed_at (with_submitted next) queue queues.old }
{
    if (queue as usize) < queues.len() {
        queues.at_mut(queue as usize).submitted = next;
    }
}

/// Sets the number of the next batch of a queue to pass.
fn set_passed(queues: &mut Seq<Counts>, queue: u32, next: u64)
    ensures { queues.new ≡ changed_at (with_passed next) queue queues.old }
{
    if (queue as usize) < queues.len() {
        queues.at_mut(queue as usize).passed = next;
    }
}

/// Sets the number of the next batch of a queue to end.
fn set_ended(queues: &mut Seq<Counts>, queue: u32, next: u64)
    ensures { queues.new ≡ changed_at (with_ended next) queue queues.old }
{
    if (queue as usize) < queues.len() {
        queues.at_mut(queue as usize).ended = next;
    }
}

/// Whether no batch that passed is unfinished.
fn are_idle(queues: &[Counts]) -> bool
    ensures { result ≡ list_all is_idle queues.now }
{
    queues.iter().all(|counts| counts.passed <= counts.ended)
}

/// A copy of the waits of a batch; none where it is missing.
fn waits_in(alloc: Global, batch: Option<&Batch>) -> Result<Seq<(u32, u64)>, Memory>
    ensures { IfOk result (λ waits. waits ≡ waits_of (option_copied batch.entry)) }
{
    match batch {
        None => Ok(Seq::new(alloc)),
        Some(batch) => Seq::from_slice(alloc, batch.waits.as_slice()),
    }
}

/// A copy of the sets of a batch; none where it is missing.
fn sets_in(alloc: Global, batch: Option<&Batch>) -> Result<Seq<(u32, u64)>, Memory>
    ensures { IfOk result (λ sets. sets ≡ sets_of (option_copied batch.entry)) }
{
    match batch {
        None => Ok(Seq::new(alloc)),
        Some(batch) => Seq::from_slice(alloc, batch.sets.as_slice()),
    }
}

/// The number behind a batch's. The last of all has none, which is want of memory.
fn number_after(number: u64) -> Result<u64, Memory>
    ensures { IfOk result (λ next. next ≡ number + 1) }
{
    match number.checked_add(1) {
        None => Err(Memory),
        Some(next) => Ok(next),
    }
}

impl VkMachine {
    /// Submits a batch; gives the least rule that it breaks.
    pub(crate) fn submit(&mut self, batch: &Batch) -> Result<Option<VkRule>, Memory>
        ensures rule { IfOk result (λ rule. rule ≡ rule_of (state_of self.old) (Submit batch.now)) }
        ensures state { OnOk result (state_of self.new ≡ after_step (state_of self.old) (Submit batch.now)) }
        ensures same { OnErr result (state_of self.new ≡ state_of self.old) }
    {
        let rule = self.rule_of_submit(batch);
        let next = number_after(batch.number)?;
        let accesses = all_submitted(self.alloc, &self.accesses, batch)?;
        let copy = batch.copied(self.alloc)?;
        self.progress.reserve()?;
        self.progress.submit(copy);
        self.accesses = accesses;
        set_submitted(&mut self.progress.lanes, batch.queue, next);
        self.broken = first_rule(self.broken, rule);
        Ok(rule)
    }

    /// Passes a batch.
    pub(crate) fn pass(&mut self, queue: u32, number: u64) -> Result<(), Memory>
        ensures state { OnOk result (state_of self.new ≡ after_step (state_of self.old) (Pass queue number)) }
        ensures same { OnErr result (state_of self.new ≡ state_of self.old) }
    {
        let next = number_after(number)?;
        let waits = waits_in(self.alloc, batch_in(queue, number, self.progress.batches()))?;
        let accesses = all_passed(self.alloc, &self.accesses, queue, number, waits.as_slice())?;
        self.accesses = accesses;
        self.serial = self.serial && are_idle(self.progress.lanes.as_slice());
        set_passed(&mut self.progress.lanes, queue, next);
        self.broken = first_rule(self.broken, None);
        Ok(())
    }

    /// Ends a batch.
    pub(crate) fn end(&mut self, queue: u32, number: u64) -> Result<(), Memory>
        ensures state { OnOk result (state_of self.new ≡ after_step (state_of self.old) (Bump queue number)) }
        ensures same { OnErr result (state_of self.new ≡ state_of self.old) }
    {
        let next = number_after(number)?;
        let sets = sets_in(self.alloc, batch_in(queue, number, self.progress.batches()))?;
        let accesses = all_ended(self.alloc, &self.accesses, queue, number, sets.as_slice())?;
        self.accesses = accesses;
        set_timelines(&mut self.progress.timelines, &sets);
        set_ended(&mut self.progress.lanes, queue, next);
        self.broken = first_rule(self.broken, None);
        Ok(())
    }
}
