//! The accesses of the host.

ghost use Rattle.std.specs.Prelude.{◌≡◌, ◌<◌, length, [], IfOk, OnOk, OnErr};
ghost use Rattle.std.specs.List.{list_all, list_any};
ghost use Rattle.vk_sync_rules.specs.Machines.{state_of, is_shown_in, is_clear_for_write, is_clear_for_read};
ghost use Rattle.vk_sync_rules.specs.NextState.{host_range as range_of_host, host_passes_end};
ghost use Rattle.vk_sync_rules.specs.Numbers.{up_to};
ghost use Rattle.vk_sync_rules.specs.Rules.{after_step, is_host_write_in_order, is_host_read_in_order, rule_of};
ghost use Rattle.vk_types.specs.declared.steps.VkStep.TheVariants.{HostRead, HostWrite};

use crate::accesses::{DoneAccess, Side};
use crate::counts::Counts;
use crate::last_tests::{IsAvailable, WriteTest, each_last};
use crate::machine::VkMachine;
use crate::moves::first_rule;
use crate::ranges::{VkResource, WordRange};
use crate::rules::VkRule;
use crate::scopes::start_of;
use crate::sizes::words_in;
use dx_base::{Memory, Seq};
use std::alloc::Global;
use vk_types::{Accesses, Stages};

/// Where the host reads.
const HOST: Side = Side {
    stages: Stages::HOST,
    accesses: Accesses::HOST_READ,
};

/// Whether a write is visible to the host at the place of a queue up to which its batches have ended.
fn is_shown_at(queues: &[Counts], write: &DoneAccess, queue: usize) -> bool
    requires { queue < length queues.now }
    ensures { result ≡ is_shown_in queues.now write.now queue }
{
    write.is_seen(queue as u64, HOST, start_of(queues[queue].ended))
}

/// Whether a write is visible to the host at a place of a finished batch of some queue.
fn is_shown(queues: &[Counts], write: &DoneAccess) -> bool
    ensures { result ≡ list_any (is_shown_in queues.now write.now) (up_to 0 (length queues.now)) }
{
    for queue in 0..queues.len() {
        if is_shown_at(queues, write, queue) {
            return true;
        }
    }
    false
}

/// A write is the host's own, or is visible to it.
#[derive(Clone, Copy)]
struct IsSeenByHost<'a> {
    queues: &'a [Counts],
}

impl<'a> WriteTest for IsSeenByHost<'a> {
    ghost use Rattle.vk_sync_rules.specs.Machines.{is_host_seen_by};

    ghost test = { λ it w. is_host_seen_by it.queues.now w };

    fn holds(&self, write: &DoneAccess) -> bool {
        write.is_host() || is_shown(self.queues, write)
    }
}

/// The words that the host touches.
fn host_range(buffer: u32, first: u32, count: usize) -> WordRange
    ensures { result ≡ range_of_host buffer first count }
{
    WordRange {
        resource: VkResource::Buffer(buffer),
        first: first as u64,
        count: count as u64,
    }
}

/// Whether a host write is ordered after each access of its words.
fn are_clear_for_write(range: WordRange, accesses: &[DoneAccess]) -> bool
    ensures { result ≡ list_all (is_clear_for_write range) accesses.now }
{
    accesses.iter().all(|access| !range.overlaps(access.range) || access.is_ordered_for_host())
}

/// Whether a host read is ordered after each write of its words.
fn are_clear_for_read(range: WordRange, accesses: &[DoneAccess]) -> bool
    ensures { result ≡ list_all (is_clear_for_read range) accesses.now }
{
    accesses.iter().all(|access| {
        !(range.overlaps(access.range) && access.writes) || access.is_ordered_for_host()
    })
}

impl VkMachine {
    /// Whether the host passes the end of a buffer.
    fn host_passes_end(&self, buffer: u32, first: u32, count: usize) -> bool
        ensures { result ≡ host_passes_end (state_of self.now) buffer first count }
    {
        let words = words_in(&self.plan, VkResource::Buffer(buffer));
        (words as u128) < first as u128 + count as u128
    }

    /// Whether a host write is in order.
    fn is_host_write_in_order(&self, range: WordRange) -> bool
        ensures { result ≡ is_host_write_in_order (state_of self.now) range }
    {
        let accesses = self.accesses.as_slice();
        are_clear_for_write(range, accesses) && each_last(accesses, range, &IsAvailable)
    }

    /// Whether a host read is in order.
    fn is_host_read_in_order(&self, range: WordRange) -> bool
        ensures { result ≡ is_host_read_in_order (state_of self.now) range }
    {
        let accesses = self.accesses.as_slice();
        let test = IsSeenByHost {
            queues: self.progress.lanes.as_slice(),
        };
        are_clear_for_read(range, accesses) && each_last(accesses, range, &test)
    }

    /// The rule that a host read breaks, if it breaks one.
    fn rule_of_read(&self, buffer: u32, first: u32, words: &Seq<u32>) -> Option<VkRule>
        ensures { result ≡ rule_of (state_of self.now) (HostRead buffer first words.now) }
    {
        if self.host_passes_end(buffer, first, words.len()) {
            Some(VkRule::V7)
        } else if !self.is_host_read_in_order(host_range(buffer, first, words.len())) {
            Some(VkRule::V10)
        } else {
            None
        }
    }

    /// The least rule that a host write breaks, if it breaks one.
    pub(crate) fn rule_of_write(&self, buffer: u32, first: u32, words: &Seq<u32>) -> Option<VkRule>
        ensures { result ≡ rule_of (state_of self.now) (HostWrite buffer first words.now) }
    {
        if self.host_passes_end(buffer, first, words.len()) {
            Some(VkRule::V7)
        } else if !self.is_host_write_in_order(host_range(buffer, first, words.len())) {
            Some(VkRule::V1)
        } else {
            None
        }
    }

    /// Takes a host read; gives the rule that it breaks, if it breaks one.
    pub(crate) fn host_read(
        &mut self,
        buffer: u32,
        first: u32,
        words: &Seq<u32>,
    ) -> Result<Option<VkRule>, Memory>
        ensures rule { IfOk result (λ rule. rule ≡ rule_of (state_of self.old) (HostRead buffer first words.now)) }
        ensures state { OnOk result (state_of self.new ≡ after_step (state_of self.old) (HostRead buffer first words.now)) }
        ensures same { OnErr result (state_of self.new ≡ state_of self.old) }
    {
        let rule = self.rule_of_read(buffer, first, words);
        if !(self.host_passes_end(buffer, first, words.len()) || words.is_empty()) {
            let made = host_access(self.alloc, false, host_range(buffer, first, words.len()));
            self.accesses.push(made)?;
        }
        self.broken = first_rule(self.broken, rule);
        Ok(rule)
    }

    /// Takes a host write; gives the least rule that it breaks, if it breaks one.
    pub(crate) fn host_write(
        &mut self,
        buffer: u32,
        first: u32,
        words: &Seq<u32>,
    ) -> Result<Option<VkRule>, Memory>
        ensures rule { IfOk result (λ rule. rule ≡ rule_of (state_of self.old) (HostWrite buffer first words.now)) }
        ensures state { OnOk result (state_of self.new ≡ after_step (state_of self.old) (HostWrite buffer first words.now)) }
        ensures same { OnErr result (state_of self.new ≡ state_of self.old) }
    {
        let rule = self.rule_of_write(buffer, first, words);
        let outside = self.host_passes_end(buffer, first, words.len());
        let mut accesses = copies_of(self.alloc, &self.accesses)?;
        if !(outside || words.is_empty()) {
            accesses.push(host_access(self.alloc, true, host_range(buffer, first, words.len())))?;
        }
        if outside {
            self.numbers.open(self.alloc, buffer, first, words.len())?;
        } else {
            self.numbers
                .write(self.alloc, buffer, first, words.as_slice())?;
        }
        self.accesses = accesses;
        self.broken = first_rule(self.broken, rule);
        Ok(rule)
    }
}

/// A copy of accesses.
fn copies_of(alloc: Global, accesses: &Seq<DoneAccess>) -> Result<Seq<DoneAccess>, Memory>
    ensures { IfOk result (λ copies. copies ≡ accesses.now) }
{
    let mut copies = Seq::new(alloc);
    for access in accesses.as_slice() {
        let gains = Seq::from_slice(alloc, access.gains.as_slice())?;
        let signals = Seq::from_slice(alloc, access.signals.as_slice())?;
        copies.push(access.with(gains, signals, access.available))?;
    }
    Ok(copies)
}

/// One access of the host.
fn host_access(alloc: Global, writes: bool, range: WordRange) -> DoneAccess
    ensures { result ≡ record { range = range; writes = writes; access = record { 0 = 0 }; by = None; gains = []; signals = []; available = writes } }
{
    DoneAccess {
        range,
        writes,
        access: Accesses(0),
        by: None,
        gains: Seq::new(alloc),
        signals: Seq::new(alloc),
        available: writes,
    }
}
