//! The values that earlier batches have still to set or to wait for.

ghost use Rattle.std.specs.Prelude.{◌≡◌, ◌++◌};
ghost use Rattle.std.specs.List.{list_all, flat_map};
ghost use Rattle.vk_sync_rules.specs.Machines.{state_of, is_below as is_below_it, is_near_it, sets_left, waits_left};
ghost use Rattle.vk_sync_rules.specs.Rules.{pending_sets, pending_waits, is_near as are_near_by, is_new, is_near_all, rule_of};
ghost use Rattle.vk_types.specs.declared.steps.VkStep.TheVariants.{Submit};

use crate::counts::Counts;
use crate::journal::counts_of;
use crate::machine::VkMachine;
use crate::rules::VkRule;
use dx_base::Seq;
use vk_types::Batch;

/// A timeline and a value.
type Pair = (u32, u64);

/// Whether each of some pairs is of another timeline, or its value is lower.
fn are_below(pair: Pair, others: &[Pair]) -> bool
    ensures { result ≡ list_all (is_below_it pair) others.now }
{
    others
        .iter()
        .all(|other| other.0 != pair.0 || other.1 < pair.1)
}

/// Whether what a batch has still to set is below a pair.
fn batch_below(pair: Pair, queues: &Seq<Counts>, batch: &Batch) -> bool
    ensures { result ≡ list_all (is_below_it pair) (sets_left queues.now batch.now) }
{
    batch.number < counts_of(queues, batch.queue).ended || are_below(pair, batch.sets.as_slice())
}

/// Whether two values differ by no more than this device allows.
fn is_near(one: u64, other: u64) -> bool
    ensures { result ≡ are_near_by one other }
{
    one.saturating_sub(other) <= 2_147_483_647 && other.saturating_sub(one) <= 2_147_483_647
}

/// Whether each of some pairs is of another timeline, or its value is near.
fn are_near(pair: Pair, others: &[Pair]) -> bool
    ensures { result ≡ list_all (is_near_it pair) others.now }
{
    others
        .iter()
        .all(|other| other.0 != pair.0 || is_near(pair.1, other.1))
}

/// Whether what a batch has still to set is near a pair.
fn batch_sets_near(pair: Pair, queues: &Seq<Counts>, batch: &Batch) -> bool
    ensures { result ≡ list_all (is_near_it pair) (sets_left queues.now batch.now) }
{
    batch.number < counts_of(queues, batch.queue).ended || are_near(pair, batch.sets.as_slice())
}

/// Whether what a batch has still to wait for is near a pair.
fn batch_waits_near(pair: Pair, queues: &Seq<Counts>, batch: &Batch) -> bool
    ensures { result ≡ list_all (is_near_it pair) (waits_left queues.now batch.now) }
{
    batch.number < counts_of(queues, batch.queue).passed || are_near(pair, batch.waits.as_slice())
}

/// Whether what each batch has still to set is below a pair.
fn each_below(pair: Pair, queues: &Seq<Counts>, journal: &[Batch]) -> bool
    ensures { result ≡ list_all (λ batch. list_all (is_below_it pair) (sets_left queues.now batch)) journal.now }
{
    journal.iter().all(|batch| batch_below(pair, queues, batch))
}

/// Whether what each batch has still to set is near a pair.
fn each_sets_near(pair: Pair, queues: &Seq<Counts>, journal: &[Batch]) -> bool
    ensures { result ≡ list_all (λ batch. list_all (is_near_it pair) (sets_left queues.now batch)) journal.now }
{
    journal
        .iter()
        .all(|batch| batch_sets_near(pair, queues, batch))
}

/// Whether what each batch has still to wait for is near a pair.
fn each_waits_near(pair: Pair, queues: &Seq<Counts>, journal: &[Batch]) -> bool
    ensures { result ≡ list_all (λ batch. list_all (is_near_it pair) (waits_left queues.now batch)) journal.now }
{
    journal
        .iter()
        .all(|batch| batch_waits_near(pair, queues, batch))
}

/// Whether all that is still to be set is below a pair.
fn all_below(pair: Pair, queues: &Seq<Counts>, journal: &[Batch]) -> bool
    ensures { result ≡ list_all (is_below_it pair) (flat_map (sets_left queues.now) journal.now) }
{
    each_below(pair, queues, journal)
}

/// Whether all that is still to be set is near a pair.
fn all_sets_near(pair: Pair, queues: &Seq<Counts>, journal: &[Batch]) -> bool
    ensures { result ≡ list_all (is_near_it pair) (flat_map (sets_left queues.now) journal.now) }
{
    each_sets_near(pair, queues, journal)
}

/// Whether all that is still to be waited for is near a pair.
fn all_waits_near(pair: Pair, queues: &Seq<Counts>, journal: &[Batch]) -> bool
    ensures { result ≡ list_all (is_near_it pair) (flat_map (waits_left queues.now) journal.now) }
{
    each_waits_near(pair, queues, journal)
}

/// Whether all that is still to be set or waited for is near a pair.
#[tactic(auto, using(crate::proofs::ListSteps::all_both))]
fn all_near(pair: Pair, queues: &Seq<Counts>, journal: &[Batch]) -> bool
    ensures { result ≡ list_all (is_near_it pair) (flat_map (sets_left queues.now) journal.now ++ flat_map (waits_left queues.now) journal.now) }
{
    all_sets_near(pair, queues, journal) && all_waits_near(pair, queues, journal)
}

impl VkMachine {
    /// Whether a value is past a timeline's, and past all that are still to be set.
    fn is_new(&self, pair: Pair) -> bool
        ensures { result ≡ is_new (state_of self.now) pair }
    {
        self.progress.value(pair.0) < pair.1
            && all_below(pair, &self.progress.lanes, self.progress.batches())
    }

    /// Whether a value is near a timeline's, and all that are still to be set or waited for.
    fn is_near_all(&self, pair: Pair) -> bool
        ensures { result ≡ is_near_all (state_of self.now) pair }
    {
        is_near(pair.1, self.progress.value(pair.0))
            && all_near(pair, &self.progress.lanes, self.progress.batches())
    }

    /// Whether all pairs are new.
    fn are_new(&self, pairs: &[Pair]) -> bool
        ensures { result ≡ list_all (is_new (state_of self.now)) pairs.now }
    {
        pairs.iter().all(|pair| self.is_new(*pair))
    }

    /// Whether all pairs are near.
    fn are_near_all(&self, pairs: &[Pair]) -> bool
        ensures { result ≡ list_all (is_near_all (state_of self.now)) pairs.now }
    {
        pairs.iter().all(|pair| self.is_near_all(*pair))
    }

    /// Whether all that a batch sets and waits for is near.
    #[tactic(auto, using(crate::proofs::ListSteps::all_both))]
    fn is_batch_near(&self, batch: &Batch) -> bool
        ensures { result ≡ list_all (is_near_all (state_of self.now)) (batch.now.sets ++ batch.now.waits) }
    {
        self.are_near_all(batch.sets.as_slice()) && self.are_near_all(batch.waits.as_slice())
    }

    /// The least rule that a submission breaks, if it breaks one.
    pub(crate) fn rule_of_submit(&self, batch: &Batch) -> Option<VkRule>
        ensures { result ≡ rule_of (state_of self.now) (Submit batch.now) }
    {
        if !self.are_new(batch.sets.as_slice()) {
            Some(VkRule::V4)
        } else if !self.is_batch_near(batch) {
            Some(VkRule::V5)
        } else if batch.number != counts_of(&self.progress.lanes, batch.queue).submitted {
            Some(VkRule::V9)
        } else {
            None
        }
    }
}
