//! Updates of descriptors.

ghost use Rattle.std.specs.Prelude.{◌≡◌, ◌++◌, []};
ghost use Rattle.std.specs.List.{list_any};
ghost use Rattle.vk_sync_rules.specs.Machines.{listed, state_of};
ghost use Rattle.vk_sync_rules.specs.Registers.{same_slot, names_slot};
ghost use Rattle.vk_sync_rules.specs.Rules.{after_step, is_in_use, rule_of};
ghost use Rattle.vk_types.specs.declared.steps.VkStep.TheVariants.{Update};

use crate::journal::counts_of;
use crate::machine::VkMachine;
use crate::moves::first_rule;
use crate::rules::VkRule;
use crate::slots::{Slot, is_it, slot_of};
use vk_types::{Batch, VkCommand};

/// Whether a slot is one of four.
#[tactic(auto, using(crate::proofs::SlotSteps::any_four))]
fn is_one_of(
    slot: Slot,
    one: Option<Slot>,
    two: Option<Slot>,
    three: Option<Slot>,
    four: Option<Slot>,
) -> bool
    ensures { result ≡ list_any (same_slot slot) (listed one ++ (listed two ++ (listed three ++ (listed four ++ [])))) }
{
    is_it(slot, one) || (is_it(slot, two) || (is_it(slot, three) || is_it(slot, four)))
}

/// Whether a command names a slot.
fn does_name(command: &VkCommand, slot: Slot) -> bool
    ensures { result ≡ names_slot slot command.now }
{
    match *command {
        VkCommand::Barrier { .. } => false,
        VkCommand::Copy { .. } => false,
        VkCommand::CopyImage { .. } => false,
        VkCommand::CopyIn { .. } => false,
        VkCommand::CopyOut { .. } => false,
        VkCommand::Clear { target, .. } => is_one_of(slot, slot_of(target), None, None, None),
        VkCommand::Dispatch { t0, t1, u0, b0, .. } => {
            is_one_of(slot, slot_of(t0), slot_of(t1), slot_of(u0), slot_of(b0))
        }
    }
}

/// Whether some command of a batch names a slot.
fn batch_names(batch: &Batch, slot: Slot) -> bool
    ensures { result ≡ list_any (names_slot slot) batch.now.commands }
{
    batch
        .commands
        .as_slice()
        .iter()
        .any(|command| does_name(command, slot))
}

impl VkMachine {
    /// Whether a submitted, unfinished command names a slot.
    fn is_in_use(&self, slot: Slot) -> bool
        ensures { result ≡ is_in_use (state_of self.now) slot }
    {
        self.progress.batches().iter().any(|batch| {
            !(batch.number < counts_of(&self.progress.lanes, batch.queue).ended)
                && batch_names(batch, slot)
        })
    }

    /// Updates a slot; gives the rule that this breaks, if it breaks one.
    pub(crate) fn update(&mut self, heap: u32, slot: u32) -> Option<VkRule>
        ensures rule { result ≡ rule_of (state_of self.old) (Update heap slot) }
        ensures state { state_of self.new ≡ after_step (state_of self.old) (Update heap slot) }
    {
        let rule = if self.is_in_use((heap, slot)) {
            Some(VkRule::V6)
        } else {
            None
        };
        self.broken = first_rule(self.broken, rule);
        rule
    }
}
