//! The contract of a device.

ghost use Rattle.std.specs.Prelude.{◌≡◌, ℕ, ◌+◌, ◌-◌, ◌^◌, ◌<◌, ◌≤◌, min, true, [], List, length, slice_get, Option, Some, None, IfSome, IsSome, IfOk, OnOk, OnErr};
ghost use Rattle.vk_port.specs.Agreement.{Agree, host_numbers};
ghost use Rattle.vk_port.specs.DeviceView.{DeviceView, Answered};
ghost use Rattle.vk_port.specs.Machine.{shown, after_stepped};
ghost use Rattle.vk_port.specs.Offers.{steps_offered, rest_taken, IsInside};
ghost use Rattle.vk_port.specs.Plans.{has_only_buffers};
ghost use Rattle.vk_port.specs.VkSteps.{enabled_steps, next_number, fits_plan};
ghost use Rattle.vk_port.specs.declared.steps.Stepped.TheVariants.{Free};
ghost use Rattle.vk_sync_rules.specs.Rules.{after_step};
ghost use Rattle.vk_sync_rules.specs.VkState.{first_state, counter_of};
ghost use Rattle.vk_types.specs.declared.steps.VkStep.TheVariants.{Submit, HostWrite, HostRead};

use crate::faults::DeviceFault;
use crate::sets::Sets;
use crate::steps::Stepped;
use vk_types::{Batch, DevicePlan};

/// A device: it makes the objects of a plan, takes batches, and runs their commands step by step in an
/// order that its caller chooses. After an error the device is as before the call.
pub trait VkDevice {
    /// What its contract says of it: its plan, the state of the Vulkan machine, the free steps that it can still take and
    /// that it offers now, and a count of its faults.
    ghost view_of: { Self → DeviceView };

    /// Makes the objects of a plan (Vulkan 1.3, 5.2), which has only buffers, queues and timelines so far.
    /// All words and timelines are 0.
    fn create(&mut self, plan: &DevicePlan) -> Result<(), DeviceFault>
        requires no_plan { (view_of self.old).plan ≡ None }
        requires new { (view_of self.old).state.journal ≡ [] }
        requires buffers { has_only_buffers plan.now ≡ true }
        ensures plan { OnOk result ((view_of self.new).plan ≡ Some plan.now) }
        ensures state { OnOk result ((view_of self.new).state ≡ first_state plan.now) }
        ensures rest { (view_of self.new).rest ≡ (view_of self.old).rest }
        ensures answered { Answered (view_of self.old) (view_of self.new) result };

    /// Appends a batch to its queue, and to the journal (Vulkan 1.3, 6.5). Its commands are barriers without a
    /// change of a layout, and copies between buffers, so far.
    fn submit(&mut self, batch: Batch) -> Result<(), DeviceFault>
        requires number { batch.number ≡ next_number batch.queue (view_of self.old).state.journal }
        requires plan { IsSome (view_of self.old).plan }
        requires fits { IfSome (view_of self.old).plan (λ plan. fits_plan plan batch ≡ true) }
        ensures state { OnOk result ((view_of self.new).state ≡ after_step (view_of self.old).state (Submit batch)) }
        ensures rest { (view_of self.new).rest ≡ (view_of self.old).rest }
        ensures answered { Answered (view_of self.old) (view_of self.new) result };

    /// The value of a timeline semaphore (Vulkan 1.3, 7.4.1).
    fn counter(&self, timeline: u32) -> u64
        requires plan { IsSome (view_of self.now).plan }
        requires timeline { timeline < length (view_of self.now).state.timelines }
        ensures { result ≡ counter_of (view_of self.now).state timeline };

    /// Words of a buffer, from the word `first` on.
    fn host_read(&mut self, buffer: u32, first: u32, count: u32) -> Result<Vec<u32>, DeviceFault>
        requires plan { IsSome (view_of self.old).plan }
        requires inside { IsInside (view_of self.old).state buffer first count }
        ensures seen { IfOk result (λ read. Agree read.items (host_numbers (view_of self.old).state buffer first count)) }
        ensures state { IfOk result (λ read. (view_of self.new).state ≡ after_step (view_of self.old).state (HostRead buffer first read.items)) }
        ensures rest { (view_of self.new).rest ≡ (view_of self.old).rest }
        ensures answered { Answered (view_of self.old) (view_of self.new) result };

    /// Writes words into a buffer, from the word `first` on.
    fn host_write(&mut self, buffer: u32, first: u32, words: &[u32]) -> Result<(), DeviceFault>
        requires plan { IsSome (view_of self.old).plan }
        requires inside { IsInside (view_of self.old).state buffer first (length words.now) }
        ensures state { OnOk result ((view_of self.new).state ≡ after_step (view_of self.old).state (HostWrite buffer first words.now)) }
        ensures rest { (view_of self.new).rest ≡ (view_of self.old).rest }
        ensures answered { Answered (view_of self.old) (view_of self.new) result };

    /// How many steps can be taken now: first those of the Vulkan machine, then the free ones. A count
    /// past the last `usize` is answered as that.
    fn enabled(&self) -> usize
        requires plan { IsSome (view_of self.now).plan }
        ensures count { result ≡ min (steps_offered (shown (view_of self.now).state) (view_of self.now).offered) (2 ^ 64 - 1) }
        ensures none_at_rest { (view_of self.now).rest ≡ 0 → (view_of self.now).offered ≡ 0 };

    /// Takes the step of that place among those that can be taken. What a command reads from descriptor
    /// sets is loaded from `sets`, which have the sizes of the plan's heaps.
    fn step<S: Sets>(&mut self, k: usize, sets: &mut S) -> Result<Stepped, DeviceFault>
        requires plan { IsSome (view_of self.old).plan }
        requires offered { k < steps_offered (shown (view_of self.old).state) (view_of self.old).offered }
        requires unread { S.given sets.old ≡ [] }
        requires sizes { IfSome (view_of self.old).plan (λ plan. S.sizes sets.old ≡ plan.heaps) }
        ensures named { k < length (enabled_steps (shown (view_of self.old).state)) → IfOk result (λ s. slice_get (enabled_steps (shown (view_of self.old).state)) k ≡ Some s) }
        ensures free { length (enabled_steps (shown (view_of self.old).state)) ≤ k → IfOk result (λ s. s ≡ Free) }
        ensures state { IfOk result (λ s. (view_of self.new).state ≡ after_stepped (view_of self.old).state s []) }
        ensures rest { IfOk result (λ s. (view_of self.old).rest ≡ (view_of self.new).rest + rest_taken s) }
        ensures loads { S.given sets.new ≡ [] }
        ensures sizes { S.sizes sets.new ≡ S.sizes sets.old }
        ensures answered { Answered (view_of self.old) (view_of self.new) result };

    /// How many free steps the device can still take.
    fn rest(&self) -> u64
        ensures { result ≡ (view_of self.now).rest };

    /// All batches that were submitted, oldest first.
    fn journal(&self) -> &[Batch]
        ensures { result.now ≡ (view_of self.now).state.journal };
}
