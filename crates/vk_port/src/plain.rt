//! A device without caches and without free steps.

ghost use Rattle.std.specs.Prelude.{◌≡◌, ◌<◌, ◌≤◌, ◌+◌, true, [], List, length, slice_get, Option, Some, None, IfSome, IsSome, IfOk, OnOk, OnErr};
ghost use Rattle.std.proofs.Props.{props};
ghost use Rattle.vk_port.specs.Agreement.{Agree, AgreeEach-prop, host_numbers};
ghost use Rattle.vk_port.specs.DeviceView.{Answered};
ghost use Rattle.vk_port.specs.Lost.{CountsCall};
ghost use Rattle.vk_port.specs.Machine.{shown, after_stepped};
ghost use Rattle.vk_port.specs.Offers.{steps_offered, rest_taken, IsInside};
ghost use Rattle.vk_port.specs.Plans.{has_only_buffers};
ghost use Rattle.vk_port.specs.Tied.{IsTied};
ghost use Rattle.vk_port.specs.VkSteps.{enabled_steps, next_number, fits_plan};
ghost use Rattle.vk_port.specs.declared.steps.Stepped.TheVariants.{Free};
ghost use Rattle.vk_sync_rules.specs.Rules.{after_step};
ghost use Rattle.vk_sync_rules.specs.VkState.{first_state};
ghost use Rattle.vk_types.specs.declared.steps.VkStep.TheVariants.{Submit, HostWrite, HostRead};

use crate::calls::Calls;
use crate::device::VkDevice;
use crate::faults::DeviceFault;
use crate::found::Found;
use crate::kept::{Kept, Note};
use crate::sets::Sets;
use crate::steps::Stepped;
use crate::store::Store;
use crate::words::copy_at;
use dx_base::Seq;
use std::alloc::Global;
use vk_types::{Batch, DevicePlan};

/// A device without caches and without free steps: a command's step does its accesses at once.
#[derive(Drop)]
pub struct PlainDevice {
    alloc: Global,
    store: Store,
    calls: Calls,
    kept: Kept,
    ghost tied: { IsTied store kept } by { Prim.hlevel (AgreeEach-prop, props) },
}

impl PlainDevice {
    ghost use Rattle.vk_port.specs.DeviceView.{no_view};

    /// A new device, which has no plan, and to which nothing was submitted. `fails` are the numbers of the
    /// calls that answer `Lost`: of all calls of `create`, `submit`, `host_read`, `host_write` and `step`,
    /// counted together from 1.
    pub fn new(alloc: Global, fails: Vec<u64>) -> PlainDevice
        ensures view { ⟦<PlainDevice as VkDevice>⟧.view_of result ≡ no_view }
        ensures fails { result.calls.fails ≡ fails.items }
        ensures made { result.calls.made ≡ 0 }
    {
        PlainDevice {
            alloc,
            store: Store::empty(alloc),
            calls: Calls {
                fails: Seq::from_vec(fails),
                made: 0,
                faults: 0,
            },
            kept: Kept::new(),
        }
    }
}

impl VkDevice for PlainDevice {
    ghost use Rattle.vk_port.specs.Plain.{view_of};

    ghost view_of = { view_of };

    fn create(&mut self, plan: &DevicePlan) -> Result<(), DeviceFault>
        requires no_plan { (view_of self.old).plan ≡ None }
        requires new { (view_of self.old).state.journal ≡ [] }
        requires buffers { has_only_buffers plan.now ≡ true }
        ensures plan { OnOk result ((view_of self.new).plan ≡ Some plan.now) }
        ensures state { OnOk result ((view_of self.new).state ≡ first_state plan.now) }
        ensures rest { (view_of self.new).rest ≡ (view_of self.old).rest }
        ensures answered { Answered (view_of self.old) (view_of self.new) result }
        ensures counts { CountsCall self.old.calls self.new.calls result }
    {
        self.calls.begin()?;
        let store = Store::new(self.alloc, plan)?;
        let kept = self.kept.then(&Note::Create(plan));
        self.store = store;
        self.kept = kept;
        Ok(())
    }

    fn submit(&mut self, batch: Batch) -> Result<(), DeviceFault>
        requires number { batch.number ≡ next_number batch.queue (view_of self.old).state.journal }
        requires plan { IsSome (view_of self.old).plan }
        requires fits { IfSome (view_of self.old).plan (λ plan. fits_plan plan batch ≡ true) }
        ensures state { OnOk result ((view_of self.new).state ≡ after_step (view_of self.old).state (Submit batch)) }
        ensures rest { (view_of self.new).rest ≡ (view_of self.old).rest }
        ensures answered { Answered (view_of self.old) (view_of self.new) result }
        ensures counts { CountsCall self.old.calls self.new.calls result }
    {
        self.calls.begin()?;
        let kept = self.kept.then(&Note::Submit(&batch));
        self.store.submit(self.alloc, batch)?;
        self.kept = kept;
        Ok(())
    }

    fn counter(&self, timeline: u32) -> u64 {
        self.store.progress.value(timeline)
    }

    fn host_read(&mut self, buffer: u32, first: u32, count: u32) -> Result<Vec<u32>, DeviceFault>
        requires plan { IsSome (view_of self.old).plan }
        requires inside { IsInside (view_of self.old).state buffer first count }
        ensures seen { IfOk result (λ read. Agree read.items (host_numbers (view_of self.old).state buffer first count)) }
        ensures state { IfOk result (λ read. (view_of self.new).state ≡ after_step (view_of self.old).state (HostRead buffer first read.items)) }
        ensures rest { (view_of self.new).rest ≡ (view_of self.old).rest }
        ensures answered { Answered (view_of self.old) (view_of self.new) result }
        ensures counts { CountsCall self.old.calls self.new.calls result }
    {
        self.calls.begin()?; // A read is lost too, though it changes nothing.
        let words = copy_at(self.alloc, &self.store.words, buffer, first, count)?;
        self.kept = self
            .kept
            .then(&Note::HostRead(buffer, first, words.as_slice()));
        Ok(words)
    }

    fn host_write(&mut self, buffer: u32, first: u32, words: &[u32]) -> Result<(), DeviceFault>
        requires plan { IsSome (view_of self.old).plan }
        requires inside { IsInside (view_of self.old).state buffer first (length words.now) }
        ensures state { OnOk result ((view_of self.new).state ≡ after_step (view_of self.old).state (HostWrite buffer first words.now)) }
        ensures rest { (view_of self.new).rest ≡ (view_of self.old).rest }
        ensures answered { Answered (view_of self.old) (view_of self.new) result }
        ensures counts { CountsCall self.old.calls self.new.calls result }
    {
        self.calls.begin()?;
        self.store.write(buffer, first, words);
        self.kept = self.kept.then(&Note::HostWrite(buffer, first, words));
        Ok(())
    }

    fn enabled(&self) -> usize {
        self.store.ready
    }

    fn step<S: Sets>(&mut self, k: usize, _sets: &mut S) -> Result<Stepped, DeviceFault>
        requires plan { IsSome (view_of self.old).plan }
        requires offered { k < steps_offered (shown (view_of self.old).state) (view_of self.old).offered }
        requires unread { S.given _sets.old ≡ [] }
        requires sizes { IfSome (view_of self.old).plan (λ plan. S.sizes _sets.old ≡ plan.heaps) }
        ensures named { k < length (enabled_steps (shown (view_of self.old).state)) → IfOk result (λ s. slice_get (enabled_steps (shown (view_of self.old).state)) k ≡ Some s) }
        ensures free { length (enabled_steps (shown (view_of self.old).state)) ≤ k → IfOk result (λ s. s ≡ Free) }
        ensures state { IfOk result (λ s. (view_of self.new).state ≡ after_stepped (view_of self.old).state s []) }
        ensures rest { IfOk result (λ s. (view_of self.old).rest ≡ (view_of self.new).rest + rest_taken s) }
        ensures loads { S.given _sets.new ≡ [] }
        ensures sizes { S.sizes _sets.new ≡ S.sizes _sets.old }
        ensures answered { Answered (view_of self.old) (view_of self.new) result }
        ensures counts { CountsCall self.old.calls self.new.calls result }
    {
        self.calls.begin()?;
        match self.store.find(k) {
            Found::Left(_) => unreachable!(),
            Found::At(step) => {
                self.store.take(self.alloc, step)?;
                self.kept = self.kept.then(&Note::Step(step, &[]));
                Ok(step)
            }
        }
    }

    fn rest(&self) -> u64 {
        0
    }

    fn journal(&self) -> &[Batch] {
        self.store.progress.batches()
    }
}
