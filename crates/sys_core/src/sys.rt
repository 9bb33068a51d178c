//! The system as a whole, and its steps.

ghost use Rattle.std.specs.Prelude.{◌≡◌, ◌<◌, ◌≤◌, [], length, slice_get, true, None, Some, IfOk, IfErr, OnOk, OnErr};
ghost use Rattle.d3d_machine.specs.World.{IsWorld, HasOneQueueAtMost};
ghost use Rattle.d3d_machine.specs.Play.{state_after};
ghost use Rattle.dx_base.specs.declared.steps.Step.TheVariants as step;
ghost use Rattle.sys_core.specs.Ahead.{IsWhole};
ghost use Rattle.sys_core.specs.Answered.{HasAnswered, HasCause};
ghost use Rattle.sys_core.specs.Goes.{WasTaken, AreRefusalsIdle, Stays, state_of};
ghost use Rattle.sys_core.specs.Keeps.{Keeps, IsSystem};
ghost use Rattle.sys_core.specs.Opened.{opened, IsUnopened, IsGivenBack};
ghost use Rattle.sys_core.specs.Over.{IsOver};
ghost use Rattle.sys_core.specs.Lowering.{plan_of_world, opening_batches, startup};
ghost use Rattle.verdicts.specs.declared.rules.Verdict.TheVariants.{Clean};
ghost use Rattle.sys_core.specs.Steps.{after_submits, enabled_of, is_ready_thread, is_ready_worker};
ghost use Rattle.vk_port.specs.Machine.{shown};
ghost use Rattle.vk_port.specs.Offers.{steps_offered};
ghost use Rattle.vk_sync_rules.specs.VkState.{first_state};

use crate::faults::SysFault;
use crate::fences::last_values;
use crate::finished::is_finished;
use crate::lowering::{plan_of, startup_batch};
use crate::nth::{count_steps, nth_step};
use crate::over::Over;
use crate::parts::Parts;
use crate::waits::search_waits;
use crate::{device_steps, threads, worker};
use d3d_machine::{Event, World};
use dx_base::{Memory, QueueId, Room, Seq, Step, ThreadId};
use std::alloc::Global;
use std::marker::Model;
use vk_port::{Batch, VkDevice};

/// The system: it serves the calls of the threads of a world, and runs a device. Contracts see its world, its history
/// and its device. The history is a run of the world but for words, and the device has the batches that its operations
/// lower to. How many steps can be taken is counted once behind each step.
#[derive(Drop)]
pub struct Sys<D: VkDevice> {
    alloc: Global,
    world: World,
    history: Room<Event>,
    parts: Parts,
    device: D,
    enabled: usize,
}

impl<D: VkDevice> Model for Sys<D> {
    ghost use Rattle.sys_core.specs.Keeps.{SysView, IsSys};

    ghost Value = { SysView D };

    ghost view = { λ s. record { world = s.world; history = s.history.items; device = D.view_of s.device; itself = s.device } };

    ghost invariant = { λ s. IsSys s.world s.history.items s.parts (D.view_of s.device) s.enabled };
}

/// Submits the start-up batch, where there is a queue.
fn submit_startup<D: VkDevice>(world: &World, device: &mut D, batch: Batch) -> Result<(), SysFault>
    requires plan { (D.view_of device.old).plan ≡ Some (plan_of_world world.now) }
    requires objects { (D.view_of device.old).state ≡ first_state (plan_of_world world.now) }
    requires batch { batch ≡ startup world.now }
    ensures state { OnOk result ((D.view_of device.new).state ≡ after_submits (D.view_of device.old).state (opening_batches world.now)) }
    ensures rest { (D.view_of device.new).rest ≡ (D.view_of device.old).rest }
    ensures answered { HasAnswered (D.view_of device.old) (D.view_of device.new) result }
{
    if world.queues.is_empty() {
        return Ok(());
    }
    device.submit(batch)?;
    Ok(())
}

/// The parts of a world before any call. The device gets the world's objects and the start-up batch.
fn begin<D: VkDevice>(alloc: Global, world: &World, device: &mut D) -> Result<Parts, SysFault>
    requires world { IsWorld world.now }
    requires no_plan { (D.view_of device.old).plan ≡ None }
    requires new { (D.view_of device.old).state.journal ≡ [] }
    ensures keeps { IfOk result (λ parts. Keeps world.now [] parts (D.view_of device.new)) }
    ensures whole { OnOk result (IsWhole world.now [] (D.view_of device.new).state) }
    ensures opened { OnOk result ((D.view_of device.new).state ≡ opened world.now) }
    ensures rest { (D.view_of device.new).rest ≡ (D.view_of device.old).rest }
    ensures no_batch { OnErr result ((D.view_of device.new).state.journal ≡ []) }
    ensures unopened { OnErr result (IsUnopened world.now (D.view_of device.new)) }
    ensures faults { (D.view_of device.old).faults ≤ (D.view_of device.new).faults }
    ensures cause { HasCause (D.view_of device.old).faults (D.view_of device.new).faults result }
{
    let parts = Parts::new(alloc, world)?;
    let plan = plan_of(alloc, world)?;
    let startup = startup_batch(alloc, world)?;
    device.create(&plan)?;
    submit_startup(world, device, startup)?;
    Ok(parts)
}

/// Looks at what came for the waits of threads, and counts the steps that can be taken.
#[tactic(auto, using(crate::proofs::Keeping::keeps_searched))]
fn settle<D: VkDevice>(world: &World, history: &Room<Event>, parts: &mut Parts, device: &D) -> usize
    requires { Keeps world.now history.now.items parts.old (D.view_of device.now) }
    ensures count { result ≡ length (enabled_of world.now history.now.items Clean (shown (D.view_of device.now).state) (D.view_of device.now).offered) }
    ensures none_at_rest { (D.view_of device.now).rest ≡ 0 → (D.view_of device.now).offered ≡ 0 }
    ensures keeps { Keeps world.now history.now.items parts.new (D.view_of device.now) }
{
    search_waits(&mut parts.seats, &parts.fences);
    count_steps(world, history, parts, device)
}

impl<D: VkDevice> Sys<D> {
    /// The system of a world before any call. The device is new; it gets the world's objects and the start-up batch.
    /// Refused, it is given back without a batch, and with no plan, or with the world's objects as they are at first.
    pub fn new(alloc: Global, world: World, device: D) -> Result<Sys<D>, (D, SysFault)>
        requires world { IsWorld world }
        requires queues { HasOneQueueAtMost world }
        requires no_plan { (D.view_of device).plan ≡ None }
        requires new { (D.view_of device).state.journal ≡ [] }
        ensures world { IfOk result (λ sys. sys.world ≡ world) }
        ensures history { IfOk result (λ sys. sys.history ≡ []) }
        ensures opened { IfOk result (λ sys. sys.device.state ≡ opened world) }
        ensures system { IfOk result (λ sys. IsSystem sys.world sys.history sys.device.state) }
        ensures whole { IfOk result (λ sys. IsWhole sys.world sys.history sys.device.state) }
        ensures rest { IfOk result (λ sys. sys.device.rest ≡ (D.view_of device).rest) }
        ensures faults { IfOk result (λ sys. (D.view_of device).faults ≤ sys.device.faults) }
        ensures given_back { IfErr result (λ p. IsGivenBack world (D.view_of device) (D.view_of p.0) p.1) }
    {
        let mut device = device;
        match begin(alloc, &world, &mut device) {
            Ok(parts) => {
                let history = Room::new(alloc);
                let enabled = count_steps(&world, &history, &parts, &device);
                Ok(Sys {
                    alloc,
                    world,
                    history,
                    parts,
                    device,
                    enabled,
                })
            }
            Err(fault) => Err((device, fault)),
        }
    }

    /// How many steps can be taken. A device that has no free step left to take offers none.
    pub fn enabled(&self) -> usize
        ensures count { result ≡ length (enabled_of self.now.world self.now.history Clean (shown self.now.device.state) self.now.device.offered) }
        ensures none_at_rest { self.now.device.rest ≡ 0 → self.now.device.offered ≡ 0 }
    {
        self.enabled
    }

    /// The step of a place among those that can be taken, counted from 0: threads come first, then workers, then the
    /// device's steps, each by number.
    pub fn kth(&self, k: usize) -> Step
        requires { k < length (enabled_of self.now.world self.now.history Clean (shown self.now.device.state) self.now.device.offered) }
        ensures { slice_get (enabled_of self.now.world self.now.history Clean (shown self.now.device.state) self.now.device.offered) k ≡ Some result }
    {
        nth_step(&self.world, &self.history, &self.parts, &self.device, k)
    }

    /// A thread's step: it wakes where it waits, and otherwise makes its next call. A call that is answered by an error
    /// has no other effect. Refused, all stays.
    pub fn thread_step(&mut self, thread: ThreadId) -> Result<(), SysFault>
        requires { is_ready_thread self.old.world self.old.history thread.0 ≡ true }
        ensures taken { OnOk result (WasTaken (step.Thread thread.0) self.old self.new) }
        ensures refusals { OnOk result (AreRefusalsIdle self.old.world (state_of self.old) (state_of self.new)) }
        ensures system { IsSystem self.new.world self.new.history self.new.device.state }
        ensures whole { IsWhole self.new.world self.new.history self.new.device.state }
        ensures stays { OnErr result (Stays self.old self.new) }
        ensures answered { HasAnswered self.old.device self.new.device result }
    {
        let taken = threads::thread_step(
            self.alloc,
            &self.world,
            &mut self.history,
            &mut self.parts,
            &mut self.device,
            thread,
        );
        self.enabled = settle(&self.world, &self.history, &mut self.parts, &self.device);
        taken
    }

    /// A step of a queue's worker: the batch of its next operation is submitted. Refused, all stays.
    pub fn worker_step(&mut self, queue: QueueId) -> Result<(), SysFault>
        requires queue { queue.0 < length self.old.world.queues }
        requires ready { is_ready_worker self.old.world self.old.history (shown self.old.device.state) queue.0 ≡ true }
        ensures taken { OnOk result (WasTaken (step.Worker queue.0) self.old self.new) }
        ensures system { IsSystem self.new.world self.new.history self.new.device.state }
        ensures whole { IsWhole self.new.world self.new.history self.new.device.state }
        ensures stays { OnErr result (Stays self.old self.new) }
        ensures answered { HasAnswered self.old.device self.new.device result }
    {
        let taken = worker::worker_step(
            self.alloc,
            &self.world,
            &self.history,
            &mut self.parts,
            &mut self.device,
            queue,
        );
        self.enabled = settle(&self.world, &self.history, &mut self.parts, &self.device);
        taken
    }

    /// A step of the device, of that place among those that it offers, counted from 0. Refused, all stays.
    pub fn device_step(&mut self, k: usize) -> Result<(), SysFault>
        requires { k < steps_offered (shown self.old.device.state) self.old.device.offered }
        ensures taken { OnOk result (WasTaken (step.Device k) self.old self.new) }
        ensures system { IsSystem self.new.world self.new.history self.new.device.state }
        ensures whole { IsWhole self.new.world self.new.history self.new.device.state }
        ensures stays { OnErr result (Stays self.old self.new) }
        ensures answered { HasAnswered self.old.device self.new.device result }
    {
        let taken = device_steps::device_step(
            &self.world,
            &mut self.history,
            &mut self.parts,
            &mut self.device,
            k,
        );
        self.enabled = settle(&self.world, &self.history, &mut self.parts, &self.device);
        taken
    }

    /// How far the system has come.
    pub fn over(&self) -> Over
        ensures over { IsOver self.now.world self.now.history Clean (shown self.now.device.state) self.now.device.offered result }
        ensures system { IsSystem self.now.world self.now.history self.now.device.state }
    {
        if is_finished(&self.world, &self.history, &self.parts, &self.device) {
            Over::Done
        } else if self.enabled == 0 {
            Over::Stalled
        } else {
            Over::Running
        }
    }

    /// What happened so far.
    pub fn history(&self) -> &[Event]
        ensures { result.now ≡ self.now.history }
    {
        self.history.as_slice()
    }

    /// The value of each fence.
    pub fn fences(&self) -> Result<Seq<u64>, Memory>
        ensures { IfOk result (λ values. values ≡ (state_after self.now.world self.now.history).desk.fences) }
    {
        last_values(self.alloc, self.parts.fences.as_slice())
    }

    /// The device.
    pub fn into_device(self) -> D
        ensures itself { result ≡ self.itself }
        ensures device { D.view_of result ≡ self.device }
    {
        self.device
    }

    /// What happened, and the device.
    pub fn into_parts(self) -> (Vec<Event>, D)
        ensures history { result.0.items ≡ self.history }
        ensures itself { result.1 ≡ self.itself }
        ensures device { D.view_of result.1 ≡ self.device }
    {
        (self.history.into_vec(), self.device)
    }
}
