//! The steps that can be taken, by their places.

ghost use Rattle.std.specs.Prelude.{◌≡◌, ◌<◌, ◌≤◌, map, length, slice_get, Some, IsSome};
ghost use Rattle.dx_base.specs.declared.steps.Step.TheVariants as step;
ghost use Rattle.sys_core.specs.Parts.{updates_in};
ghost use Rattle.sys_core.specs.Nth.{ready_at, holds_at, IsNth};
ghost use Rattle.verdicts.specs.declared.rules.Verdict.TheVariants.{Clean};
ghost use Rattle.sys_core.specs.Steps.{steps_where, enabled_of, numbered};
ghost use Rattle.sys_core.specs.Keeps.{Keeps};
ghost use Rattle.sys_core.specs.WaitSearches.{AreSearched};
ghost use Rattle.vk_port.specs.Machine.{shown};
ghost use Rattle.vk_port.specs.Offers.{steps_offered};

use crate::parts::Parts;
use crate::threads::is_ready;
use d3d_machine::{Event, World};
use dx_base::{Room, Step};
use vk_port::VkDevice;

/// How many steps of the device have a number: a step names its place by 32 bits.
const NUMBERED: usize = 1 << 32;

/// How many threads can go on.
fn ready_threads(world: &World, parts: &Parts) -> usize
    requires seats { length parts.now.seats ≡ length world.now.scripts }
    requires few { length world.now.scripts ≤ 16 }
    requires searched { AreSearched (map updates_in parts.now.fences) parts.now.seats }
    ensures { result ≡ length (steps_where (ready_at world.now (map updates_in parts.now.fences) parts.now.seats) step.Thread 0 (length world.now.scripts)) }
{
    let mut count = 0;
    for thread in 0..world.scripts.len() {
        if is_ready(world, parts, thread) {
            count += 1;
        }
    }
    count
}

/// How many queues have an operation that is not submitted.
fn holding_queues(world: &World, parts: &Parts) -> usize
    requires held { length parts.now.held ≡ length world.now.queues }
    requires few { length world.now.queues ≤ 16 }
    ensures { result ≡ length (steps_where (holds_at parts.now.held) step.Worker 0 (length world.now.queues)) }
{
    let mut count = 0;
    for queue in 0..world.queues.len() {
        if !parts.held.at(queue).operations.is_empty() {
            count += 1;
        }
    }
    count
}

/// How many steps of the device can be taken that have a number.
fn device_steps<D: VkDevice>(device: &D) -> usize
    requires plan { IsSome (D.view_of device.now).plan }
    ensures count { result ≡ numbered (steps_offered (shown (D.view_of device.now).state) (D.view_of device.now).offered) }
    ensures none_at_rest { (D.view_of device.now).rest ≡ 0 → (D.view_of device.now).offered ≡ 0 }
{
    device.enabled().min(NUMBERED)
}

/// How many steps can be taken.
pub(crate) fn count_steps<D: VkDevice>(
    world: &World,
    history: &Room<Event>,
    parts: &Parts,
    device: &D,
) -> usize
    requires keeps { Keeps world.now history.now.items parts.now (D.view_of device.now) }
    ensures count { result ≡ length (enabled_of world.now history.now.items Clean (shown (D.view_of device.now).state) (D.view_of device.now).offered) }
    ensures none_at_rest { (D.view_of device.now).rest ≡ 0 → (D.view_of device.now).offered ≡ 0 }
{
    let _events = history.len();
    ready_threads(world, parts) + (holding_queues(world, parts) + device_steps(device))
}

/// Among the threads that can go on, by number, that of a place counted from 0; or how many places it is behind the
/// last.
fn nth_thread(world: &World, parts: &Parts, k: usize) -> Result<Step, usize>
    requires seats { length parts.now.seats ≡ length world.now.scripts }
    requires few { length world.now.scripts ≤ 16 }
    requires searched { AreSearched (map updates_in parts.now.fences) parts.now.seats }
    ensures { IsNth (steps_where (ready_at world.now (map updates_in parts.now.fences) parts.now.seats) step.Thread 0 (length world.now.scripts)) k result }
{
    let mut left = k;
    for thread in 0..world.scripts.len() {
        if is_ready(world, parts, thread) {
            if left == 0 {
                return Ok(Step::Thread(thread as u32));
            }
            left -= 1;
        }
    }
    Err(left)
}

/// The same among the queues with an operation that is not submitted.
fn nth_worker(world: &World, parts: &Parts, k: usize) -> Result<Step, usize>
    requires held { length parts.now.held ≡ length world.now.queues }
    requires few { length world.now.queues ≤ 16 }
    ensures { IsNth (steps_where (holds_at parts.now.held) step.Worker 0 (length world.now.queues)) k result }
{
    let mut left = k;
    for queue in 0..world.queues.len() {
        if !parts.held.at(queue).operations.is_empty() {
            if left == 0 {
                return Ok(Step::Worker(queue as u32));
            }
            left -= 1;
        }
    }
    Err(left)
}

/// The step of a place among those that can be taken, counted from 0: threads come first, then workers, then the
/// device.
pub(crate) fn nth_step<D: VkDevice>(
    world: &World,
    history: &Room<Event>,
    parts: &Parts,
    device: &D,
    k: usize,
) -> Step
    requires keeps { Keeps world.now history.now.items parts.now (D.view_of device.now) }
    requires within { k < length (enabled_of world.now history.now.items Clean (shown (D.view_of device.now).state) (D.view_of device.now).offered) }
    ensures { slice_get (enabled_of world.now history.now.items Clean (shown (D.view_of device.now).state) (D.view_of device.now).offered) k ≡ Some result }
{
    let _events = history.len();
    let _device = device;
    let behind = match nth_thread(world, parts, k) {
        Ok(step) => return step,
        Err(left) => left,
    };
    match nth_worker(world, parts, behind) {
        Ok(step) => step,
        Err(left) => Step::Device(left as u32),
    }
}
