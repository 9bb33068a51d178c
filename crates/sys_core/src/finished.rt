//! Whether all is finished: every script has ended, no thread waits, and every queue is empty.

ghost use Rattle.std.specs.Prelude.{ℕ, ◌≡◌, ◌<◌, ◌≤◌, ◌==◌, ◌&&◌, length, slice_get, true, false, IsSome};
ghost use Rattle.d3d_machine.specs.Play.{IsFinished, state_after};
ghost use Rattle.sys_core.specs.Finished.{has_ended_at, is_empty_at, all_from};
ghost use Rattle.sys_core.specs.Keeps.{Keeps};
ghost use Rattle.vk_port.specs.Machine.{shown};

use crate::parts::Parts;
use d3d_machine::{Event, World};
use dx_base::Room;
use vk_port::VkDevice;

/// A thread has made all calls of its script, and does not wait.
fn has_ended(world: &World, parts: &Parts, thread: usize) -> bool
    requires seats { thread < length parts.now.seats }
    requires scripts { thread < length world.now.scripts }
    ensures { result ≡ has_ended_at world.now parts.now.seats thread }
{
    let seat = *parts.seats.at(thread);
    match seat.waits {
        None => seat.made == world.scripts.at(thread).len(),
        Some(_) => false,
    }
}

/// All operations that were called on a queue are complete.
fn is_empty<D: VkDevice>(parts: &Parts, device: &D, queue: usize) -> bool
    requires plan { IsSome (D.view_of device.now).plan }
    requires held { queue < length parts.now.held }
    requires few { length parts.now.held ≤ 16 }
    requires timeline { queue < length (D.view_of device.now).state.timelines }
    ensures { result ≡ is_empty_at parts.now.held (shown (D.view_of device.now).state) queue }
{
    let held = parts.held.at(queue);
    held.operations.is_empty() && device.counter(queue as u32) == held.submitted
}

/// Every thread has ended.
fn have_ended(world: &World, parts: &Parts) -> bool
    requires seats { length parts.now.seats ≡ length world.now.scripts }
    ensures { result ≡ all_from (has_ended_at world.now parts.now.seats) 0 (length world.now.scripts) }
{
    for thread in 0..world.scripts.len() {
        if !has_ended(world, parts, thread) {
            return false;
        }
    }
    true
}

/// Every queue is empty.
fn are_empty<D: VkDevice>(parts: &Parts, device: &D) -> bool
    requires plan { IsSome (D.view_of device.now).plan }
    requires few { length parts.now.held ≤ 16 }
    requires timelines { length parts.now.held ≤ length (D.view_of device.now).state.timelines }
    ensures { result ≡ all_from (is_empty_at parts.now.held (shown (D.view_of device.now).state)) 0 (length parts.now.held) }
{
    for queue in 0..parts.held.len() {
        if !is_empty(parts, device, queue) {
            return false;
        }
    }
    true
}

/// Every script has ended, no thread waits, and every queue is empty.
pub(crate) fn is_finished<D: VkDevice>(
    world: &World,
    history: &Room<Event>,
    parts: &Parts,
    device: &D,
) -> bool
    requires keeps { Keeps world.now history.now.items parts.now (D.view_of device.now) }
    ensures yes { result ≡ true → IsFinished world.now (state_after world.now history.now.items).desk }
    ensures no { result ≡ false → IsFinished world.now (state_after world.now history.now.items).desk → ⊥ }
{
    let _events = history.len();
    have_ended(world, parts) && are_empty(parts, device)
}
