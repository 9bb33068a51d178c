//! Steps of the device.

ghost use Rattle.std.specs.Prelude.{◌≡◌, ◌<◌, ◌+◌, ◌^◌, ◌++◌, ◌∷◌, [], map, length, true, slice_get, slice_index_or, Some, None, IfOk, OnOk, OnErr, IsSome, IfSome};
ghost use Rattle.dx_base.specs.Lists.{changed_at};
ghost use Rattle.sys_core.specs.Parts.{queued, updates_in, signal_at, without, updated_by, first_signal, HasRoomFor, HasRoomForEach, KeepsRoom};
ghost use Rattle.sys_core.specs.Steps.{step_events, IsDeviceStep};
ghost use Rattle.sys_core.specs.Answered.{HasAnswered};
ghost use Rattle.sys_core.specs.Keeps.{Keeps};
ghost use Rattle.vk_port.specs.Machine.{shown};
ghost use Rattle.vk_port.specs.Offers.{steps_offered};
ghost use Rattle.dx_base.specs.declared.steps.Step.TheVariants as step;
ghost use Rattle.sys_core.specs.StepCount.{rest_used};
ghost use Rattle.sys_core.specs.declared.parts.Held.{Held};

use crate::faults::SysFault;
use crate::fences::{push_update, reserve_update_of};
use crate::parts::{Held, Parts, Signalled};
use d3d_machine::{Event, World};
use dx_base::{Memory, QueueId, Room, Seq};
use vk_port::{NoSets, Stepped, VkDevice};

/// The first submitted signal of a queue, where its operation has that number, is taken out.
fn take_signal(held: &mut Held, number: u64) -> Option<Signalled>
    ensures signal { result ≡ signal_at number (queued held.old) }
    ensures rest { queued held.new ≡ without result (queued held.old) }
{
    match held.signals.front() {
        Some(signal) => {
            if signal.number != number {
                return None;
            }
        }
        None => return None,
    }
    held.signals.pop()
}

/// Makes room for one update of the fence that a queue's first submitted signal is of.
#[tactic(auto, using(crate::proofs::Updates::room_same))]
fn reserve_update(held: &Held, fences: &mut Seq<Room<u64>>) -> Result<(), Memory>
    ensures room { OnOk result (HasRoomFor (first_signal (queued held.now)) fences.new) }
    ensures kept { OnOk result (KeepsRoom fences.old fences.new) }
    ensures same { map updates_in fences.new ≡ map updates_in fences.old }
{
    match held.signals.front() {
        Some(signal) => reserve_update_of(fences, signal.fence),
        None => Ok(()),
    }
}

/// Makes room for one update of the fence of each queue's first submitted signal.
#[tactic(auto, using(crate::proofs::Updates::room_none, crate::proofs::Updates::room_more))]
fn reserve_updates(held: &Seq<Held>, fences: &mut Seq<Room<u64>>) -> Result<(), Memory>
    ensures room { OnOk result (HasRoomForEach held.now fences.new) }
    ensures same { map updates_in fences.new ≡ map updates_in fences.old }
{
    for queue in held.as_slice() {
        reserve_update(queue, fences)?;
    }
    Ok(())
}

/// The signal that has completed, where one has, gives its fence its value. There is room for it.
fn update_by(fences: &mut Seq<Room<u64>>, signal: Option<Signalled>)
    requires { HasRoomFor signal fences.old }
    ensures { map updates_in fences.new ≡ updated_by signal (map updates_in fences.old) }
{
    match signal {
        Some(signal) => push_update(fences, signal.fence, signal.value),
        None => (),
    }
}

/// A step of the device. Refused, all stays but room.
pub(crate) fn device_step<D: VkDevice>(
    world: &World,
    history: &mut Room<Event>,
    parts: &mut Parts,
    device: &mut D,
    k: usize,
) -> Result<(), SysFault>
    requires keeps { Keeps world.now history.old.items parts.old (D.view_of device.old) }
    requires offered { k < steps_offered (shown (D.view_of device.old).state) (D.view_of device.old).offered }
    ensures keeps { Keeps world.now history.new.items parts.new (D.view_of device.new) }
    ensures step { OnOk result (IsDeviceStep history.old.items history.new.items (D.view_of device.old).state (D.view_of device.new).state k) }
    ensures rest { OnOk result ((D.view_of device.old).rest ≡ (D.view_of device.new).rest + rest_used (shown (D.view_of device.old).state) (step.Device k)) }
    ensures same { OnErr result (history.new.items ≡ history.old.items) }
    ensures answered { HasAnswered (D.view_of device.old) (D.view_of device.new) result }
{
    let _queues = world.queues.len();
    history.reserve()?;
    reserve_updates(&parts.held, &mut parts.fences)?;
    match device.step(k, &mut NoSets)? {
        Stepped::Passed(_, _) => Ok(()),
        Stepped::Ran(_, _, _) => Ok(()),
        Stepped::Bumped(queue, number) => {
            if number == 0 {
                return Ok(());
            }
            let signal = take_signal(parts.held.at_mut(queue as usize), number);
            update_by(&mut parts.fences, signal);
            history.push_reserved(Event::Queue(QueueId(queue)));
            Ok(())
        }
        Stepped::Free => Ok(()),
    }
}
