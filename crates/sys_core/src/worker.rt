//! Steps of a queue's worker.

ghost use Rattle.std.specs.Prelude.{◌≡◌, ◌<◌, ◌≤◌, ◌+◌, ◌^◌, ◌++◌, ◌∷◌, [], map, length, true, slice_get, Some, None, IfOk, OnOk, OnErr, IsSome, IfSome};
ghost use Rattle.dx_base.specs.Lists.{changed_at};
ghost use Rattle.d3d_machine.specs.World.{HasOneQueueAtMost};
ghost use Rattle.sys_core.specs.Batches.{batch_by, is_numbered_operation};
ghost use Rattle.sys_core.specs.Lowering.{AreNumbers};
ghost use Rattle.sys_core.specs.Parts.{queued, submitted_one, signal_of};
ghost use Rattle.sys_core.specs.Steps.{is_ready_worker, submitted_batches, after_submits};
ghost use Rattle.vk_port.specs.Machine.{shown};
ghost use Rattle.sys_core.specs.Answered.{HasAnswered};
ghost use Rattle.sys_core.specs.Keeps.{Keeps};

use crate::faults::SysFault;
use crate::lowering::batch_of;
use crate::parts::{Held, Parts, Signalled};
use d3d_machine::{Event, Operation, World};
use dx_base::{Memory, QueueId, Room, Seq};
use std::alloc::Global;
use vk_port::{Batch, VkDevice};

/// The batch of a queue's next operation, with room for its signal.
fn next_batch(
    alloc: Global,
    world: &World,
    numbers: &Seq<u32>,
    held: &mut Held,
    queue: QueueId,
) -> Result<Batch, Memory>
    requires queues { length world.now.queues ≤ 16 }
    requires numbers { AreNumbers world.now.resources numbers.now }
    requires next { IsSome (slice_get held.old.operations.items 0) }
    requires numbered { IfSome (slice_get held.old.operations.items 0) (λ o. is_numbered_operation world.now o ≡ true) }
    requires number { held.old.submitted + 1 < 2 ^ 64 }
    ensures batch { IfOk result (λ batch. IfSome (slice_get held.old.operations.items 0) (λ o. batch ≡ batch_by world.now queue.0 (held.old.submitted + 1) held.old.last_signal o)) }
    ensures room { OnOk result (1 ≤ held.new.signals.spare) }
    ensures same { queued held.new ≡ queued held.old }
{
    held.signals.reserve()?;
    match held.operations.front() {
        Some(operation) => batch_of(
            alloc,
            world,
            numbers,
            queue.0,
            held.submitted + 1,
            held.last_signal,
            operation,
        ),
        None => unreachable!(),
    }
}

/// Counts the queue's next operation as submitted. There is room for its signal.
fn count_submitted(held: &mut Held)
    requires next { IsSome (slice_get held.old.operations.items 0) }
    requires room { 1 ≤ held.old.signals.spare }
    requires number { held.old.submitted + 1 < 2 ^ 64 }
    ensures { IfSome (slice_get held.old.operations.items 0) (λ o. queued held.new ≡ submitted_one o (queued held.old)) }
{
    let number = held.submitted + 1;
    held.submitted = number;
    match held.operations.pop() {
        Some(Operation::Signal { fence, value }) => {
            held.last_signal = number;
            held.signals.push_reserved(Signalled {
                number,
                fence,
                value,
            });
        }
        Some(Operation::Execute { commands: _ }) => (),
        None => unreachable!(),
    }
}

/// A step of a queue's worker: the batch of its next operation is submitted. Refused, all stays but room.
pub(crate) fn worker_step<D: VkDevice>(
    alloc: Global,
    world: &World,
    history: &Room<Event>,
    parts: &mut Parts,
    device: &mut D,
    queue: QueueId,
) -> Result<(), SysFault>
    requires keeps { Keeps world.now history.now.items parts.old (D.view_of device.old) }
    requires queues { HasOneQueueAtMost world.now }
    requires queue { queue.0 < length world.now.queues }
    requires ready { is_ready_worker world.now history.now.items (shown (D.view_of device.old).state) queue.0 ≡ true }
    ensures keeps { Keeps world.now history.now.items parts.new (D.view_of device.new) }
    ensures state { OnOk result ((D.view_of device.new).state ≡ after_submits (D.view_of device.old).state (submitted_batches world.now history.now.items (shown (D.view_of device.old).state) queue.0)) }
    ensures rest { (D.view_of device.new).rest ≡ (D.view_of device.old).rest }
    ensures answered { HasAnswered (D.view_of device.old) (D.view_of device.new) result }
{
    let _events = history.len();
    let held = parts.held.at_mut(queue.0 as usize);
    let batch = next_batch(alloc, world, &parts.numbers, held, queue)?;
    device.submit(batch)?;
    count_submitted(held);
    Ok(())
}
