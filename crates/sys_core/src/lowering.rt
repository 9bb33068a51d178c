//! Operations become batches of the device.

ghost use Rattle.std.specs.Prelude.{◌≡◌, ◌<◌, ◌≤◌, ◌+◌, ◌^◌, [], ◌∷◌, ◌++◌, true, length, IfOk};
ghost use Rattle.std.specs.List.{list_all};
ghost use Rattle.sys_core.specs.Lowering.{AreNumbers, plan_of_world, plan_buffers, plan_number, startup, leading, trailing, lower_record, lower_commands, lowered_commands, own_wait};
ghost use Rattle.sys_core.specs.Batches.{batch_by, waits_by, is_numbered_record, is_numbered_operation};

use d3d_machine::{Command, Operation, Record, Resource, World};
use dx_base::{Memory, ResourceId, Seq};
use std::alloc::Global;
use vk_port::{Accesses, Batch, DevicePlan, PlanBuffer, Stages, VkCommand};

/// The device's objects for a world: its live buffers, its queues, and a timeline for each queue and one
/// for the start-up.
pub fn plan_of(alloc: Global, world: &World) -> Result<DevicePlan, Memory>
    requires { length world.now.queues ≤ 16 }
    ensures { IfOk result (λ plan. plan ≡ plan_of_world world.now) }
{
    let buffers = buffers_of(alloc, world.resources.as_slice())?;
    let queues = world.queues.len() as u32;
    Ok(DevicePlan {
        buffers,
        images: Seq::new(alloc),
        heaps: Seq::new(alloc),
        views: Seq::new(alloc),
        queues,
        timelines: queues + 1,
    })
}

/// The live buffers, in order of ids.
fn buffers_of(alloc: Global, resources: &[Option<Resource>]) -> Result<Seq<PlanBuffer>, Memory>
    ensures { IfOk result (λ buffers. buffers ≡ plan_buffers resources.now) }
{
    let mut buffers = Seq::new(alloc);
    for resource in resources {
        if let Some(Resource::Buffer { home, words }) = resource {
            buffers.push(PlanBuffer {
                words: *words,
                home: *home,
            })?;
        }
    }
    Ok(buffers)
}

/// The number on the device of each resource: how many live ones come before it.
pub(crate) fn numbers_of(alloc: Global, resources: &[Option<Resource>]) -> Result<Seq<u32>, Memory>
    requires { length resources.now ≤ 4096 }
    ensures { IfOk result (λ numbers. AreNumbers resources.now numbers) }
{
    let mut numbers = Seq::new(alloc);
    let mut number = 0;
    for resource in resources {
        numbers.push(number)?;
        if resource.is_some() {
            number += 1;
        }
    }
    Ok(numbers)
}

/// The number on the device of a resource, by the table of all.
#[tactic(auto, using(crate::proofs::Numbers::number_there, crate::proofs::Numbers::number_is))]
pub(crate) fn number_of(world: &World, numbers: &Seq<u32>, resource: ResourceId) -> u32
    requires numbers { AreNumbers world.now.resources numbers.now }
    requires named { resource.0 < length world.now.resources }
    ensures { result ≡ plan_number world.now resource.0 }
{
    let _world = world;
    *numbers.at(resource.0 as usize)
}

/// The start-up batch of a world.
pub(crate) fn startup_batch(alloc: Global, world: &World) -> Result<Batch, Memory>
    requires { length world.now.queues ≤ 16 }
    ensures { IfOk result (λ batch. batch ≡ startup world.now) }
{
    Ok(Batch {
        queue: 0,
        number: 0,
        waits: Seq::new(alloc),
        commands: Seq::new(alloc),
        sets: one_pair(alloc, world.queues.len() as u32, 1)?,
    })
}

/// A list of one timeline and value.
fn one_pair(alloc: Global, timeline: u32, value: u64) -> Result<Seq<(u32, u64)>, Memory>
    ensures { IfOk result (λ pairs. pairs ≡ (timeline, value) ∷ []) }
{
    let mut pairs = Seq::new(alloc);
    pairs.push((timeline, value))?;
    Ok(pairs)
}

/// The batch of an operation of a queue, with its number, behind a last signal of that number. `numbers` has the
/// number on the device of each resource.
pub fn batch_of(
    alloc: Global,
    world: &World,
    numbers: &Seq<u32>,
    queue: u32,
    number: u64,
    last_signal: u64,
    operation: &Operation,
) -> Result<Batch, Memory>
    requires queues { length world.now.queues ≤ 16 }
    requires numbers { AreNumbers world.now.resources numbers.now }
    requires numbered { is_numbered_operation world.now operation.now ≡ true }
    ensures { IfOk result (λ batch. batch ≡ batch_by world.now queue number last_signal operation.now) }
{
    let waits = waits_of(
        alloc,
        world.queues.len() as u32,
        queue,
        last_signal,
        operation,
    )?;
    let commands = commands_of(alloc, world, numbers, operation)?;
    let sets = one_pair(alloc, queue, number)?;
    Ok(Batch {
        queue,
        number,
        waits,
        commands,
        sets,
    })
}

/// The waits of an operation's batch: an execute's for the start-up and for its queue's last signal.
fn waits_of(
    alloc: Global,
    startup: u32,
    queue: u32,
    last_signal: u64,
    operation: &Operation,
) -> Result<Seq<(u32, u64)>, Memory>
    ensures { IfOk result (λ waits. waits ≡ waits_by startup queue last_signal operation.now) }
{
    match operation {
        Operation::Execute { commands: _ } => execute_waits(alloc, startup, queue, last_signal),
        Operation::Signal { .. } => Ok(Seq::new(alloc)),
    }
}

/// The waits of an execute's batch.
fn execute_waits(
    alloc: Global,
    startup: u32,
    queue: u32,
    last_signal: u64,
) -> Result<Seq<(u32, u64)>, Memory>
    ensures { IfOk result (λ waits. waits ≡ (startup, 1) ∷ own_wait queue last_signal) }
{
    let mut waits = one_pair(alloc, startup, 1)?;
    if last_signal != 0 {
        waits.push((queue, last_signal))?;
    }
    Ok(waits)
}

/// The commands of an operation's batch.
fn commands_of(
    alloc: Global,
    world: &World,
    numbers: &Seq<u32>,
    operation: &Operation,
) -> Result<Seq<VkCommand>, Memory>
    requires numbers { AreNumbers world.now.resources numbers.now }
    requires numbered { is_numbered_operation world.now operation.now ≡ true }
    ensures { IfOk result (λ commands. commands ≡ lowered_commands world.now operation.now) }
{
    match operation {
        Operation::Execute { commands } => {
            execute_commands(alloc, world, numbers, commands.as_slice())
        }
        Operation::Signal { .. } => Ok(Seq::new(alloc)),
    }
}

/// The commands of an execute's batch: what was recorded, between a barrier before it that makes all
/// earlier writes visible, and one behind it that makes all writes visible to the host.
fn execute_commands(
    alloc: Global,
    world: &World,
    numbers: &Seq<u32>,
    recorded: &[Command],
) -> Result<Seq<VkCommand>, Memory>
    requires numbers { AreNumbers world.now.resources numbers.now }
    requires numbered { list_all (λ c. is_numbered_record world.now c.what) recorded.now ≡ true }
    ensures { IfOk result (λ commands. commands ≡ leading ∷ (lower_commands world.now recorded.now ++ trailing ∷ [])) }
{
    let mut commands = Seq::new(alloc);
    commands.push(leading_barrier())?;
    for command in recorded {
        commands.push(lowered_record(world, numbers, command.what))?;
    }
    commands.push(trailing_barrier())?;
    Ok(commands)
}

/// The barrier before an execute.
fn leading_barrier() -> VkCommand
    ensures { result ≡ leading }
{
    VkCommand::Barrier {
        from: Stages::ALL_COMMANDS,
        made: Accesses::MEMORY_WRITE,
        to: Stages::ALL_COMMANDS,
        seen: Accesses(Accesses::MEMORY_READ.0 | Accesses::MEMORY_WRITE.0),
        change: None,
    }
}

/// The barrier behind an execute.
fn trailing_barrier() -> VkCommand
    ensures { result ≡ trailing }
{
    VkCommand::Barrier {
        from: Stages::ALL_COMMANDS,
        made: Accesses::MEMORY_WRITE,
        to: Stages::HOST,
        seen: Accesses::HOST_READ,
        change: None,
    }
}

/// A recorded command in Vulkan's words.
fn lowered_record(world: &World, numbers: &Seq<u32>, what: Record) -> VkCommand
    requires numbers { AreNumbers world.now.resources numbers.now }
    requires numbered { is_numbered_record world.now what ≡ true }
    ensures { result ≡ lower_record world.now what }
{
    match what {
        Record::Copy {
            to,
            to_offset,
            from,
            from_offset,
            bytes,
        } => VkCommand::Copy {
            to: number_of(world, numbers, to),
            to_first: (to_offset / 4) as u32,
            from: number_of(world, numbers, from),
            from_first: (from_offset / 4) as u32,
            words: (bytes / 4) as u32,
        },
    }
}
