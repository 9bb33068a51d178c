//! Serving a call: by the lists, by the held operations, or by the device.

ghost use Rattle.std.specs.Prelude.{◌≡◌, ◌<◌, ◌≤◌, ◌/◌, [], map, length, true, Some, None, IfOk, OnOk, OnErr, IsSome};
ghost use Rattle.dx_base.specs.Effects.{at, unless};
ghost use Rattle.dx_base.specs.Lists.{range_of};
ghost use Rattle.std.specs.Result.{result_err};
ghost use Rattle.d3d_machine.specs.declared.calls.Call.TheVariants.{Recording as recording_call, Close as close_call, Reset as reset_call, Execute as execute_call, Signal as signal_call, HostSignal as host_signal_call};
ghost use Rattle.d3d_machine.specs.declared.calls.Reply.TheVariants.{Done as done, Words as words_reply};
ghost use Rattle.d3d_machine.specs.World.{is_named};
ghost use Rattle.d3d_machine.specs.State.{words_at};
ghost use Rattle.d3d_machine.specs.Replies.{reply_or};
ghost use Rattle.d3d_machine.specs.Lists.{record_refusal, close_refusal, reset_refusal, execute_refusal};
ghost use Rattle.d3d_machine.specs.Checks.{write_refusal as refusal_of_write, read_refusal as refusal_of_read};
ghost use Rattle.vk_port.specs.Offers.{IsInside};
ghost use Rattle.vk_types.specs.declared.steps.VkStep.TheVariants.{HostWrite, HostRead};
ghost use Rattle.vk_sync_rules.specs.Rules.{after_step};
ghost use Rattle.sys_core.specs.Lowering.{AreNumbers, plan_number};
ghost use Rattle.sys_core.specs.Machine.{HasBuffers};
ghost use Rattle.sys_core.specs.Host.{Answers, IsRead, IsReply, after_call, after_load, after_store, told_words};
ghost use Rattle.sys_core.specs.Parts.{queued, updates_in};
ghost use Rattle.sys_core.specs.Answered.{HasAnswered};
ghost use Rattle.sys_core.specs.Serving.{Serves, StaysParts};

use crate::faults::SysFault;
use crate::fences::{push_update, reserve_update_of, value_of};
use crate::lowering::number_of;
use crate::parts::{Parts, push_operation};
use d3d_machine::{Call, Lists, Operation, Record, Reply, World, read_refusal, write_refusal};
use dx_base::{AllocatorId, FenceId, Hresult, ListId, Memory, QueueId, ResourceId, Seq};
use std::alloc::Global;
use vk_port::VkDevice;

/// A host write that is not refused.
#[tactic(auto, using(crate::proofs::Inside::write_inside, crate::proofs::Inside::write_small, crate::proofs::Inside::write_there))]
fn write_words<D: VkDevice>(
    world: &World,
    numbers: &Seq<u32>,
    device: &mut D,
    buffer: ResourceId,
    offset: u64,
    words: &Seq<u32>,
) -> Result<(), SysFault>
    requires plan { IsSome (D.view_of device.old).plan }
    requires numbers { AreNumbers world.now.resources numbers.now }
    requires buffers { HasBuffers world.now (D.view_of device.old).state }
    requires good { refusal_of_write world.now buffer.0 offset (length words.now) ≡ None }
    ensures state { OnOk result ((D.view_of device.new).state ≡ after_step (D.view_of device.old).state (HostWrite (plan_number world.now buffer.0) (offset / 4) words.now)) }
    ensures rest { (D.view_of device.new).rest ≡ (D.view_of device.old).rest }
    ensures answered { HasAnswered (D.view_of device.old) (D.view_of device.new) result }
{
    let number = number_of(world, numbers, buffer);
    device.host_write(number, (offset / 4) as u32, words.as_slice())?;
    Ok(())
}

/// A host read that is not refused.
#[tactic(auto, using(crate::proofs::Inside::read_inside, crate::proofs::Inside::read_small, crate::proofs::Inside::read_count_small, crate::proofs::Inside::read_there))]
fn read_words<D: VkDevice>(
    world: &World,
    numbers: &Seq<u32>,
    device: &mut D,
    buffer: ResourceId,
    offset: u64,
    bytes: u64,
) -> Result<Reply, SysFault>
    requires plan { IsSome (D.view_of device.old).plan }
    requires numbers { AreNumbers world.now.resources numbers.now }
    requires buffers { HasBuffers world.now (D.view_of device.old).state }
    requires good { refusal_of_read world.now buffer.0 offset bytes ≡ None }
    ensures words { IfOk result (λ reply. IsRead world.now (D.view_of device.old).state (record { place = buffer.0; what = (offset / 4, bytes / 4) }) reply) }
    ensures state { IfOk result (λ reply. (D.view_of device.new).state ≡ after_step (D.view_of device.old).state (HostRead (plan_number world.now buffer.0) (offset / 4) (told_words reply))) }
    ensures rest { (D.view_of device.new).rest ≡ (D.view_of device.old).rest }
    ensures answered { HasAnswered (D.view_of device.old) (D.view_of device.new) result }
{
    let number = number_of(world, numbers, buffer);
    let words = device.host_read(number, (offset / 4) as u32, (bytes / 4) as u32)?;
    Ok(Reply::Words(Seq::from_vec(words)))
}

/// Serves a call that writes a buffer.
fn serve_write<D: VkDevice>(
    world: &World,
    lists: &Lists,
    numbers: &Seq<u32>,
    device: &mut D,
    buffer: ResourceId,
    offset: u64,
    words: &Seq<u32>,
) -> Result<Reply, SysFault>
    requires plan { IsSome (D.view_of device.old).plan }
    requires numbers { AreNumbers world.now.resources numbers.now }
    requires buffers { HasBuffers world.now (D.view_of device.old).state }
    ensures reply { IfOk result (λ reply. reply ≡ reply_or (refusal_of_write world.now buffer.0 offset (length words.now)) done) }
    ensures state { OnOk result ((D.view_of device.new).state ≡ after_store world.now (D.view_of device.old).state (unless (at buffer.0 (offset / 4, words.now)) (refusal_of_write world.now buffer.0 offset (length words.now)))) }
    ensures rest { (D.view_of device.new).rest ≡ (D.view_of device.old).rest }
    ensures answered { HasAnswered (D.view_of device.old) (D.view_of device.new) result }
{
    let _lists = lists;
    match write_refusal(world, buffer, offset, words.len()) {
        Some(error) => Ok(Reply::Error(error)),
        None => {
            write_words(world, numbers, device, buffer, offset, words)?;
            Ok(Reply::Done)
        }
    }
}

/// Serves a call that reads a buffer.
fn serve_read<D: VkDevice>(
    world: &World,
    numbers: &Seq<u32>,
    device: &mut D,
    buffer: ResourceId,
    offset: u64,
    bytes: u64,
) -> Result<Reply, SysFault>
    requires plan { IsSome (D.view_of device.old).plan }
    requires numbers { AreNumbers world.now.resources numbers.now }
    requires buffers { HasBuffers world.now (D.view_of device.old).state }
    ensures reply { IfOk result (λ reply. Answers world.now (D.view_of device.old).state (unless (at buffer.0 (offset / 4, bytes / 4)) (refusal_of_read world.now buffer.0 offset bytes)) (reply_or (refusal_of_read world.now buffer.0 offset bytes) (words_reply (range_of (offset / 4) (bytes / 4) (words_at [] buffer.0)))) reply) }
    ensures state { IfOk result (λ reply. (D.view_of device.new).state ≡ after_load world.now (D.view_of device.old).state (unless (at buffer.0 (offset / 4, bytes / 4)) (refusal_of_read world.now buffer.0 offset bytes)) reply) }
    ensures rest { (D.view_of device.new).rest ≡ (D.view_of device.old).rest }
    ensures answered { HasAnswered (D.view_of device.old) (D.view_of device.new) result }
{
    match read_refusal(world, buffer, offset, bytes) {
        Some(error) => Ok(Reply::Error(error)),
        None => read_words(world, numbers, device, buffer, offset, bytes),
    }
}

/// Serves a call that executes lists on a queue: one operation more, with the lists' commands in order.
#[tactic(auto, using(crate::proofs::Serving::execute_lists_by))]
fn serve_execute(
    alloc: Global,
    world: &World,
    parts: &mut Parts,
    queue: QueueId,
    lists: &Seq<ListId>,
) -> Result<Reply, Memory>
    requires { queue.0 < length parts.old.held }
    ensures reply { IfOk result (λ reply. reply ≡ reply_or (execute_refusal world.now parts.old.lists queue.0 lists.now) done) }
    ensures parts { OnOk result (Serves world.now (execute_call queue lists.now) parts.old parts.new) }
    ensures same { OnErr result (StaysParts parts.old parts.new) }
{
    match parts.lists.gather(alloc, world, queue, lists.as_slice())? {
        Err(error) => Ok(Reply::Error(error)),
        Ok(commands) => {
            push_operation(&mut parts.held, queue, Operation::Execute { commands })?;
            Ok(Reply::Done)
        }
    }
}

/// Serves a call that signals a fence on a queue: one operation more.
fn serve_signal(
    world: &World,
    parts: &mut Parts,
    queue: QueueId,
    fence: FenceId,
    value: u64,
) -> Result<Reply, Memory>
    requires { queue.0 < length parts.old.held }
    ensures reply { IfOk result (λ reply. reply ≡ done) }
    ensures parts { OnOk result (Serves world.now (signal_call queue fence value) parts.old parts.new) }
    ensures same { OnErr result (StaysParts parts.old parts.new) }
{
    let _world = world;
    push_operation(&mut parts.held, queue, Operation::Signal { fence, value })?;
    Ok(Reply::Done)
}

/// Serves a call by which the host signals a fence: one update more.
pub(crate) fn serve_host_signal(
    world: &World,
    parts: &mut Parts,
    fence: FenceId,
    value: u64,
) -> Result<Reply, Memory>
    ensures reply { IfOk result (λ reply. reply ≡ done) }
    ensures parts { OnOk result (Serves world.now (host_signal_call fence value) parts.old parts.new) }
    ensures same { OnErr result (StaysParts parts.old parts.new) }
{
    let _world = world;
    reserve_update_of(&mut parts.fences, fence)?;
    push_update(&mut parts.fences, fence, value);
    Ok(Reply::Done)
}

/// What a call answers that gives nothing but an error.
fn answered(answer: Result<(), Hresult>) -> Reply
    ensures { result ≡ reply_or (result_err answer) done }
{
    match answer {
        Ok(()) => Reply::Done,
        Err(error) => Reply::Error(error),
    }
}

/// Serves a recording call.
#[tactic(auto, using(crate::proofs::Serving::record_lists_by))]
fn serve_recording(
    world: &World,
    parts: &mut Parts,
    list: ListId,
    what: Record,
) -> Result<Reply, Memory>
    requires { list.0 < length parts.old.lists }
    ensures reply { IfOk result (λ reply. reply ≡ reply_or (record_refusal parts.old.lists list.0) done) }
    ensures parts { OnOk result (Serves world.now (recording_call list what) parts.old parts.new) }
    ensures same { OnErr result (StaysParts parts.old parts.new) }
{
    parts.lists.record(world, list, what)
}

/// Serves a call that closes a list.
#[tactic(auto, using(crate::proofs::Serving::close_lists_by))]
fn serve_close(world: &World, parts: &mut Parts, list: ListId) -> Reply
    requires { list.0 < length parts.old.lists }
    ensures reply { result ≡ reply_or (close_refusal parts.old.lists list.0) done }
    ensures parts { Serves world.now (close_call list) parts.old parts.new }
{
    let _world = world;
    answered(parts.lists.close(list))
}

/// Serves a call that resets a list.
#[tactic(auto, using(crate::proofs::Serving::reset_lists_by))]
fn serve_reset(world: &World, parts: &mut Parts, list: ListId, allocator: AllocatorId) -> Reply
    requires { list.0 < length parts.old.lists }
    ensures reply { result ≡ reply_or (reset_refusal world.now parts.old.lists list.0 allocator.0) done }
    ensures parts { Serves world.now (reset_call list allocator) parts.old parts.new }
{
    answered(parts.lists.reset(world, list, allocator))
}

/// Serves a call of a thread that does not wait. The beginning of a wait is left to its caller.
#[tactic(auto, using(crate::proofs::Serving::value_seen))]
pub(crate) fn serve<D: VkDevice>(
    alloc: Global,
    world: &World,
    parts: &mut Parts,
    device: &mut D,
    call: &Call,
) -> Result<Reply, SysFault>
    requires plan { IsSome (D.view_of device.old).plan }
    requires numbers { AreNumbers world.now.resources parts.old.numbers }
    requires buffers { HasBuffers world.now (D.view_of device.old).state }
    requires queues { length parts.old.held ≡ length world.now.queues }
    requires lists { length parts.old.lists ≡ length world.now.lists }
    requires named { is_named world.now call.now ≡ true }
    ensures reply { IfOk result (λ reply. IsReply world.now parts.old.lists (map updates_in parts.old.fences) (D.view_of device.old).state call.now reply) }
    ensures parts { OnOk result (Serves world.now call.now parts.old parts.new) }
    ensures state { IfOk result (λ reply. (D.view_of device.new).state ≡ after_call world.now parts.old.lists (D.view_of device.old).state call.now reply) }
    ensures same { OnErr result (StaysParts parts.old parts.new) }
    ensures rest { (D.view_of device.new).rest ≡ (D.view_of device.old).rest }
    ensures answered { HasAnswered (D.view_of device.old) (D.view_of device.new) result }
{
    match call {
        Call::Recording { list, what } => Ok(serve_recording(world, parts, *list, *what)?),
        Call::Close { list } => Ok(serve_close(world, parts, *list)),
        Call::Reset { list, allocator } => Ok(serve_reset(world, parts, *list, *allocator)),
        Call::Execute { queue, lists } => Ok(serve_execute(alloc, world, parts, *queue, lists)?),
        Call::Signal {
            queue,
            fence,
            value,
        } => Ok(serve_signal(world, parts, *queue, *fence, *value)?),
        Call::HostSignal { fence, value } => {
            Ok(serve_host_signal(world, parts, *fence, *value)?)
        }
        Call::HostWait { .. } => Ok(Reply::Done),
        Call::Value { fence } => Ok(Reply::Value(value_of(&parts.fences, *fence))),
        Call::Write {
            buffer,
            offset,
            words,
        } => serve_write(
            world,
            &parts.lists,
            &parts.numbers,
            device,
            *buffer,
            *offset,
            words,
        ),
        Call::Read {
            buffer,
            offset,
            bytes,
        } => serve_read(world, &parts.numbers, device, *buffer, *offset, *bytes),
    }
}
