//! The lines of calls, printed.

ghost use Rattle.std.specs.Prelude.{◌≡◌, ◌++◌, map, flat_map, IfOk, OnOk};
ghost use Rattle.d3d_machine.specs.declared.calls.Call.TheVariants as call_of;
ghost use Rattle.trace_lines.specs.declared.item.Item.TheVariants.{Calls};
ghost use Rattle.trace_lines.specs.Formed.{item_text};

use crate::form::Form;
use crate::known::Known;
use d3d_machine::{Call, Record};
use dx_base::{AllocatorId, FenceId, ListId, Memory, QueueId, ResourceId, Seq};
use line_forms::{PartValue, put_line};
use std::alloc::Global;

/// Appends the line of a recorded command.
#[tactic(auto, unfolding(crate::specs::Formed::item_text))]
fn put_record(
    out: &mut Vec<u8>,
    known: &Known<'_>,
    list: ListId,
    what: Record,
) -> Result<(), Memory>
    ensures { OnOk result (out.new.items ≡ out.old.items ++ item_text known.now (Calls (call_of.Recording list what))) }
{
    match what {
        Record::Copy {
            to,
            to_offset,
            from,
            from_offset,
            bytes,
        } => {
            let values = [
                PartValue::AsItStands,
                PartValue::Id(list.0),
                PartValue::Id(to.0),
                PartValue::Number(to_offset),
                PartValue::Id(from.0),
                PartValue::Number(from_offset),
                PartValue::Number(bytes),
            ];
            put_line(out, known, Form::Copy, &values, &[])
        }
    }
}

/// Appends the line of a close.
#[tactic(auto, unfolding(crate::specs::Formed::item_text))]
fn put_close(out: &mut Vec<u8>, known: &Known<'_>, list: ListId) -> Result<(), Memory>
    ensures { OnOk result (out.new.items ≡ out.old.items ++ item_text known.now (Calls (call_of.Close list))) }
{
    let values = [PartValue::AsItStands, PartValue::Id(list.0)];
    put_line(out, known, Form::Close, &values, &[])
}

/// Appends the line of a reset.
#[tactic(auto, unfolding(crate::specs::Formed::item_text))]
fn put_reset(
    out: &mut Vec<u8>,
    known: &Known<'_>,
    list: ListId,
    allocator: AllocatorId,
) -> Result<(), Memory>
    ensures { OnOk result (out.new.items ≡ out.old.items ++ item_text known.now (Calls (call_of.Reset list allocator))) }
{
    let values = [
        PartValue::AsItStands,
        PartValue::Id(list.0),
        PartValue::Id(allocator.0),
    ];
    put_line(out, known, Form::Reset, &values, &[])
}

/// The numbers of lists.
fn numbers_of(alloc: Global, lists: &[ListId]) -> Result<Seq<u32>, Memory>
    ensures { IfOk result (λ numbers. numbers ≡ map (λ l. l.0) lists.now) }
{
    let mut numbers = Seq::new(alloc);
    for list in lists {
        numbers.push(list.0)?;
    }
    Ok(numbers)
}

/// Appends the line of an execute.
#[tactic(auto, unfolding(crate::specs::Formed::item_text))]
fn put_execute(
    alloc: Global,
    out: &mut Vec<u8>,
    known: &Known<'_>,
    queue: QueueId,
    lists: &[ListId],
) -> Result<(), Memory>
    ensures { OnOk result (out.new.items ≡ out.old.items ++ item_text known.now (Calls (call_of.Execute queue lists.now))) }
{
    let numbers = numbers_of(alloc, lists)?;
    let values = [PartValue::AsItStands, PartValue::Id(queue.0)];
    put_line(out, known, Form::Execute, &values, numbers.as_slice())
}

/// Appends the line of a signal on a queue.
#[tactic(auto, unfolding(crate::specs::Formed::item_text))]
fn put_signal(
    out: &mut Vec<u8>,
    known: &Known<'_>,
    queue: QueueId,
    fence: FenceId,
    value: u64,
) -> Result<(), Memory>
    ensures { OnOk result (out.new.items ≡ out.old.items ++ item_text known.now (Calls (call_of.Signal queue fence value))) }
{
    let values = [
        PartValue::AsItStands,
        PartValue::Id(queue.0),
        PartValue::Id(fence.0),
        PartValue::Number(value),
    ];
    put_line(out, known, Form::Signal, &values, &[])
}

/// Appends the line of a signal of the host.
#[tactic(auto, unfolding(crate::specs::Formed::item_text))]
fn put_host_signal(
    out: &mut Vec<u8>,
    known: &Known<'_>,
    fence: FenceId,
    value: u64,
) -> Result<(), Memory>
    ensures { OnOk result (out.new.items ≡ out.old.items ++ item_text known.now (Calls (call_of.HostSignal fence value))) }
{
    let values = [
        PartValue::AsItStands,
        PartValue::Id(fence.0),
        PartValue::Number(value),
    ];
    put_line(out, known, Form::HostSignal, &values, &[])
}

/// Appends the line of a wait of the host.
#[tactic(auto, unfolding(crate::specs::Formed::item_text))]
fn put_host_wait(
    out: &mut Vec<u8>,
    known: &Known<'_>,
    fence: FenceId,
    value: u64,
) -> Result<(), Memory>
    ensures { OnOk result (out.new.items ≡ out.old.items ++ item_text known.now (Calls (call_of.HostWait fence value))) }
{
    let values = [
        PartValue::AsItStands,
        PartValue::Id(fence.0),
        PartValue::Number(value),
    ];
    put_line(out, known, Form::HostWait, &values, &[])
}

/// Appends the line of a question for a fence's value.
#[tactic(auto, unfolding(crate::specs::Formed::item_text))]
fn put_value(out: &mut Vec<u8>, known: &Known<'_>, fence: FenceId) -> Result<(), Memory>
    ensures { OnOk result (out.new.items ≡ out.old.items ++ item_text known.now (Calls (call_of.Value fence))) }
{
    let values = [PartValue::AsItStands, PartValue::Id(fence.0)];
    put_line(out, known, Form::Value, &values, &[])
}

/// Appends the line of a write.
#[tactic(auto, unfolding(crate::specs::Formed::item_text))]
fn put_write(
    out: &mut Vec<u8>,
    known: &Known<'_>,
    buffer: ResourceId,
    offset: u64,
    words: &[u32],
) -> Result<(), Memory>
    ensures { OnOk result (out.new.items ≡ out.old.items ++ item_text known.now (Calls (call_of.Write buffer offset words.now))) }
{
    let values = [
        PartValue::AsItStands,
        PartValue::Id(buffer.0),
        PartValue::Number(offset),
    ];
    put_line(out, known, Form::Write, &values, words)
}

/// Appends the line of a read.
#[tactic(auto, unfolding(crate::specs::Formed::item_text))]
fn put_read(
    out: &mut Vec<u8>,
    known: &Known<'_>,
    buffer: ResourceId,
    offset: u64,
    bytes: u64,
) -> Result<(), Memory>
    ensures { OnOk result (out.new.items ≡ out.old.items ++ item_text known.now (Calls (call_of.Read buffer offset bytes))) }
{
    let values = [
        PartValue::AsItStands,
        PartValue::Id(buffer.0),
        PartValue::Number(offset),
        PartValue::Number(bytes),
    ];
    put_line(out, known, Form::Read, &values, &[])
}

/// Appends the line of a call.
fn put_call(alloc: Global, out: &mut Vec<u8>, known: &Known<'_>, call: &Call) -> Result<(), Memory>
    ensures { OnOk result (out.new.items ≡ out.old.items ++ item_text known.now (Calls call.now)) }
{
    match call {
        Call::Recording { list, what } => put_record(out, known, *list, *what),
        Call::Close { list } => put_close(out, known, *list),
        Call::Reset { list, allocator } => put_reset(out, known, *list, *allocator),
        Call::Execute { queue, lists } => {
            put_execute(alloc, out, known, *queue, lists.as_slice())
        }
        Call::Signal {
            queue,
            fence,
            value,
        } => put_signal(out, known, *queue, *fence, *value),
        Call::HostSignal { fence, value } => put_host_signal(out, known, *fence, *value),
        Call::HostWait { fence, value } => put_host_wait(out, known, *fence, *value),
        Call::Value { fence } => put_value(out, known, *fence),
        Call::Write {
            buffer,
            offset,
            words,
        } => put_write(out, known, *buffer, *offset, words.as_slice()),
        Call::Read {
            buffer,
            offset,
            bytes,
        } => put_read(out, known, *buffer, *offset, *bytes),
    }
}

/// Appends the lines of calls.
pub fn put_calls(
    alloc: Global,
    out: &mut Vec<u8>,
    known: &Known<'_>,
    calls: &[Call],
) -> Result<(), Memory>
    ensures { OnOk result (out.new.items ≡ out.old.items ++ flat_map (item_text known.now) (map Calls calls.now)) }
{
    for call in calls {
        put_call(alloc, out, known, call)?;
    }
    Ok(())
}
