//! Lines of steps, and what a line of each form says.

ghost use Rattle.std.specs.Prelude.{◌≡◌, map, IfOk, OnOk};
ghost use Rattle.journal_text.specs.Items.{bump_next, command_next, host_read_next, host_write_next, item_next, item_of, pass_next, submit_next, update_next};
ghost use Rattle.journal_words.specs.LineWords.{left_in};

use crate::command_lines::{
    read_barrier, read_clear, read_copy, read_copy_image, read_copy_in, read_copy_out,
    read_dispatch,
};
use crate::item::Item;
use crate::plan_lines::{read_buffer, read_heap, read_image, read_queues, read_view};
use dx_base::{Memory, Seq};
use journal_words::{Form, LineWords};
use line_forms::Cause;
use std::alloc::Global;
use vk_types::{Batch, VkStep};

/// A submission.
fn read_submit(line: &mut LineWords, alloc: Global) -> Result<Item, Memory>
    ensures value { IfOk result (λ said. said ≡ (submit_next (left_in line.old)).0) }
    ensures left { OnOk result (left_in line.new ≡ (submit_next (left_in line.old)).1) }
{
    let queue = line.number();
    let number = line.wide();
    let commands = line.number();
    line.literal("waits");
    let waits = line.pairs_before(alloc, "sets")?;
    line.literal("sets");
    let sets = line.pairs(alloc)?;
    let batch = Batch {
        queue,
        number,
        waits,
        commands: Seq::new(alloc),
        sets,
    };
    Ok(Item::Submit(batch, commands))
}

/// A pass.
fn read_pass(line: &mut LineWords) -> VkStep
    ensures value { result ≡ (pass_next (left_in line.old)).0 }
    ensures left { left_in line.new ≡ (pass_next (left_in line.old)).1 }
{
    VkStep::Pass {
        queue: line.number(),
        number: line.wide(),
    }
}

/// An end.
fn read_bump(line: &mut LineWords) -> VkStep
    ensures value { result ≡ (bump_next (left_in line.old)).0 }
    ensures left { left_in line.new ≡ (bump_next (left_in line.old)).1 }
{
    VkStep::Bump {
        queue: line.number(),
        number: line.wide(),
    }
}

/// A command that is done.
fn read_command(line: &mut LineWords, alloc: Global) -> Result<VkStep, Memory>
    ensures value { IfOk result (λ said. said ≡ (command_next (left_in line.old)).0) }
    ensures left { OnOk result (left_in line.new ≡ (command_next (left_in line.old)).1) }
{
    Ok(VkStep::Command {
        queue: line.number(),
        number: line.wide(),
        place: line.number() as u64,
        loaded: line.numbers(alloc)?,
    })
}

/// A write of the host.
fn read_host_write(line: &mut LineWords, alloc: Global) -> Result<VkStep, Memory>
    ensures value { IfOk result (λ said. said ≡ (host_write_next (left_in line.old)).0) }
    ensures left { OnOk result (left_in line.new ≡ (host_write_next (left_in line.old)).1) }
{
    Ok(VkStep::HostWrite {
        buffer: line.number(),
        first: line.number(),
        words: line.data_words(alloc)?,
    })
}

/// A read of the host.
fn read_host_read(line: &mut LineWords, alloc: Global) -> Result<VkStep, Memory>
    ensures value { IfOk result (λ said. said ≡ (host_read_next (left_in line.old)).0) }
    ensures left { OnOk result (left_in line.new ≡ (host_read_next (left_in line.old)).1) }
{
    Ok(VkStep::HostRead {
        buffer: line.number(),
        first: line.number(),
        words: line.data_words(alloc)?,
    })
}

/// An update of a slot.
fn read_update(line: &mut LineWords) -> VkStep
    ensures value { result ≡ (update_next (left_in line.old)).0 }
    ensures left { left_in line.new ≡ (update_next (left_in line.old)).1 }
{
    VkStep::Update {
        heap: line.number(),
        slot: line.number(),
    }
}

/// What a line of a form says.
fn read_item(line: &mut LineWords, alloc: Global, form: Form) -> Result<Item, Memory>
    ensures value { IfOk result (λ said. said ≡ (item_next form (left_in line.old)).0) }
    ensures left { OnOk result (left_in line.new ≡ (item_next form (left_in line.old)).1) }
{
    Ok(match form {
        Form::Header => {
            line.literal("1");
            Item::Header
        }
        Form::Buffer => read_buffer(line),
        Form::Image => read_image(line),
        Form::Heap => read_heap(line),
        Form::View => Item::View(read_view(line)),
        Form::Queues => read_queues(line),
        Form::Submit => read_submit(line, alloc)?,
        Form::Pass => Item::Step(read_pass(line)),
        Form::Bump => Item::Step(read_bump(line)),
        Form::Command => Item::Step(read_command(line, alloc)?),
        Form::HostWrite => Item::Step(read_host_write(line, alloc)?),
        Form::HostRead => Item::Step(read_host_read(line, alloc)?),
        Form::Update => Item::Step(read_update(line)),
        Form::Barrier => Item::Command(read_barrier(line)),
        Form::Copy => Item::Command(read_copy(line)),
        Form::CopyImage => Item::Command(read_copy_image(line)),
        Form::CopyIn => Item::Command(read_copy_in(line)),
        Form::CopyOut => Item::Command(read_copy_out(line)),
        Form::Clear => Item::Command(read_clear(line)),
        Form::Dispatch => Item::Command(read_dispatch(line)),
        Form::End => Item::End,
    })
}

/// What words say by a form, which are those behind the first of a line; else the earliest cause among them.
#[tactic(auto, unfolding(crate::specs::Items::item_of))]
pub(crate) fn read_form(
    alloc: Global,
    form: Form,
    words: &[&[u8]],
) -> Result<Result<Item, Cause>, Memory>
    ensures { IfOk result (λ item. item ≡ item_of form (map (λ w. w.now) words.now)) }
{
    let mut line = LineWords::new(words);
    let item = read_item(&mut line, alloc, form)?;
    Ok(line.finished(item))
}
