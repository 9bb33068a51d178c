//! What lines mean.

ghost use Rattle.std.specs.Prelude.{◌≡◌, map, IfOk};
ghost use Rattle.trace_lines.specs.declared.form.Form.TheVariants as form_of_line;
ghost use Rattle.trace_lines.specs.Formed.{list_named, made};

use crate::form::Form;
use crate::object::Declared;
use d3d_machine::{Call, Record};
use dx_base::{AllocatorId, FenceId, ListId, Memory, QueueId, ResourceId, Seq};
use line_forms::{Line, choice_at, id_at, name_at, number_at};
use std::alloc::Global;
use trace_words::Name;

/// What a line means.
#[derive(Debug, Drop)]
pub enum Item {
    /// The first line: the version of the text.
    Header,
    /// An object is declared, with its name.
    Declares(Name, Declared),
    /// A thread is declared, by its name; its calls follow.
    Starts(Name),
    /// The thread that was declared last makes a call.
    Calls(Call),
    /// The last line.
    Ends,
}

/// The lists of numbers.
fn lists_named(alloc: Global, numbers: &[u32]) -> Result<Seq<ListId>, Memory>
    ensures { IfOk result (λ lists. lists ≡ map list_named numbers.now) }
{
    let mut lists = Seq::new(alloc);
    for number in numbers {
        lists.push(ListId(*number))?;
    }
    Ok(lists)
}

/// A declaration of a queue.
fn queue(line: &Line) -> Item
    ensures { result ≡ made form_of_line.Queue line.now }
{
    let values = line.values.as_slice();
    Item::Declares(
        name_at(values, 1),
        Declared::Queue {
            kind: choice_at(values, 2).list_type(),
        },
    )
}

/// A declaration of a fence.
fn fence(line: &Line) -> Item
    ensures { result ≡ made form_of_line.Fence line.now }
{
    let values = line.values.as_slice();
    Item::Declares(
        name_at(values, 1),
        Declared::Fence {
            value: number_at(values, 2),
        },
    )
}

/// A declaration of a buffer.
fn buffer(line: &Line) -> Item
    ensures { result ≡ made form_of_line.Buffer line.now }
{
    let values = line.values.as_slice();
    Item::Declares(
        name_at(values, 1),
        Declared::Buffer {
            home: choice_at(values, 2).home(),
            bytes: number_at(values, 3),
        },
    )
}

/// A declaration of an allocator.
fn allocator(line: &Line) -> Item
    ensures { result ≡ made form_of_line.Allocator line.now }
{
    let values = line.values.as_slice();
    Item::Declares(
        name_at(values, 1),
        Declared::Allocator {
            kind: choice_at(values, 2).list_type(),
        },
    )
}

/// A declaration of a list.
fn list(line: &Line) -> Item
    ensures { result ≡ made form_of_line.List line.now }
{
    let values = line.values.as_slice();
    Item::Declares(
        name_at(values, 1),
        Declared::List {
            kind: choice_at(values, 2).list_type(),
        },
    )
}

/// A recorded copy.
fn copy(line: &Line) -> Item
    ensures { result ≡ made form_of_line.Copy line.now }
{
    let values = line.values.as_slice();
    Item::Calls(Call::Recording {
        list: ListId(id_at(values, 1)),
        what: Record::Copy {
            to: ResourceId(id_at(values, 2)),
            to_offset: number_at(values, 3),
            from: ResourceId(id_at(values, 4)),
            from_offset: number_at(values, 5),
            bytes: number_at(values, 6),
        },
    })
}

/// A reset of a list.
fn reset(line: &Line) -> Item
    ensures { result ≡ made form_of_line.Reset line.now }
{
    let values = line.values.as_slice();
    Item::Calls(Call::Reset {
        list: ListId(id_at(values, 1)),
        allocator: AllocatorId(id_at(values, 2)),
    })
}

/// A close of a list.
fn close(line: &Line) -> Item
    ensures { result ≡ made form_of_line.Close line.now }
{
    let values = line.values.as_slice();
    Item::Calls(Call::Close {
        list: ListId(id_at(values, 1)),
    })
}

/// An execute of lists on a queue.
fn execute(alloc: Global, line: &Line) -> Result<Item, Memory>
    ensures { IfOk result (λ item. item ≡ made form_of_line.Execute line.now) }
{
    let queue = QueueId(id_at(line.values.as_slice(), 1));
    let lists = lists_named(alloc, line.rest.as_slice())?;
    Ok(Item::Calls(Call::Execute { queue, lists }))
}

/// A signal on a queue.
fn signal(line: &Line) -> Item
    ensures { result ≡ made form_of_line.Signal line.now }
{
    let values = line.values.as_slice();
    Item::Calls(Call::Signal {
        queue: QueueId(id_at(values, 1)),
        fence: FenceId(id_at(values, 2)),
        value: number_at(values, 3),
    })
}

/// A signal of the host.
fn host_signal(line: &Line) -> Item
    ensures { result ≡ made form_of_line.HostSignal line.now }
{
    let values = line.values.as_slice();
    Item::Calls(Call::HostSignal {
        fence: FenceId(id_at(values, 1)),
        value: number_at(values, 2),
    })
}

/// A wait of the host.
fn host_wait(line: &Line) -> Item
    ensures { result ≡ made form_of_line.HostWait line.now }
{
    let values = line.values.as_slice();
    Item::Calls(Call::HostWait {
        fence: FenceId(id_at(values, 1)),
        value: number_at(values, 2),
    })
}

/// A question for a fence's value.
fn value(line: &Line) -> Item
    ensures { result ≡ made form_of_line.Value line.now }
{
    let values = line.values.as_slice();
    Item::Calls(Call::Value {
        fence: FenceId(id_at(values, 1)),
    })
}

/// A write of data words.
fn write(line: Line) -> Item
    ensures { result ≡ made form_of_line.Write line }
{
    let values = line.values.as_slice();
    let (buffer, offset) = (ResourceId(id_at(values, 1)), number_at(values, 2));
    let words = line.rest;
    Item::Calls(Call::Write {
        buffer,
        offset,
        words,
    })
}

/// A read of a range.
fn read(line: &Line) -> Item
    ensures { result ≡ made form_of_line.Read line.now }
{
    let values = line.values.as_slice();
    Item::Calls(Call::Read {
        buffer: ResourceId(id_at(values, 1)),
        offset: number_at(values, 2),
        bytes: number_at(values, 3),
    })
}

/// What a line of a form means, by the places of its values.
pub fn item_of(alloc: Global, form: Form, line: Line) -> Result<Item, Memory>
    ensures { IfOk result (λ item. item ≡ made form line) }
{
    match form {
        Form::Header => Ok(Item::Header),
        Form::Queue => Ok(queue(&line)),
        Form::Fence => Ok(fence(&line)),
        Form::Buffer => Ok(buffer(&line)),
        Form::Allocator => Ok(allocator(&line)),
        Form::List => Ok(list(&line)),
        Form::Thread => Ok(Item::Starts(name_at(line.values.as_slice(), 1))),
        Form::Write => Ok(write(line)),
        Form::Reset => Ok(reset(&line)),
        Form::Copy => Ok(copy(&line)),
        Form::Close => Ok(close(&line)),
        Form::Execute => execute(alloc, &line),
        Form::Signal => Ok(signal(&line)),
        Form::HostSignal => Ok(host_signal(&line)),
        Form::HostWait => Ok(host_wait(&line)),
        Form::Value => Ok(value(&line)),
        Form::Read => Ok(read(&line)),
        Form::End => Ok(Item::Ends),
    }
}
