//! The world and the script of each case.

use crate::cases::Case;
use d3d_machine::{Call, Record, Resource, World};
use dx_base::{AllocatorId, Home, ListId, ListType, Memory, QueueId, ResourceId, Seq};
use std::alloc::Global;

const UPLOAD: ResourceId = ResourceId(0);

const READBACK: ResourceId = ResourceId(1);

const LIST: ListId = ListId(0);

/// A copy of words to the same place in the other buffer.
fn copy(first: u64, words: u64) -> Call {
    Call::Recording {
        list: LIST,
        what: Record::Copy {
            to: READBACK,
            to_offset: first.saturating_mul(4),
            from: UPLOAD,
            from_offset: first.saturating_mul(4),
            bytes: words.saturating_mul(4),
        },
    }
}

fn push_copies(calls: &mut Seq<Call>, case: Case, count: u32) -> Result<(), Memory> {
    match case {
        Case::Scope => {
            for word in 0..count {
                calls.push(copy(u64::from(word), 1))?;
            }
            Ok(())
        }
        Case::History => calls.push(copy(0, 4)),
        Case::Wide => calls.push(copy(0, u64::from(count))),
    }
}

/// Executes of the list.
fn push_executes(alloc: Global, calls: &mut Seq<Call>, count: u32) -> Result<(), Memory> {
    for _execute in 0..count {
        let lists = Seq::from_slice(alloc, &[LIST])?;
        calls.push(Call::Execute {
            queue: QueueId(0),
            lists,
        })?;
    }
    Ok(())
}

/// The calls of the thread: words are written, and a list with copies is recorded and executed.
pub(crate) fn script(alloc: Global, case: Case, count: u32) -> Result<Seq<Call>, Memory> {
    let mut calls = Seq::new(alloc);
    calls.push(Call::Write {
        buffer: UPLOAD,
        offset: 0,
        words: Seq::from_slice(alloc, &[1, 2, 3, 4])?,
    })?;
    calls.push(Call::Reset {
        list: LIST,
        allocator: AllocatorId(0),
    })?;
    push_copies(&mut calls, case, count)?;
    calls.push(Call::Close { list: LIST })?;
    push_executes(alloc, &mut calls, case.executes(count))?;
    Ok(calls)
}

/// A world of one queue, one list and two buffers of so many words, with one thread.
pub(crate) fn world(alloc: Global, words: u32, calls: Seq<Call>) -> Result<World, Memory> {
    let upload = Resource::Buffer {
        home: Home::Upload,
        words,
    };
    let readback = Resource::Buffer {
        home: Home::Readback,
        words,
    };
    let mut scripts = Seq::new(alloc);
    scripts.push(calls)?;
    Ok(World {
        queues: Seq::from_slice(alloc, &[ListType::Direct])?,
        fences: Seq::new(alloc),
        resources: Seq::from_slice(alloc, &[Some(upload), Some(readback)])?,
        allocators: Seq::from_slice(alloc, &[ListType::Direct])?,
        lists: Seq::from_slice(alloc, &[ListType::Direct])?,
        scripts,
    })
}
