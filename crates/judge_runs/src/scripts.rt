//! Worlds with scripts of a few kinds of calls.

use d3d_machine::{Call, Record, Resource, World};
use dx_base::{AllocatorId, FenceId, Home, ListId, ListType, Memory, QueueId, ResourceId, Seq};
use std::alloc::Global;

/// A call of a script. Each list has an allocator of its own.
#[derive(Clone, Copy)]
pub enum Step {
    Reset(u32),
    /// Copies to a buffer from a word on, from a buffer from a word on, so many words.
    Copy(u32, u32, u64, u32, u64, u64),
    Close(u32),
    Execute(u32, u32),
    Signal(u32, u64),
    HostSignal(u64),
    HostWait(u64),
    Value,
    /// Writes so many words of a buffer from that word on.
    Write(u32, u64, u64),
    /// Reads so many words of a buffer from that word on.
    Read(u32, u64, u64),
}

/// The upload buffer of each world, its readback buffer, and two enhanced ones, each of eight words.
pub const UPLOAD: u32 = 0;

pub const READBACK: u32 = 1;

pub const FIRST: u32 = 2;

pub const SECOND: u32 = 3;

const FENCE: FenceId = FenceId(0);

const DIRECT: ListType = ListType::Direct;

fn buffer(home: Home) -> Option<Resource> {
    Some(Resource::Buffer { home, words: 8 })
}

/// A world of two queues, a fence at 0, four buffers and four lists.
pub fn world(alloc: Global, scripts: Seq<Seq<Call>>) -> Result<World, Memory> {
    let resources = [
        buffer(Home::Upload),
        buffer(Home::Readback),
        buffer(Home::Enhanced),
        buffer(Home::Enhanced),
    ];
    Ok(World {
        queues: Seq::from_slice(alloc, &[DIRECT, DIRECT])?,
        fences: Seq::from_slice(alloc, &[0])?,
        resources: Seq::from_slice(alloc, &resources)?,
        allocators: Seq::from_slice(alloc, &[DIRECT, DIRECT, DIRECT, DIRECT])?,
        lists: Seq::from_slice(alloc, &[DIRECT, DIRECT, DIRECT, DIRECT])?,
        scripts,
    })
}

/// Some words.
fn some_words(alloc: Global, count: u64) -> Result<Seq<u32>, Memory> {
    let mut words = Seq::new(alloc);
    for word in 0..count {
        words.push((word % 1_000) as u32)?;
    }
    Ok(words)
}

fn execute(alloc: Global, queue: u32, list: u32) -> Result<Call, Memory> {
    let lists = Seq::from_slice(alloc, &[ListId(list)])?;
    Ok(Call::Execute {
        queue: QueueId(queue),
        lists,
    })
}

fn copy(list: u32, to: u32, to_word: u64, from: u32, from_word: u64, words: u64) -> Call {
    Call::Recording {
        list: ListId(list),
        what: Record::Copy {
            to: ResourceId(to),
            to_offset: to_word.saturating_mul(4),
            from: ResourceId(from),
            from_offset: from_word.saturating_mul(4),
            bytes: words.saturating_mul(4),
        },
    }
}

/// The call of a step.
pub fn call_of(alloc: Global, step: Step) -> Result<Call, Memory> {
    Ok(match step {
        Step::Reset(list) => Call::Reset {
            list: ListId(list),
            allocator: AllocatorId(list),
        },
        Step::Copy(list, to, to_word, from, from_word, words) => {
            copy(list, to, to_word, from, from_word, words)
        }
        Step::Close(list) => Call::Close { list: ListId(list) },
        Step::Execute(queue, list) => execute(alloc, queue, list)?,
        Step::Signal(queue, value) => Call::Signal {
            queue: QueueId(queue),
            fence: FENCE,
            value,
        },
        Step::HostSignal(value) => Call::HostSignal {
            fence: FENCE,
            value,
        },
        Step::HostWait(value) => Call::HostWait {
            fence: FENCE,
            value,
        },
        Step::Value => Call::Value { fence: FENCE },
        Step::Write(buffer, first, words) => Call::Write {
            buffer: ResourceId(buffer),
            offset: first.saturating_mul(4),
            words: some_words(alloc, words)?,
        },
        Step::Read(buffer, first, words) => Call::Read {
            buffer: ResourceId(buffer),
            offset: first.saturating_mul(4),
            bytes: words.saturating_mul(4),
        },
    })
}

fn push_calls(alloc: Global, calls: &mut Seq<Call>, steps: &[Step]) -> Result<(), Memory> {
    for step in steps {
        calls.push(call_of(alloc, *step)?)?;
    }
    Ok(())
}

/// The calls of steps.
fn calls_of(alloc: Global, steps: &[Step]) -> Result<Seq<Call>, Memory> {
    let mut calls = Seq::new(alloc);
    match push_calls(alloc, &mut calls, steps) {
        Ok(()) => Ok(calls),
        Err(memory) => {
            drop(calls);
            Err(memory)
        }
    }
}

fn push_scripts(
    alloc: Global,
    scripts: &mut Seq<Seq<Call>>,
    first: &[Step],
    second: &[Step],
) -> Result<(), Memory> {
    scripts.push(calls_of(alloc, first)?)?;
    scripts.push(calls_of(alloc, second)?)?;
    Ok(())
}

/// The scripts of two threads.
pub fn scripts_of(
    alloc: Global,
    first: &[Step],
    second: &[Step],
) -> Result<Seq<Seq<Call>>, Memory> {
    let mut scripts = Seq::new(alloc);
    match push_scripts(alloc, &mut scripts, first, second) {
        Ok(()) => Ok(scripts),
        Err(memory) => {
            drop(scripts);
            Err(memory)
        }
    }
}
