//! What a run leaves: threads that are not finished, and queues that are not empty.

ghost use Rattle.std.specs.Prelude.{◌≡◌, ◌+◌, ◌<◌, ◌≤◌, ◌^◌, length, IfOk};
ghost use Rattle.run_text.specs.Left.{is_wait, progress_after, progress_of, is_left, is_done, is_call_on, gives, completes, is_busy, unfinished_of, busy_of};

use d3d_machine::{Call, Event, Reply};
use dx_base::{Memory, Seq};
use std::alloc::Global;

/// How far a thread has come.
#[derive(Clone, Copy, Debug, PartialEq, Eq)]
pub struct Progress {
    /// How many of its calls are answered.
    pub calls: usize,
    /// The last of them is a wait from which it has not woken.
    pub waits: bool,
}

/// The call is one from which its thread has to wake.
fn is_wait(call: &Call) -> bool
    ensures { result ≡ is_wait call.now }
{
    match call {
        Call::HostWait { fence: _, value: _ } => true,
        Call::Recording { list: _, what: _ }
        | Call::Close { list: _ }
        | Call::Reset {
            list: _,
            allocator: _,
        }
        | Call::Execute { queue: _, lists: _ }
        | Call::Signal {
            queue: _,
            fence: _,
            value: _,
        }
        | Call::HostSignal { fence: _, value: _ }
        | Call::Value { fence: _ }
        | Call::Write {
            buffer: _,
            offset: _,
            words: _,
        }
        | Call::Read {
            buffer: _,
            offset: _,
            bytes: _,
        } => false,
    }
}

/// How far a thread has come, one event later.
fn progress_after(thread: usize, progress: Progress, event: &Event) -> Progress
    requires { progress.calls + 1 < 2 ^ 64 }
    ensures value { result ≡ progress_after thread progress event.now }
    ensures small { result.calls ≤ progress.calls + 1 }
{
    match event {
        Event::Call {
            thread: by,
            call,
            reply: _,
        } => {
            if by.0 as usize == thread {
                Progress {
                    calls: progress.calls + 1,
                    waits: is_wait(call),
                }
            } else {
                progress
            }
        }
        Event::Awake(by) => {
            if by.0 as usize == thread {
                Progress {
                    calls: progress.calls,
                    waits: false,
                }
            } else {
                progress
            }
        }
        Event::Queue(_) => progress,
    }
}

/// How far a thread has come.
#[tactic(auto, unfolding(crate::specs::Left::progress_from))]
fn progress_of(thread: usize, history: &[Event]) -> Progress
    ensures { result ≡ progress_of thread history.now }
{
    let mut progress = Progress {
        calls: 0,
        waits: false,
    };
    for event in history {
        progress = progress_after(thread, progress, event);
    }
    progress
}

/// The thread of that number, whose script has so many calls, is not at its end.
fn is_left(thread: usize, calls: usize, history: &[Event]) -> bool
    ensures { result ≡ is_left calls (progress_of thread history.now) }
{
    let progress = progress_of(thread, history);
    progress.waits || progress.calls < calls
}

/// The answer is Done.
fn is_done(reply: &Reply) -> bool
    ensures { result ≡ is_done reply.now }
{
    match reply {
        Reply::Done => true,
        Reply::Value(_) | Reply::Words(_) | Reply::Error(_) => false,
    }
}

/// The call is one that gives the queue an operation, where it is not refused.
fn is_call_on(queue: usize, call: &Call) -> bool
    ensures { result ≡ is_call_on queue call.now }
{
    match call {
        Call::Execute {
            queue: on,
            lists: _,
        } => on.0 as usize == queue,
        Call::Signal {
            queue: on,
            fence: _,
            value: _,
        } => on.0 as usize == queue,
        Call::Recording { list: _, what: _ }
        | Call::Close { list: _ }
        | Call::Reset {
            list: _,
            allocator: _,
        }
        | Call::HostSignal { fence: _, value: _ }
        | Call::HostWait { fence: _, value: _ }
        | Call::Value { fence: _ }
        | Call::Write {
            buffer: _,
            offset: _,
            words: _,
        }
        | Call::Read {
            buffer: _,
            offset: _,
            bytes: _,
        } => false,
    }
}

/// The event gives the queue an operation.
fn gives(queue: usize, event: &Event) -> bool
    ensures { result ≡ gives queue event.now }
{
    match event {
        Event::Call {
            thread: _,
            call,
            reply,
        } => is_call_on(queue, call) && is_done(reply),
        Event::Awake(_) | Event::Queue(_) => false,
    }
}

/// The event completes an operation of the queue.
fn completes(queue: usize, event: &Event) -> bool
    ensures { result ≡ completes queue event.now }
{
    match event {
        Event::Queue(on) => on.0 as usize == queue,
        Event::Call {
            thread: _,
            call: _,
            reply: _,
        }
        | Event::Awake(_) => false,
    }
}

/// The queue was given more operations than it completed.
fn is_busy(queue: usize, history: &[Event]) -> bool
    ensures { result ≡ is_busy history.now queue }
{
    let (mut given, mut completed) = (0_usize, 0_usize);
    for event in history {
        if gives(queue, event) {
            given += 1;
        }
        if completes(queue, event) {
            completed += 1;
        }
    }
    completed < given
}

/// The number of a place. `Memory`: it has more than 32 bits, and no trace has so many objects or threads.
pub fn number_at(at: usize) -> Result<u32, Memory>
    ensures { IfOk result (λ number. number ≡ at) }
{
    u32::try_from(at).map_err(|_| Memory)
}

/// The threads that are not at their ends, in order.
pub fn unfinished_threads(
    alloc: Global,
    scripts: &[Seq<Call>],
    history: &[Event],
) -> Result<Seq<u32>, Memory>
    ensures { IfOk result (λ found. found ≡ unfinished_of scripts.now history.now) }
{
    let mut found = Seq::new(alloc);
    for thread in 0..scripts.len() {
        if is_left(thread, scripts[thread].len(), history) {
            found.push(number_at(thread)?)?;
        }
    }
    Ok(found)
}

/// Those of so many queues that are not empty, in order.
pub fn busy_queues(alloc: Global, queues: usize, history: &[Event]) -> Result<Seq<u32>, Memory>
    ensures { IfOk result (λ found. found ≡ busy_of queues history.now) }
{
    let mut found = Seq::new(alloc);
    for queue in 0..queues {
        if is_busy(queue, history) {
            found.push(number_at(queue)?)?;
        }
    }
    Ok(found)
}
