//! The output of calls of several threads, and the statuses that need no memory.

use d3d_machine::{Call, Event, Reply};
use dx_base::{FenceId, Hresult, Memory, Seq, ThreadId};
use run_text::{Ending, Names, Status, plain_line, put_output};
use std::alloc::Global;
use std::test::Fail;

/// An answered call of a thread.
fn answered(thread: u32, reply: Reply) -> Event {
    Event::Call {
        thread: ThreadId(thread),
        call: Call::HostWait {
            fence: FenceId(0),
            value: 1,
        },
        reply,
    }
}

#[test]
fn two_statuses_need_no_memory(rt: HostRuntime) {
    assert!(rt; plain_line(Status::Memory) == Some(b"out of memory 8007000e\n".as_slice()));
    assert!(rt; plain_line(Status::ReadFault) == Some(b"read fault\n".as_slice()));
    assert!(rt; plain_line(Status::Done).is_none());
}

/// The list of names that are given.
fn names_from(alloc: Global, words: [&str; 2]) -> Result<Seq<Seq<u8>>, Memory> {
    let mut names = Seq::new(alloc);
    for word in words {
        names.push(Seq::from_slice(alloc, word.as_bytes())?)?;
    }
    Ok(names)
}

/// Calls of three threads, the last of which has no name.
fn three_threads(alloc: Global) -> Result<Vec<Event>, Memory> {
    let mut history = Vec::new(alloc);
    history.push(answered(1, Reply::Value(18_446_744_073_709_551_615)))?;
    history.push(answered(0, Reply::Done))?;
    history.push(answered(1, Reply::Done))?;
    history.push(answered(0, Reply::Error(Hresult::InvalidArg)))?;
    history.push(answered(1, Reply::Error(Hresult::Fail)))?;
    history.push(answered(0, Reply::Words(Seq::from_slice(alloc, &[0xdead_beef, 0])?)))?;
    history.push(answered(0, Reply::Words(Seq::new(alloc))))?;
    history.push(answered(2, Reply::Value(7)))?;
    Ok(history)
}

/// An ending with a fence, a thread and a queue more than there are names.
fn unnamed_ending(alloc: Global) -> Result<Ending, Memory> {
    Ok(Ending {
        fences: Seq::from_slice(alloc, &[0, 10, 5])?,
        threads: Seq::from_slice(alloc, &[1, 9])?,
        queues: Seq::from_slice(alloc, &[0, 1])?,
    })
}

/// What is printed of them.
fn three_threads_text() -> &'static str {
    "one 2 80070057\none 3 words deadbeef 00000000\none 4 words\n\
two 1 value 18446744073709551615\ntwo 3 80004005\nfence f 0\nfence g 10\nfence  5\n\
stalled thread two\nstalled thread \nstalled queue q\nstalled queue r\n"
}

#[test]
fn calls_count_by_thread_and_threads_print_in_order(rt: HostRuntime) -> Result<(), Fail> {
    let alloc = rt.alloc();
    let names = Names {
        threads: names_from(alloc, ["one", "two"])?,
        queues: names_from(alloc, ["q", "r"])?,
        fences: names_from(alloc, ["f", "g"])?,
    };
    let history = three_threads(alloc)?;
    let ending = unnamed_ending(alloc)?;
    let mut found = Vec::new(alloc);
    put_output(
        &mut found,
        &names,
        Status::Stalled,
        history.as_slice(),
        &ending,
    )?;
    assert!(rt; found.as_slice() == three_threads_text().as_bytes());
    Ok(())
}
