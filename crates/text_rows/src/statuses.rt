//! Printed histories, and the output of runs of a trace.

use d3d_machine::{Call, Event, Reply};
use dx_base::{FenceId, Hresult, ListId, Memory, QueueId, Seq, ThreadId, Torn};
use run_text::{Outcome, Rule, Status, output, print_history, refused_of};
use std::alloc::Global;
use std::test::Fail;
use trace_text::{Cause, Trace, read_trace};

/// A trace of two fences, a queue and a thread, with two buffers whose creation is refused.
const WRITTEN: &str = "d3dtrace 1\nqueue q direct\nfence f 0\nfence g_2 18446744073709551615\n\
buffer u upload 16\nbuffer z upload 0\nlist l direct\nbuffer y readback 6\nthread t\nclose l\n\
execute q l\nsignal q f 1\nhostwait f 1\nvalue g_2\nread u 0 16\nhostwait f 1\nend\n";

/// The trace.
fn trace_of_refused_buffers(alloc: Global) -> Result<Trace, &'static str> {
    match read_trace(alloc, WRITTEN.as_bytes()) {
        Ok(trace) => Ok(trace),
        Err(_) => Err("the text is not read"),
    }
}

/// A call of the thread with its reply.
fn answered(call: Call, reply: Reply) -> Event {
    Event::Call {
        thread: ThreadId(0),
        call,
        reply,
    }
}

/// Calls with each kind of reply, the last of which waits, and one of two operations that completes.
fn history_of(alloc: Global) -> Result<Seq<Event>, Memory> {
    let (queue, fence) = (QueueId(0), FenceId(0));
    let mut history = Seq::new(alloc);
    history.push(answered(Call::Close { list: ListId(0) }, Reply::Error(Hresult::Fail)))?;
    history.push(answered(
        Call::Execute {
            queue,
            lists: Seq::new(alloc),
        },
        Reply::Done,
    ))?;
    history.push(answered(
        Call::Signal {
            queue,
            fence,
            value: 1,
        },
        Reply::Done,
    ))?;
    history.push(Event::Queue(queue))?;
    history.push(answered(Call::HostWait { fence, value: 0 }, Reply::Done))?;
    history.push(Event::Awake(ThreadId(0)))?;
    history.push(answered(Call::Value { fence: FenceId(1) }, Reply::Value(7)))?;
    history.push(answered(
        Call::Value { fence },
        Reply::Words(Seq::from_slice(alloc, &[1, 0xdead_beef])?),
    ))?;
    history.push(answered(Call::HostWait { fence, value: 1 }, Reply::Done))?;
    Ok(history)
}

/// The history, as it is printed.
const EVENTS: &str = "call t 80004005\ncall t ok\ncall t ok\nqueue q\ncall t ok\nawake t\n\
call t value 7\ncall t words 00000001 deadbeef\ncall t ok\n";

/// The history as it is printed.
fn printed_history(alloc: Global, trace: &Trace) -> Result<Vec<u8>, Memory> {
    let history = history_of(alloc)?;
    print_history(alloc, trace, history.as_slice())
}

#[test]
fn each_event_has_its_line(rt: HostRuntime) -> Result<(), Fail> {
    let trace = trace_of_refused_buffers(rt.alloc())?;
    let printed = printed_history(rt.alloc(), &trace)?;
    assert!(rt; printed.as_slice() == EVENTS.as_bytes());
    Ok(())
}

/// What came of that run, with that status.
fn outcome_of(
    alloc: Global,
    trace: &Trace,
    status: Status,
    shown: bool,
) -> Result<Outcome, Memory> {
    Ok(Outcome {
        status,
        shown,
        history: history_of(alloc)?,
        refused: refused_of(alloc, trace)?,
        fences: Seq::from_slice(alloc, &[1, 7])?,
    })
}

/// What stands before the last lines of a run that began.
const ANSWERS: &str = "refused z 80070057\nrefused y 80070057\nt 1 80004005\nt 5 value 7\n\
t 6 words 00000001 deadbeef\n";

/// What each status prints behind the answers, and whether they stand before it.
fn status_rows() -> [(Status, bool, &'static str); 10] {
    let torn = Torn {
        heap: 3,
        slot: 70000,
        declared: 0,
        found: 4_294_967_295,
    };
    [
        (Status::Done, true, "fence f 1\nfence g_2 7\n"),
        (
            Status::Stalled,
            true,
            "fence f 1\nfence g_2 7\nstalled thread t\nstalled queue q\n",
        ),
        (Status::Usage(1), false, "usage 1\n"),
        (
            Status::Refused(2, Cause::Name),
            false,
            "refused line 2 name\n",
        ),
        (Status::ReadFault, false, "read fault\n"),
        (Status::WriteFault, false, ""),
        (Status::Broken(Rule::B1, 4), true, "broken B1 4\n"),
        (Status::Torn(torn), true, "torn 3 70000 0 4294967295\n"),
        (Status::DeviceLost, true, "device lost 887a0005\n"),
        (Status::Memory, false, "out of memory 8007000e\n"),
    ]
}

/// The lines of a run that began, and the history where it is shown.
fn told(alloc: Global, began: bool, shown: bool, last: &str) -> Result<String, Memory> {
    let mut text = String::new(alloc);
    if began {
        text.push_str(ANSWERS)?;
    }
    text.push_str(last)?;
    if began && shown {
        text.push_str("history\n")?;
        text.push_str(EVENTS)?;
    }
    Ok(text)
}

/// The output of that run is what is wanted.
fn is_told(
    alloc: Global,
    trace: &Trace,
    row: (Status, bool, &'static str),
    shown: bool,
) -> Result<bool, Memory> {
    let (status, began, last) = row;
    let outcome = outcome_of(alloc, trace, status, shown)?;
    let found = output(alloc, Some(trace), &outcome)?;
    let want = told(alloc, began, shown, last)?;
    Ok(found.as_slice() == want.as_bytes())
}

#[test]
fn each_status_of_a_trace_has_its_lines(rt: HostRuntime) -> Result<(), Fail> {
    let trace = trace_of_refused_buffers(rt.alloc())?;
    for row in status_rows() {
        assert!(rt; is_told(rt.alloc(), &trace, row, false)?, "at {}", row.2);
        assert!(rt;
            is_told(rt.alloc(), &trace, row, true)?,
            "with a history at {}",
            row.2
        );
    }
    Ok(())
}

#[test]
fn where_no_trace_was_read_no_name_is_told(rt: HostRuntime) -> Result<(), Fail> {
    let alloc = rt.alloc();
    let outcome = Outcome {
        status: Status::Refused(1, Cause::Cut),
        shown: true,
        history: Seq::new(alloc),
        refused: Seq::new(alloc),
        fences: Seq::new(alloc),
    };
    let found = output(alloc, None, &outcome)?;
    assert!(rt; found.as_slice() == b"refused line 1 cut\n".as_slice());
    Ok(())
}
