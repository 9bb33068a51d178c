//! Faults of a source, of a sink and of a device, at the first call and in mid-stream.

use super::{DECLARATIONS, Given, ITS_OUTPUT, ROUND, plain, report_of, run_of};
use run_text::Status;
use std::test::Fail;

/// What is printed where the device is lost before anything was answered.
const LOST: &str = "device lost 887a0005\n";

/// A round whose calls of the source, of the sink and of the device fail at these numbers.
fn failing<'a>(fails: [u64; 3]) -> Given<'a> {
    Given {
        fails,
        ..plain([DECLARATIONS, ROUND])
    }
}

#[test]
fn each_call_of_the_device_may_lose_it(rt: HostRuntime) -> Result<(), Fail> {
    for call in 1..16 {
        let (got, sink) = run_of(rt.alloc(), failing([0, 0, call]))?;
        assert!(rt; got == Status::DeviceLost, "at call {call}");
        assert!(rt; sink.held() == LOST.as_bytes(), "the output at call {call}");
    }
    let (got, sink) = run_of(rt.alloc(), failing([0, 0, 16]))?;
    assert!(rt; got == Status::Done);
    assert!(rt; sink.held() == ITS_OUTPUT.as_bytes());
    Ok(())
}

/// The calls of the source, of the sink and of the device that fail, with the status and the output of the round.
const FAULTS: [([u64; 3], Status, &str); 5] = [
    ([1, 0, 0], Status::ReadFault, "read fault\n"),
    ([2, 0, 0], Status::ReadFault, "read fault\n"),
    ([3, 0, 0], Status::Done, ITS_OUTPUT),
    ([0, 1, 0], Status::WriteFault, ""),
    ([0, 2, 0], Status::Done, ITS_OUTPUT),
];

#[test]
fn a_fault_ends_a_run_as_its_row_says(rt: HostRuntime) -> Result<(), Fail> {
    for (fails, status, output) in FAULTS {
        let (got, sink) = run_of(rt.alloc(), failing(fails))?;
        assert!(rt; got == status, "the status of {output}");
        assert!(rt; sink.held() == output.as_bytes(), "not {output}");
    }
    Ok(())
}

#[test]
fn a_sink_that_is_full_has_the_beginning_of_the_output(rt: HostRuntime) -> Result<(), Fail> {
    let given = Given {
        room: 10,
        ..plain([DECLARATIONS, ROUND])
    };
    let (got, sink) = run_of(rt.alloc(), given)?;
    assert!(rt; got == Status::WriteFault);
    assert!(rt; sink.held() == b"t 8 words ".as_slice());
    Ok(())
}

#[test]
fn what_was_answered_is_printed_before_a_lost_device(rt: HostRuntime) -> Result<(), Fail> {
    let calls = "write u 0 1 2 3 4\nread b 0 4\nwrite u 0 5\nend\n";
    let given = Given {
        fails: [0, 0, 5],
        ..plain([DECLARATIONS, calls])
    };
    let (report, sink) = report_of(rt.alloc(), given)?;
    assert!(rt; report.status == Status::DeviceLost);
    assert!(rt; sink.held() == b"t 2 words 00000000\ndevice lost 887a0005\n".as_slice());
    // The choice of the refused step was drawn, and its step was not taken.
    assert!(rt; report.taken.len() == 2);
    assert!(rt; report.choices.len() == 3);
    assert!(rt; report.history.len() == 2);
    drop(report);
    Ok(())
}
