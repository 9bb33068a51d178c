//! Texts, with the status and the output of their runs.

use super::{DECLARATIONS, Given, ITS_OUTPUT, ROUND, plain, run_of};
use run_text::Status;
use std::test::Fail;
use trace_text::Cause;

/// The declarations, the calls, the status and the output of a run.
type Row = (&'static str, &'static str, Status, &'static str);

/// The calls of a list that is refused at its end, and of another that is executed.
const BAD_COPY: &str =
    "write u 0 5\nreset l a\ncopy l b 0 u 4 16\nclose l\nreset m a\ncopy m b 0 u 0 4\nclose m\nexecute q m\nsignal q f 1\nhostwait f 1\nread b 0 4\nend\n";

/// Runs that begin.
const DONE_ROWS: [Row; 6] = [
    (DECLARATIONS, ROUND, Status::Done, ITS_OUTPUT),
    ("d3dtrace 1\nend\n", "", Status::Done, ""),
    (
        "d3dtrace 1\nbuffer z upload 0\nthread t\nwrite z 0 1\nend\n",
        "",
        Status::Done,
        "refused z 80070057\nt 1 80070057\n",
    ),
    (
        DECLARATIONS,
        "signal q f 1\nexecute q\nsignal q f 2\nhostwait f 2\nvalue f\nend\n",
        Status::Done,
        "t 5 value 2\nfence f 2\n",
    ),
    (
        DECLARATIONS,
        BAD_COPY,
        Status::Done,
        "t 4 80070057\nt 11 words 00000005\nfence f 1\n",
    ),
    (
        DECLARATIONS,
        "hostwait f 1\nend\n",
        Status::Stalled,
        "fence f 0\nstalled thread t\n",
    ),
];

/// Calls of one thread that signals and waits.
const HOST_ROWS: [Row; 3] = [
    (
        DECLARATIONS,
        "hostsignal f 7\nvalue f\nhostsignal f 3\nvalue f\nhostsignal f 9\nvalue f\nhostwait f 5\nend\n",
        Status::Done,
        "t 2 value 7\nt 4 value 3\nt 6 value 9\nfence f 9\n",
    ),
    (
        DECLARATIONS,
        "hostsignal f 7\nhostwait f 5\nhostsignal f 3\nvalue f\nend\n",
        Status::Done,
        "t 4 value 3\nfence f 3\n",
    ),
    // the value that would do came before the wait
    (
        DECLARATIONS,
        "hostsignal f 7\nhostsignal f 3\nhostwait f 5\nend\n",
        Status::Stalled,
        "fence f 3\nstalled thread t\n",
    ),
];

/// A wait behind two signals of a queue, of which the later one is less.
const FALLING: &str = "signal q f 7\nsignal q f 3\nhostwait f 5\nvalue f\nend\n";

/// Where the thread goes on first, so many calls, and then only where nothing else can: the status and the output.
const FALLING_ROWS: [(usize, Status, &str); 2] = [
    (3, Status::Done, "t 4 value 3\nfence f 3\n"),
    (2, Status::Stalled, "fence f 3\nstalled thread t\n"),
];

/// Texts that are refused.
const REFUSED_ROWS: [Row; 6] = [
    (
        "",
        "",
        Status::Refused(1, Cause::Cut),
        "refused line 1 cut\n",
    ),
    (
        "d3dtrace 1\nqueue q direct\nfence q 0\nend\n",
        "",
        Status::Refused(3, Cause::Again),
        "refused line 3 again\n",
    ),
    (
        "d3dtrace 1\nfence f 18446744073709551616\nend\n",
        "",
        Status::Refused(2, Cause::Number),
        "refused line 2 number\n",
    ),
    (
        "d3dtrace 1\n",
        "",
        Status::Refused(2, Cause::Cut),
        "refused line 2 cut\n",
    ),
    (
        "d3dtrace 1\nqueue q direct\nqueue r direct\nend\n",
        "",
        Status::Refused(3, Cause::Later),
        "refused line 3 later\n",
    ),
    (
        "d3dtrace 1\nqueue q dir",
        "",
        Status::Refused(2, Cause::Cut),
        "refused line 2 cut\n",
    ),
];

#[test]
fn runs_end_and_print_as_their_rows_say(rt: HostRuntime) -> Result<(), Fail> {
    for (front, back, status, output) in DONE_ROWS {
        let (got, sink) = run_of(rt.alloc(), plain([front, back]))?;
        assert!(rt; got == status, "the status of {output}");
        assert!(rt; sink.held() == output.as_bytes(), "not {output}");
    }
    Ok(())
}

#[test]
fn a_signal_of_the_host_meets_waits_and_lets_the_value_fall(rt: HostRuntime) -> Result<(), Fail> {
    for (front, back, status, output) in HOST_ROWS {
        let (got, sink) = run_of(rt.alloc(), plain([front, back]))?;
        assert!(rt; got == status, "the status of {output}");
        assert!(rt; sink.held() == output.as_bytes(), "not {output}");
    }
    Ok(())
}

/// The first step so many times, and then the second.
fn second_behind(calls: usize) -> [u64; 32] {
    let mut choices = [1; 32];
    for k in 0..32 {
        if k < calls {
            choices[k] = 0;
        }
    }
    choices
}

#[test]
fn a_wait_is_met_by_a_value_that_came_since_it_began(rt: HostRuntime) -> Result<(), Fail> {
    for (calls, status, output) in FALLING_ROWS {
        let choices = second_behind(calls);
        let given = Given {
            choices: &choices,
            ..plain([DECLARATIONS, FALLING])
        };
        let (got, sink) = run_of(rt.alloc(), given)?;
        assert!(rt; got == status, "the status of {output}");
        assert!(rt; sink.held() == output.as_bytes(), "not {output}");
    }
    Ok(())
}

#[test]
fn refused_texts_print_their_line_and_cause(rt: HostRuntime) -> Result<(), Fail> {
    for (front, back, status, output) in REFUSED_ROWS {
        let (got, sink) = run_of(rt.alloc(), plain([front, back]))?;
        assert!(rt; got == status, "the status of {output}");
        assert!(rt; sink.held() == output.as_bytes(), "not {output}");
    }
    Ok(())
}

#[test]
fn bad_words_are_answered_and_nothing_is_read(rt: HostRuntime) -> Result<(), Fail> {
    let alloc = rt.alloc();
    let bad = ["--choices".to_string(alloc)?, "x".to_string(alloc)?];
    let given = Given {
        words: &bad,
        fails: [1, 0, 1],
        ..plain([DECLARATIONS, ROUND])
    };
    let (got, sink) = run_of(alloc, given)?;
    assert!(rt; got == Status::Usage(2));
    assert!(rt; sink.held() == b"usage 2\n".as_slice());
    Ok(())
}

#[test]
fn a_history_is_shown_where_it_is_asked_for(rt: HostRuntime) -> Result<(), Fail> {
    let alloc = rt.alloc();
    let shown = ["--history".to_string(alloc)?];
    let calls = "hostsignal f 18446744073709551615\nvalue f\nhostsignal f 0\nvalue f\nend\n";
    let output =
        "t 2 value 18446744073709551615\nt 4 value 0\nfence f 0\nhistory\ncall t ok\ncall t value 18446744073709551615\ncall t ok\ncall t value 0\n";
    let given = Given {
        words: &shown,
        ..plain([DECLARATIONS, calls])
    };
    let (got, sink) = run_of(alloc, given)?;
    assert!(rt; got == Status::Done);
    assert!(rt; sink.held() == output.as_bytes());
    Ok(())
}
