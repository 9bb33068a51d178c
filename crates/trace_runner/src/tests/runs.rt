//! Longer runs, and runs by many choices.

use super::{DECLARATIONS, Given, ITS_OUTPUT, ROUND, plain, report_of, run_of};
use dx_base::Memory;
use run_text::Status;
use std::alloc::{AllocError, Global};
use std::test::Fail;

/// Forty numbers that a seed gives.
fn numbers(alloc: Global, seed: u64) -> Result<Vec<u64>, Memory> {
    let mut list = Vec::new(alloc);
    let mut number = seed;
    for _place in 0..40 {
        number = number
            .wrapping_mul(6_364_136_223_846_793_005)
            .wrapping_add(1_442_695_040_888_963_407);
        list.push(number >> 33)?;
    }
    Ok(list)
}

#[test]
fn a_round_prints_the_same_by_two_hundred_lists_of_choices(rt: HostRuntime) -> Result<(), Fail> {
    let alloc = rt.alloc();
    for seed in 0..200 {
        let choices = numbers(alloc, seed)?;
        let given = Given {
            choices: &choices,
            ..plain([DECLARATIONS, ROUND])
        };
        let (got, sink) = run_of(alloc, given)?;
        assert!(rt; got == Status::Done, "the status by {seed}");
        assert!(rt;
            sink.held() == ITS_OUTPUT.as_bytes(),
            "the output by {seed}"
        );
    }
    Ok(())
}

#[test]
fn a_report_has_a_choice_for_each_step_and_all_events(rt: HostRuntime) -> Result<(), Fail> {
    let (report, _sink) = report_of(rt.alloc(), plain([DECLARATIONS, ROUND]))?;
    assert!(rt; report.status == Status::Done);
    assert!(rt; report.choices.len() == report.taken.len());
    assert!(rt; report.history.len() == 11);
    drop(report);
    Ok(())
}

/// The declarations of nine buffers behind a dead one, of three fences, and of two lists.
const MANY: &str =
    "d3dtrace 1\nqueue q direct\nfence f 3\nfence g 0\nfence h 7\nbuffer z upload 0\nbuffer a upload 16\nbuffer b readback 16\nbuffer c upload 8\nbuffer d readback 8\nbuffer e upload 4\nbuffer i readback 4\nbuffer j upload 4\nbuffer k readback 4\nbuffer n readback 4\nallocator x direct\nallocator y direct\nlist l direct\nlist m direct\nthread t\n";

/// Two lists of two copies each, executed by one call.
const TWO_LISTS: &str =
    "write a 0 1 2 3 4\nwrite c 0 5 6\nwrite e 0 7\nwrite j 0 8\nreset l x\nreset m y\ncopy l b 0 a 0 16\ncopy l d 0 c 0 8\ncopy m i 0 e 0 4\ncopy m k 0 j 0 4\nclose l\nclose m\nexecute q l m\nsignal q g 1\nhostwait g 1\nread b 0 16\nread d 0 8\nread i 0 4\nread k 0 4\nread n 0 4\nvalue f\nvalue h\nend\n";

/// What they print.
const THEIR_OUTPUT: &str =
    "refused z 80070057\nt 16 words 00000001 00000002 00000003 00000004\nt 17 words 00000005 00000006\nt 18 words 00000007\nt 19 words 00000008\nt 20 words 00000000\nt 21 value 3\nt 22 value 7\nfence f 3\nfence g 1\nfence h 7\n";

#[test]
fn all_lists_of_a_call_of_execute_are_executed(rt: HostRuntime) -> Result<(), Fail> {
    let (got, sink) = run_of(rt.alloc(), plain([MANY, TWO_LISTS]))?;
    assert!(rt; got == Status::Done);
    assert!(rt; sink.held() == THEIR_OUTPUT.as_bytes());
    Ok(())
}

/// The calls of 64 rounds, and what they print. Round n writes n, and signals it.
fn rounds(alloc: Global) -> Result<(String, String), AllocError> {
    let (mut calls, mut output) = (String::new(alloc), String::new(alloc));
    for n in 1..65u64 {
        calls.push_str(format!(in alloc; "write u 0 1 2 3 {n:x}\n")?.as_str())?;
        calls.push_str("reset l a\ncopy l b 0 u 0 16\nclose l\nexecute q l\n")?;
        calls.push_str(format!(in alloc; "signal q f {n}\nhostwait f {n}\n")?.as_str())?;
        calls.push_str("read b 0 16\n")?;
        let call = 8 * n;
        output.push_str(format!(in alloc;
            "t {call} words 00000001 00000002 00000003 {n:08x}\n"
        )?.as_str())?;
    }
    calls.push_str("end\n")?;
    output.push_str("fence f 64\n")?;
    Ok((calls, output))
}

#[test]
fn each_of_64_rounds_reads_what_it_wrote(rt: HostRuntime) -> Result<(), Fail> {
    let alloc = rt.alloc();
    let (calls, output) = rounds(alloc)?;
    let (got, sink) = run_of(alloc, plain([DECLARATIONS, calls.as_str()]))?;
    assert!(rt; got == Status::Done);
    assert!(rt; sink.held() == output.as_bytes());
    Ok(())
}
