//! The first example, which is a trace of one round.

use super::{DECLARATIONS, ROUND, joined};
use d3d_machine::World;
use dx_base::Memory;
use std::alloc::Global;
use std::process::Abort;
use std::test::Fail;
use trace_text::{Trace, print_trace, read_trace, world};

/// The calls of the round as they are printed.
const PRINTED_ROUND: &str =
    "write u 0 00000001 00000002 00000003 00000004\nreset l a\ncopy l b 0 u 0 16\nclose l\nexecute q l\nsignal q f 1\nhostwait f 1\nread b 0 16\nend\n";

/// The trace of a text in two parts.
fn trace_of(alloc: Global, texts: [&str; 2]) -> Result<Trace, Fail> {
    let bytes = joined(alloc, texts)?;
    match read_trace(alloc, bytes.as_slice()) {
        Ok(trace) => Ok(trace),
        Err(_) => Err(Fail::from("the text is not read")),
    }
}

/// Whether a trace says this world.
fn says_world(alloc: Global, trace: &Trace, said: &World) -> Result<bool, Memory> {
    let own = world(alloc, trace)?;
    let same = own == *said;
    drop(own);
    Ok(same)
}

/// Whether two traces say one world.
fn say_one_world(alloc: Global, one: &Trace, other: &Trace) -> Result<bool, Memory> {
    let said = world(alloc, one)?;
    let same = says_world(alloc, other, &said);
    drop(said);
    same
}

/// Compares how a trace of the round is printed, and what the printed text says.
fn is_printed(rt: &impl Abort, alloc: Global, trace: &Trace) -> Result<(), Fail> {
    let text = print_trace(alloc, trace)?;
    assert!(rt; text == joined(alloc, [DECLARATIONS, PRINTED_ROUND])?);
    let again = trace_of(alloc, [DECLARATIONS, PRINTED_ROUND])?;
    let same = say_one_world(alloc, &again, trace);
    drop(again);
    assert!(rt; same?);
    Ok(())
}

#[test]
fn the_first_example_is_printed_with_eight_digits_and_says_the_same_world(
    rt: HostRuntime,
) -> Result<(), Fail> {
    let alloc = rt.alloc();
    let trace = trace_of(alloc, [DECLARATIONS, ROUND])?;
    let printed = is_printed(&rt, alloc, &trace);
    drop(trace);
    printed
}
