//! The program `journal_costs`: reads a journal from standard input, and prints it again, to show what that costs.
#![tactic(auto)]

use journal_runner::{ToolFault, exit_code};
use journal_text::{JOURNAL_BYTES, print_steps, read_steps};
use std::alloc::Global;
use std::process::ExitCode;
use text_io::{Failed, Sink, Source, StdSink, StdSource, read_all, write_all};

/// The text of the journal that a source has.
fn printed(alloc: Global, source: &mut impl Source) -> Result<Vec<u8>, ToolFault> {
    let bytes = read_all(alloc, source, JOURNAL_BYTES + 1)?;
    let (plan, steps) = read_steps(alloc, bytes.as_slice())?;
    let text = print_steps(alloc, &plan, steps.as_slice());
    drop(plan);
    drop(steps);
    Ok(text?)
}

/// Prints the journal of a source to a sink.
fn print(alloc: Global, source: &mut impl Source, sink: &mut impl Sink) -> Result<(), ToolFault> {
    let text = printed(alloc, source)?;
    match write_all(sink, text.as_slice()) {
        Ok(()) => Ok(()),
        Err(Failed) => Err(ToolFault::WriteFault),
    }
}

fn main(rt: HostRuntime) -> ExitCode {
    let mut source = StdSource::new(rt.stdin());
    let mut sink = StdSink::new(rt.stdout());
    match print(rt.alloc(), &mut source, &mut sink) {
        Ok(()) => ExitCode::from(0),
        Err(fault) => ExitCode::from(exit_code(&Err(fault))),
    }
}
