//! The program `d3djournal`: reads a journal, checks its steps, and writes what they are.
#![tactic(auto)]

use journal_runner::{ToolFault, exit_code, journal_main, refuse_memory};
use std::process::ExitCode;
use std::{env, io};
use text_io::{StdSink, StdSource};
use vk_journal_check::StepCheck;

/// The words behind the program's name. OutOfMemory: memory was refused. Any other error: an argument
/// is no text.
fn words(rt: &HostRuntime) -> io::Result<Vec<String>> {
    let mut arguments = env::args(rt)?;
    let _name = arguments.next();
    Ok(arguments.collect(rt.alloc())?)
}

/// Checks the journal of standard input, and says what came of it.
fn run(rt: HostRuntime) -> Result<StepCheck, ToolFault> {
    let alloc = rt.alloc();
    let mut source = StdSource::new(rt.stdin());
    let mut sink = StdSink::new(rt.stdout());
    let no_text = [String::new(alloc)];
    let words = words(&rt);
    let words = match &words {
        Ok(words) => words.as_slice(),
        Err(error) if error.kind() == io::ErrorKind::OutOfMemory => {
            return refuse_memory(&mut sink);
        }
        Err(_) => no_text.as_slice(),
    };
    journal_main(alloc, words, &mut source, &mut sink)
}

fn main(rt: HostRuntime) -> ExitCode {
    ExitCode::from(exit_code(&run(rt)))
}
