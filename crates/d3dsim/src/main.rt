//! The program `d3dsim`: reads a trace, runs it on the plain device, and writes the output.
#![tactic(auto)]

use chooser::PcgChooser;
use run_text::{Status, plain_line};
use std::process::ExitCode;
use std::{env, io};
use text_io::{Sink, StdSink, StdSource, write_all};
use trace_runner::simulate;
use vk_port::PlainDevice;

/// The words behind the program's name. OutOfMemory: memory was refused. Any other error: an argument
/// is no text.
fn words(rt: &HostRuntime) -> io::Result<Vec<String>> {
    let mut arguments = env::args(rt)?;
    let _name = arguments.next();
    Ok(arguments.collect(rt.alloc())?)
}

/// Writes what a run says that was refused memory before it began.
fn say_out_of_memory(sink: &mut impl Sink) -> Status {
    let text = plain_line(Status::Memory).unwrap_or(b"");
    match write_all(sink, text) {
        Ok(()) => Status::Memory,
        Err(_) => Status::WriteFault,
    }
}

/// Runs the trace of standard input, and says how that ended.
fn run(rt: HostRuntime) -> Status {
    let alloc = rt.alloc();
    let mut source = StdSource::new(rt.stdin());
    let mut sink = StdSink::new(rt.stdout());
    let device = PlainDevice::new(alloc, Vec::new(alloc));
    let mut choices = PcgChooser::new(alloc);
    let no_text = [String::new(alloc)];
    let words = words(&rt);
    let words = match &words {
        Ok(words) => words.as_slice(),
        Err(error) if error.kind() == io::ErrorKind::OutOfMemory => {
            return say_out_of_memory(&mut sink);
        }
        Err(_) => no_text.as_slice(),
    };
    simulate(alloc, words, &mut source, &mut sink, device, &mut choices).status
}

fn main(rt: HostRuntime) -> ExitCode {
    ExitCode::from(run(rt).exit_code())
}
