//! Whole runs: the words, the bytes of a trace and the choices in; the bytes of the output and a report out.

mod faults;
mod rounds;
mod rows;
mod runs;

use crate::simulate;
use chooser::ListChooser;
use dx_base::Memory;
use run_text::{Report, Status};
use std::alloc::Global;
use std::test::Fail;
use text_io::{BytesSink, BytesSource};
use vk_port::PlainDevice;

/// The declarations that most rows begin with.
const DECLARATIONS: &str =
    "d3dtrace 1\nqueue q direct\nfence f 0\nbuffer u upload 16\nbuffer b readback 16\nallocator a direct\nlist l direct\nlist m direct\nthread t\n";

/// The calls of one round.
const ROUND: &str =
    "write u 0 1 2 3 4\nreset l a\ncopy l b 0 u 0 16\nclose l\nexecute q l\nsignal q f 1\nhostwait f 1\nread b 0 16\nend\n";

/// What it prints.
const ITS_OUTPUT: &str = "t 8 words 00000001 00000002 00000003 00000004\nfence f 1\n";

/// Room for the output of every run.
const ROOM: usize = 16_384;

/// What a run is given: its words, its text in two parts, its choices, the calls of the source, of the sink and of the
/// device that fail, counted from 1, and the room of the sink.
#[derive(Clone, Copy)]
struct Given<'a> {
    words: &'a [String],
    texts: [&'a str; 2],
    choices: &'a [u64],
    fails: [u64; 3],
    room: usize,
}

/// A run of a text with all choices 0, no words and no faults.
fn plain<'a>(texts: [&'a str; 2]) -> Given<'a> {
    Given {
        words: &[],
        texts,
        choices: &[],
        fails: [0, 0, 0],
        room: ROOM,
    }
}

/// The bytes of texts, one behind the other.
fn joined(alloc: Global, texts: [&str; 2]) -> Result<Vec<u8>, Memory> {
    let mut bytes = Vec::new(alloc);
    for text in texts {
        bytes.extend_from_slice(text.as_bytes())?;
    }
    Ok(bytes)
}

/// The report of a run, and what it wrote. The device is made last: nothing leaves while it is owned here.
fn report_of(alloc: Global, given: Given) -> Result<(Report<PlainDevice>, BytesSink), Fail> {
    let [of_source, of_sink, of_device] = given.fails;
    let mut source = BytesSource::new(joined(alloc, given.texts)?, [of_source].to_vec(alloc)?);
    let mut sink = BytesSink::new(alloc, given.room, [of_sink].to_vec(alloc)?)?;
    let mut choices = ListChooser::new(alloc, given.choices.to_vec(alloc)?);
    let fails = [of_device].to_vec(alloc)?;
    let report = simulate(
        alloc,
        given.words,
        &mut source,
        &mut sink,
        PlainDevice::new(alloc, fails),
        &mut choices,
    );
    Ok((report, sink))
}

/// The status of a run, and what it wrote.
fn run_of(alloc: Global, given: Given) -> Result<(Status, BytesSink), Fail> {
    let (report, sink) = report_of(alloc, given)?;
    let status = report.status;
    drop(report);
    Ok((status, sink))
}
