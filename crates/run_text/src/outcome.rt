//! What came of a run, and its output.

ghost use Rattle.std.specs.Prelude.{◌≡◌, ◌++◌, map, flat_map, IfOk, OnOk};
ghost use Rattle.std.specs.Option.{option_copied, option_map};
ghost use Rattle.run_text.specs.Output.{refused_of, refused_text, tells_run, ending_from, shown_history, told_run, value_or_none, output_of};
ghost use Rattle.trace_text.specs.Seen.{seen};

use crate::history::put_events;
use crate::left::{busy_queues, number_at, unfinished_threads};
use crate::names::{Ending, Names, names_of};
use crate::status::Status;
use crate::text::put_output;
use d3d_machine::{Call, Event};
use dx_base::{Hresult, Memory, Seq};
use line_forms::{end_line, put, put_hex, put_next};
use std::alloc::Global;
use trace_lines::{Declared, name_of};
use trace_text::Trace;
use trace_words::Name;

/// What came of a run.
#[derive(Debug, Drop)]
pub struct Outcome {
    /// How the run ended.
    pub status: Status,
    /// The history is printed too.
    pub shown: bool,
    /// The events of the run, in order.
    pub history: Seq<Event>,
    /// The places of the declarations whose creation was refused, among all declared objects, counted from 0.
    pub refused: Seq<u32>,
    /// Each fence's value.
    pub fences: Seq<u64>,
}

impl Status {
    /// The run began, and did not want memory.
    pub fn tells_run(self) -> bool
        ensures { result ≡ tells_run self }
    {
        match self {
            Status::Done
            | Status::Stalled
            | Status::Broken(_, _)
            | Status::Torn(_)
            | Status::DeviceLost => true,
            Status::Usage(_)
            | Status::Refused(_, _)
            | Status::ReadFault
            | Status::WriteFault
            | Status::Memory => false,
        }
    }
}

/// The places of the declarations whose creation is refused, among all declared objects, counted from 0.
#[tactic(auto, unfolding(crate::specs::Output::refused_from))]
pub fn refused_of(alloc: Global, trace: &Trace) -> Result<Seq<u32>, Memory>
    ensures { IfOk result (λ places. places ≡ refused_of (seen trace.now)) }
{
    let declared = trace.declared.as_slice();
    let mut places = Seq::new(alloc);
    for at in 0..declared.len() {
        if declared[at].is_refused() {
            places.push(number_at(at)?)?;
        }
    }
    Ok(places)
}

/// Appends the line of a refused declaration.
#[tactic(auto, unfolding(crate::specs::Output::refused_text, line_forms::specs::Lines::line_text, line_forms::specs::Lines::rest_of_line))]
fn put_refused(out: &mut Vec<u8>, names: &[Name], place: usize) -> Result<(), Memory>
    ensures { OnOk result (out.new.items ≡ out.old.items ++ refused_text names.now place) }
{
    put(out, b"refused")?;
    put_next(out, name_of(names, place))?;
    put_hex(out, Hresult::InvalidArg.code())?;
    end_line(out)
}

/// Appends the lines of refused declarations.
fn put_all_refused(out: &mut Vec<u8>, names: &[Name], places: &[u32]) -> Result<(), Memory>
    ensures { OnOk result (out.new.items ≡ out.old.items ++ flat_map (refused_text names.now) places.now) }
{
    for place in places {
        put_refused(out, names, *place as usize)?;
    }
    Ok(())
}

/// The names of a trace's objects and threads; none where no trace was read.
fn names_in(trace: Option<&Trace>) -> &[Name]
    ensures { result.now ≡ (value_or_none (option_map seen (option_copied trace.entry))).names }
{
    match trace {
        Some(trace) => trace.names.as_slice(),
        None => &[],
    }
}

/// The objects of a trace; none where no trace was read.
fn objects_in(trace: Option<&Trace>) -> &[Declared]
    ensures { result.now ≡ (value_or_none (option_map seen (option_copied trace.entry))).declared }
{
    match trace {
        Some(trace) => trace.declared.as_slice(),
        None => &[],
    }
}

/// The scripts of a trace; none where no trace was read.
fn scripts_in(trace: Option<&Trace>) -> &[Seq<Call>]
    ensures { result.now ≡ (value_or_none (option_map seen (option_copied trace.entry))).scripts }
{
    match trace {
        Some(trace) => trace.scripts.as_slice(),
        None => &[],
    }
}

/// What a run leaves.
fn ending(
    alloc: Global,
    queues: usize,
    scripts: &[Seq<Call>],
    outcome: &Outcome,
) -> Result<Ending, Memory>
    ensures { IfOk result (λ ending. ending ≡ ending_from queues scripts.now outcome.now) }
{
    let history = outcome.history.as_slice();
    Ok(Ending {
        fences: Seq::from_slice(alloc, outcome.fences.as_slice())?,
        threads: unfinished_threads(alloc, scripts, history)?,
        queues: busy_queues(alloc, queues, history)?,
    })
}

/// Appends the history, where it is shown.
fn put_shown(out: &mut Vec<u8>, names: &Names, outcome: &Outcome) -> Result<(), Memory>
    ensures { OnOk result (out.new.items ≡ out.old.items ++ shown_history names.now outcome.now) }
{
    if outcome.shown {
        put(out, b"history\n")?;
        put_events(out, names, outcome.history.as_slice())
    } else {
        Ok(())
    }
}

/// Appends the output of a run: refused declarations, what the status says, and the history.
#[tactic(auto, unfolding(crate::specs::Output::told_run, crate::specs::Text::output_text))]
fn put_outcome(
    out: &mut Vec<u8>,
    objects: &[Name],
    names: &Names,
    ending: &Ending,
    outcome: &Outcome,
) -> Result<(), Memory>
    ensures { OnOk result (out.new.items ≡ out.old.items ++ told_run objects.now names.now ending.now outcome.now) }
{
    let history = outcome.history.as_slice();
    if outcome.status.tells_run() {
        put_all_refused(out, objects, outcome.refused.as_slice())?;
        put_output(out, names, outcome.status, history, ending)?;
        put_shown(out, names, outcome)
    } else {
        put_output(out, names, outcome.status, history, ending)
    }
}

/// The output of a run: for a run that began the refused declarations, the answers of its calls, for Done and Stalled
/// the fences' values, what the status says, and the history where it is shown; for any other what the status says.
/// A number past the names prints as an empty name, and where no trace was read there are no names.
#[tactic(auto, unfolding(crate::specs::Output::output_of))]
pub fn output(alloc: Global, trace: Option<&Trace>, outcome: &Outcome) -> Result<Vec<u8>, Memory>
    ensures { IfOk result (λ bytes. bytes.items ≡ output_of (option_map seen (option_copied trace.entry)) outcome.now) }
{
    let objects = names_in(trace);
    let names = names_of(alloc, objects, objects_in(trace))?;
    let ending = ending(alloc, names.queues.len(), scripts_in(trace), outcome)?;
    let mut out = Vec::new(alloc);
    put_outcome(&mut out, objects, &names, &ending, outcome)?;
    Ok(out)
}
