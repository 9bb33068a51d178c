//! The whole of a program's run: it reads a trace, runs it by choices, and writes the output.

ghost use Rattle.std.specs.Prelude.{ℕ, ◌≡◌, ◌⊎◌, [], Option, length, map, string_bytes, None, Some, IsSome, IfOk, IfErr, IfSome, OnOk, Ok, Err};
ghost use Rattle.std.specs.Option.{option_copied, option_map};
ghost use Rattle.d3d_machine.specs.World.{IsWorld, HasOneQueueAtMost};
ghost use Rattle.d3d_machine.specs.Play.{state_after};
ghost use Rattle.sys_core.specs.Ahead.{IsWhole};
ghost use Rattle.sys_core.specs.Keeps.{IsSystem};
ghost use Rattle.verdicts.specs.declared.rules.Verdict.TheVariants.{Clean};
ghost use Rattle.sys_core.specs.Over.{IsOver};
ghost use Rattle.sys_core.specs.Answered.{HasCause};
ghost use Rattle.vk_port.specs.DeviceView.{DeviceView};
ghost use Rattle.vk_port.specs.Machine.{shown};
ghost use Rattle.sys_core.specs.declared.over.Over.TheVariants as over;
ghost use Rattle.trace_runner.specs.Report.{Ends, IsReport, IsWritten, Ran, Says, Writes, IsUsageAt, IsRefusalAt, IsUnrun, IsTraceGiven, IsFaultless, IsComplete, ended_by, status_at, is_shown, refused_in, left_by, RanTrace};
ghost use Rattle.trace_runner.specs.Steps.{Went};
ghost use Rattle.trace_runner.specs.Words.{said_by, number_said};
ghost use Rattle.run_text.specs.Output.{output_of};
ghost use Rattle.trace_text.specs.Seen.{seen};
ghost use Rattle.trace_text.specs.Values.{value_of};
ghost use Rattle.trace_text.specs.WorldOf.{world_of_value};
ghost use Rattle.run_text.specs.declared.outcome.Outcome.{Outcome as WhatCame};
ghost use Rattle.trace_text.specs.Values.{Value};
ghost use Rattle.run_text.specs.declared.status.Status.TheVariants as status;
ghost use Rattle.verdicts.specs.declared.rules.Verdict.TheVariants as verdict;

use crate::log::Log;
use crate::steps::take_steps;
use crate::words::read_words;
use chooser::Chooser;
use d3d_machine::{Event, World};
use dx_base::{Memory, Seq, TRACE_BYTES};
use run_text::{Outcome, Report, Status, Verdict, output, plain_line, refused_of};
use std::alloc::Global;
use sys_core::{Over, Sys, SysFault};
use text_io::{ReadAll, Sink, Source, read_all, write_all};
use trace_text::{Trace, TraceFault, read_trace, world};
use vk_port::VkDevice;

/// The run of a world, before its output is written.
#[derive(Drop)]
struct Run<D> {
    status: Status,
    history: Vec<Event>,
    fences: Seq<u64>,
    device: D,
}

/// A call, before its output is written.
#[derive(Drop)]
struct Ended<D> {
    trace: Option<Trace>,
    outcome: Outcome,
    log: Log,
    device: D,
}

/// The status of a run that a fault ended.
fn status_of(fault: SysFault) -> Status
    ensures { result ≡ ended_by fault }
{
    match fault {
        SysFault::Memory => Status::Memory,
        SysFault::Lost => Status::DeviceLost,
    }
}

/// The status of a run that took its last step.
fn status_at(end: Over) -> Status
    requires { (end ≡ over.Done) ⊎ (end ≡ over.Stalled) }
    ensures { result ≡ status_at end }
{
    match end {
        Over::Done => Status::Done,
        Over::Stalled => Status::Stalled,
        Over::Running | Over::Broken | Over::Torn => unreachable!(),
    }
}

/// The status of a system that took its steps, and the last value of each fence where nothing ended the run before.
fn ending_of<D: VkDevice>(
    alloc: Global,
    sys: &Sys<D>,
    end: Result<Over, SysFault>,
) -> (Status, Seq<u64>)
    requires { IfOk end (λ o. (o ≡ over.Done) ⊎ (o ≡ over.Stalled)) }
    ensures { Ends end (state_after sys.now.world sys.now.history).desk.fences result }
{
    match end {
        Ok(last) => match sys.fences() {
            Ok(fences) => (status_at(last), fences),
            Err(Memory) => (Status::Memory, Seq::new(alloc)),
        },
        Err(fault) => (status_of(fault), Seq::new(alloc)),
    }
}

/// The end of a system that took its steps.
fn finish<D: VkDevice>(alloc: Global, sys: Sys<D>, end: Result<Over, SysFault>, log: &Log) -> Run<D>
    requires system { IsSystem sys.world sys.history sys.device.state }
    requires whole { IsWhole sys.world sys.history sys.device.state }
    requires over { IfOk end (λ o. IsOver sys.world sys.history Clean (shown sys.device.state) sys.device.offered o) }
    requires last { IfOk end (λ o. (o ≡ over.Done) ⊎ (o ≡ over.Stalled)) }
    requires equal { OnOk end (length log.now.choices.items ≡ length log.now.taken.items) }
    ensures { (before : DeviceView) → HasCause before.faults sys.device.faults end →
        Went sys.world before.rest log.now.choices.items log.now.taken.items sys.history sys.device →
        Ran sys.world (left_by log.now result.history.items result.fences before (D.view_of result.device)) result.status }
{
    let _choices = log.choices.len();
    let (status, fences) = ending_of(alloc, &sys, end);
    let (history, device) = sys.into_parts();
    Run {
        status,
        history,
        fences,
        device,
    }
}

/// Runs a world on a device: takes steps by choices until there is none.
fn run_world<D: VkDevice, C: Chooser>(
    alloc: Global,
    world: World,
    device: D,
    choices: &mut C,
    log: &mut Log,
) -> Run<D>
    requires world { IsWorld world }
    requires queues { HasOneQueueAtMost world }
    requires no_plan { (D.view_of device).plan ≡ None }
    requires new { (D.view_of device).state.journal ≡ [] }
    requires given { C.given choices.old ≡ [] }
    requires choices { log.old.choices.items ≡ [] }
    requires taken { log.old.taken.items ≡ [] }
    ensures ran { Ran world (left_by log.new result.history.items result.fences (D.view_of device) (D.view_of result.device)) result.status }
    ensures given { C.given choices.new ≡ log.new.choices.items }
    ensures started { C.started choices.new ≡ C.started choices.old }
{
    match Sys::new(alloc, world, device) {
        Ok(mut sys) => {
            let end = take_steps(&mut sys, choices, log);
            finish(alloc, sys, end, log)
        }
        Err((device, fault)) => Run {
            status: status_of(fault),
            history: Vec::new(alloc),
            fences: Seq::new(alloc),
            device,
        },
    }
}

/// A call that ended before any step, and whose output names no trace.
fn stopped<D>(alloc: Global, status: Status, shown: bool, device: D) -> Ended<D>
    ensures trace { option_map seen result.trace ≡ None }
    ensures outcome { result.outcome ≡ record { status = status; shown = shown; history = []; refused = []; fences = [] } }
    ensures choices { result.log.choices.items ≡ [] }
    ensures taken { result.log.taken.items ≡ [] }
    ensures device { result.device ≡ device }
{
    Ended {
        trace: None,
        outcome: Outcome {
            status,
            shown,
            history: Seq::new(alloc),
            refused: Seq::new(alloc),
            fences: Seq::new(alloc),
        },
        log: Log::new(alloc),
        device,
    }
}

/// Runs a trace that was read.
fn run_trace<D: VkDevice, C: Chooser>(
    alloc: Global,
    trace: Trace,
    shown: bool,
    device: D,
    choices: &mut C,
) -> Ended<D>
    requires no_plan { (D.view_of device).plan ≡ None }
    requires new { (D.view_of device).state.journal ≡ [] }
    requires given { C.given choices.old ≡ [] }
    ensures ran { RanTrace (seen trace) (option_map seen result.trace) (left_by result.log result.outcome.history result.outcome.fences (D.view_of device) (D.view_of result.device)) result.outcome.status }
    ensures shown { result.outcome.shown ≡ shown }
    ensures refused { result.outcome.refused ≡ refused_in (option_map seen result.trace) }
    ensures given { C.given choices.new ≡ result.log.choices.items }
    ensures started { C.started choices.new ≡ C.started choices.old }
{
    let world = match world(alloc, &trace) {
        Ok(world) => world,
        Err(Memory) => return stopped(alloc, Status::Memory, shown, device),
    };
    let refused = match refused_of(alloc, &trace) {
        Ok(refused) => refused,
        Err(Memory) => return stopped(alloc, Status::Memory, shown, device),
    };
    let mut log = Log::new(alloc);
    let run = run_world(alloc, world, device, choices, &mut log);
    Ended {
        trace: Some(trace),
        outcome: Outcome {
            status: run.status,
            shown,
            history: Seq::from_vec(run.history),
            refused,
            fences: run.fences,
        },
        log,
        device: run.device,
    }
}

/// Reads the words and a trace, and runs it. `Usage` comes where the words are not of the form, `Refused` where the
/// trace is not in the grammar, `ReadFault` and `DeviceLost` where the source or the device failed, `Memory` where
/// memory was refused.
fn ran<S: Source, D: VkDevice, C: Chooser>(
    alloc: Global,
    words: &[String],
    source: &mut S,
    device: D,
    choices: &mut C,
) -> Ended<D>
    requires no_plan { (D.view_of device).plan ≡ None }
    requires new { (D.view_of device).state.journal ≡ [] }
    ensures says { Says (record {
      words = map string_bytes words.now;
      told = S.left source.old;
      source = (S.faults source.old, S.faults source.new);
    }) (option_map seen result.trace) (left_by result.log result.outcome.history result.outcome.fences (D.view_of device) (D.view_of result.device)) result.outcome.status }
    ensures unread { IfErr (said_by (map string_bytes words.now)) (λ _. source.new ≡ source.old) }
    ensures undrawn { IfErr (said_by (map string_bytes words.now)) (λ _. choices.new ≡ choices.old) }
    ensures unrun { IsUnrun result.outcome.status → result.device ≡ device }
    ensures not_given { (IsTraceGiven (map string_bytes words.now) (S.left source.old) → ⊥) → result.device ≡ device }
    ensures shown { result.outcome.shown ≡ is_shown (said_by (map string_bytes words.now)) }
    ensures refused { result.outcome.refused ≡ refused_in (option_map seen result.trace) }
    ensures started { IfOk (said_by (map string_bytes words.now)) (λ said. C.started choices.new ≡ Some (number_said said)) }
    ensures given { IfOk (said_by (map string_bytes words.now)) (λ _. C.given choices.new ≡ result.log.choices.items) }
{
    let said = match read_words(words) {
        Ok(said) => said,
        Err(place) => return stopped(alloc, Status::Usage(place), false, device),
    };
    choices.start(said.number());
    let bytes = match read_all(alloc, source, TRACE_BYTES + 1) {
        Ok(bytes) => bytes,
        Err(ReadAll::ReadFault) => return stopped(alloc, Status::ReadFault, said.shown, device),
        Err(ReadAll::Memory) => return stopped(alloc, Status::Memory, said.shown, device),
    };
    match read_trace(alloc, bytes.as_slice()) {
        Ok(trace) => run_trace(alloc, trace, said.shown, device, choices),
        Err(TraceFault::Refused(line, cause)) => {
            stopped(alloc, Status::Refused(line, cause), said.shown, device)
        }
        Err(TraceFault::Memory) => stopped(alloc, Status::Memory, said.shown, device),
    }
}

/// Writes a text. The status that was meant, or `WriteFault` where a write failed.
fn written<K: Sink>(sink: &mut K, text: &[u8], meant: Status) -> Status
    ensures { Writes (K.held sink.old) (K.held sink.new) (K.faults sink.old, K.faults sink.new) text.now meant result }
{
    match write_all(sink, text) {
        Ok(()) => meant,
        Err(_) => Status::WriteFault,
    }
}

/// What a run says that was refused memory.
fn out_of_memory_text() -> &'static [u8]
    ensures { (t : Option Value) → (o : WhatCame) → result.now ≡ output_of t (record o { status = status.Memory }) }
{
    plain_line(Status::Memory).unwrap_or(b"")
}

/// Writes the output of a run.
fn write_output<K: Sink>(
    alloc: Global,
    sink: &mut K,
    trace: Option<&Trace>,
    outcome: &Outcome,
) -> Status
    ensures { IsWritten (K.faults sink.old, K.faults sink.new) (K.held sink.old) (K.held sink.new) (option_map seen (option_copied trace.entry)) outcome.now result }
{
    match output(alloc, trace, outcome) {
        Ok(text) => written(sink, text.as_slice(), outcome.status),
        Err(Memory) => written(sink, out_of_memory_text(), Status::Memory),
    }
}

/// The report of a call, whose output is written.
fn report_of<D>(ended: Ended<D>, status: Status) -> Report<D>
    ensures status { result.status ≡ status }
    ensures choices { result.choices.items ≡ ended.log.choices.items }
    ensures taken { result.taken.items ≡ ended.log.taken.items }
    ensures history { result.history.items ≡ ended.outcome.history }
    ensures device { result.device ≡ ended.device }
    ensures verdict { result.verdict ≡ verdict.Clean }
    ensures torn { result.torn ≡ None }
{
    let Ended {
        trace: _,
        outcome,
        log,
        device,
    } = ended;
    let Log { choices, taken } = log;
    Report {
        status,
        choices: choices.into_vec(),
        taken: taken.into_vec(),
        history: outcome.history.into_vec(),
        verdict: Verdict::Clean,
        torn: None,
        device,
    }
}

/// Reads a trace from the source, runs it on the device by the choices, and writes the output to the sink. The words
/// are those of the program: `--choices N`, the number with which the chooser is started, and `--history`, which
/// shows the history.
pub fn simulate<S: Source, K: Sink, D: VkDevice, C: Chooser>(
    alloc: Global,
    words: &[String],
    source: &mut S,
    sink: &mut K,
    device: D,
    choices: &mut C,
) -> Report<D>
    requires no_plan { (D.view_of device).plan ≡ None }
    requires new { (D.view_of device).state.journal ≡ [] }
    ensures report { IsReport (record {
      words = map string_bytes words.now;
      told = S.left source.old;
      source = (S.faults source.old, S.faults source.new);
    }) (K.faults sink.old, K.faults sink.new) (K.held sink.old) (K.held sink.new) (λ fences. record {
      choices = result.choices.items;
      taken = result.taken.items;
      history = result.history.items;
      fences = fences;
      before = D.view_of device;
      device = D.view_of result.device;
      verdict = result.verdict;
    }) result.status }
    ensures unread { IfErr (said_by (map string_bytes words.now)) (λ _. source.new ≡ source.old) }
    ensures undrawn { IfErr (said_by (map string_bytes words.now)) (λ _. choices.new ≡ choices.old) }
    ensures unrun { IsUnrun result.status → result.device ≡ device }
    ensures not_given { (IsTraceGiven (map string_bytes words.now) (S.left source.old) → ⊥) → result.device ≡ device }
    ensures complete { IsTraceGiven (map string_bytes words.now) (S.left source.old) → IsSome (S.left source.old) →
        IsFaultless (S.faults source.old, S.faults source.new) (K.faults sink.old, K.faults sink.new) ((D.view_of device).faults, (D.view_of result.device).faults) → IsComplete result.status }
    ensures usage { IfErr (said_by (map string_bytes words.now)) (λ k. IsUsageAt k result.status) }
    ensures refused { IfOk (said_by (map string_bytes words.now)) (λ _. IfSome (S.left source.old) (λ all. IfErr (value_of all) (λ p. IsRefusalAt p result.status))) }
    ensures started { IfOk (said_by (map string_bytes words.now)) (λ said. C.started choices.new ≡ Some (number_said said)) }
    ensures given { IfOk (said_by (map string_bytes words.now)) (λ _. C.given choices.new ≡ result.choices.items) }
    ensures verdict { result.verdict ≡ verdict.Clean }
    ensures torn { result.torn ≡ None }
{
    let ended = ran(alloc, words, source, device, choices);
    let status = write_output(alloc, sink, ended.trace.as_ref(), &ended.outcome);
    report_of(ended, status)
}
