//! The text of a run's output.

ghost use Rattle.std.specs.Prelude.{◌≡◌, ◌+◌, ◌^◌, ◌<◌, ◌≤◌, ◌++◌, Option, length, flat_map, IfOk, OnOk, IfSome};
ghost use Rattle.std.specs.Option.{option_copied};
ghost use Rattle.run_text.specs.declared.outcome.Outcome.{Outcome};
ghost use Rattle.trace_lines.specs.Names.{name_at};
ghost use Rattle.run_text.specs.Output.{output_of};
ghost use Rattle.line_forms.specs.Lines.{line_text};
ghost use Rattle.run_text.specs.Text.{reply_lines, answer_lines, replies_by, replies_in, call_lines, fence_lines, stalled_lines, usage_line, refused_line, broken_line, torn_line, run_lines, left_lines, output_lines, plain_text};
ghost use Rattle.trace_text.specs.Values.{Value};

use crate::names::{Ending, Names};
use crate::status::Status;
use d3d_machine::{Event, Reply};
use dx_base::{Memory, Seq, Torn};
use line_forms::{Cause, end_line, end_with_words, put, put_hex, put_next, put_number};
use verdicts::Rule;

/// The name of that place; empty where there is none.
pub fn name_of(names: &[Seq<u8>], at: usize) -> &[u8]
    ensures { result.now ≡ name_at names.now at }
{
    match names.get(at) {
        Some(name) => name.as_slice(),
        None => b"",
    }
}

/// Appends the line of a thread's call of that number, where its reply has one.
#[tactic(auto, unfolding(crate::specs::Text::reply_lines, line_forms::specs::Lines::line_text, line_forms::specs::Lines::rest_of_line))]
fn put_reply(out: &mut Vec<u8>, name: &[u8], call: u64, reply: &Reply) -> Result<(), Memory>
    ensures { OnOk result (out.new.items ≡ out.old.items ++ flat_map line_text (reply_lines name.now call reply.now)) }
{
    match reply {
        Reply::Done => Ok(()),
        Reply::Value(value) => {
            put(out, name)?;
            put_number(out, call)?;
            put_next(out, b"value")?;
            put_number(out, *value)?;
            end_line(out)
        }
        Reply::Words(words) => {
            put(out, name)?;
            put_number(out, call)?;
            put_next(out, b"words")?;
            end_with_words(out, words.as_slice())
        }
        Reply::Error(error) => {
            put(out, name)?;
            put_number(out, call)?;
            put_hex(out, error.code())?;
            end_line(out)
        }
    }
}

/// Appends the line of an event, where it is a call of the thread and its reply has one; the number of the thread's
/// next call.
#[tactic(auto, unfolding(crate::specs::Text::answer_lines))]
fn put_event(
    out: &mut Vec<u8>,
    name: &[u8],
    thread: usize,
    call: u64,
    event: &Event,
) -> Result<u64, Memory>
    requires { call + 1 < 2 ^ 64 }
    ensures next { IfOk result (λ next. next ≡ call + length (replies_by thread event.now)) }
    ensures small { IfOk result (λ next. next ≤ call + 1) }
    ensures text { OnOk result (out.new.items
        ≡ out.old.items ++ flat_map line_text (answer_lines name.now call (replies_by thread event.now))) }
{
    match event {
        Event::Call {
            thread: by,
            call: _,
            reply,
        } => {
            if by.0 as usize == thread {
                put_reply(out, name, call, reply)?;
                Ok(call + 1)
            } else {
                Ok(call)
            }
        }
        Event::Awake(_) => Ok(call),
        Event::Queue(_) => Ok(call),
    }
}

/// Appends the lines of a thread's answered calls.
#[tactic(auto, unfolding(crate::specs::Text::replies_in, crate::specs::Text::answer_lines))]
fn put_thread(
    out: &mut Vec<u8>,
    name: &[u8],
    thread: usize,
    history: &[Event],
) -> Result<(), Memory>
    ensures { OnOk result (out.new.items
        ≡ out.old.items ++ flat_map line_text (answer_lines name.now 1 (replies_in thread history.now))) }
{
    let mut call = 1;
    for event in history {
        call = put_event(out, name, thread, call, event)?;
    }
    Ok(())
}

/// Appends the lines of all threads' answered calls, thread by thread.
#[tactic(auto, unfolding(crate::specs::Text::call_lines))]
fn put_calls(out: &mut Vec<u8>, names: &[Seq<u8>], history: &[Event]) -> Result<(), Memory>
    ensures { OnOk result (out.new.items ≡ out.old.items ++ flat_map line_text (call_lines 0 names.now history.now)) }
{
    for (thread, name) in names.iter().enumerate() {
        put_thread(out, name.as_slice(), thread, history)?;
    }
    Ok(())
}

/// Appends the lines of fences' values.
#[tactic(auto, unfolding(crate::specs::Text::fence_lines, line_forms::specs::Lines::line_text, line_forms::specs::Lines::rest_of_line))]
fn put_fences(out: &mut Vec<u8>, names: &[Seq<u8>], values: &[u64]) -> Result<(), Memory>
    ensures { OnOk result (out.new.items ≡ out.old.items ++ flat_map line_text (fence_lines names.now 0 values.now)) }
{
    for (fence, value) in values.iter().enumerate() {
        put(out, b"fence")?;
        put_next(out, name_of(names, fence))?;
        put_number(out, *value)?;
        end_line(out)?;
    }
    Ok(())
}

/// Appends a line for each object of those numbers.
#[tactic(auto, unfolding(crate::specs::Text::stalled_lines, line_forms::specs::Lines::line_text, line_forms::specs::Lines::rest_of_line))]
fn put_stalled(
    out: &mut Vec<u8>,
    kind: &[u8],
    names: &[Seq<u8>],
    numbers: &[u32],
) -> Result<(), Memory>
    ensures { OnOk result (out.new.items ≡ out.old.items ++ flat_map line_text (stalled_lines kind.now names.now numbers.now)) }
{
    for number in numbers {
        put(out, b"stalled")?;
        put_next(out, kind)?;
        put_next(out, name_of(names, *number as usize))?;
        end_line(out)?;
    }
    Ok(())
}

/// Appends the lines of the answered calls and of the fences' last values.
#[tactic(auto, unfolding(crate::specs::Text::run_lines))]
fn put_run(
    out: &mut Vec<u8>,
    names: &Names,
    history: &[Event],
    ending: &Ending,
) -> Result<(), Memory>
    ensures { OnOk result (out.new.items ≡ out.old.items ++ flat_map line_text (run_lines names.now history.now ending.now)) }
{
    put_calls(out, names.threads.as_slice(), history)?;
    put_fences(out, names.fences.as_slice(), ending.fences.as_slice())
}

/// Appends the lines of unfinished threads and of queues that are not empty.
#[tactic(auto, unfolding(crate::specs::Text::left_lines))]
fn put_left(out: &mut Vec<u8>, names: &Names, ending: &Ending) -> Result<(), Memory>
    ensures { OnOk result (out.new.items ≡ out.old.items ++ flat_map line_text (left_lines names.now ending.now)) }
{
    put_stalled(
        out,
        b"thread",
        names.threads.as_slice(),
        ending.threads.as_slice(),
    )?;
    put_stalled(
        out,
        b"queue",
        names.queues.as_slice(),
        ending.queues.as_slice(),
    )
}

/// Appends the line `broken RULE EVENT`.
#[tactic(auto, unfolding(line_forms::specs::Lines::line_text, line_forms::specs::Lines::rest_of_line))]
fn put_broken(out: &mut Vec<u8>, rule: Rule, event: u64) -> Result<(), Memory>
    ensures { OnOk result (out.new.items ≡ out.old.items ++ line_text (broken_line rule event)) }
{
    put(out, b"broken")?;
    put_next(out, rule.word().as_bytes())?;
    put_number(out, event)?;
    end_line(out)
}

/// Appends the line `torn HEAP SLOT DECLARED FOUND`.
#[tactic(auto, unfolding(line_forms::specs::Lines::line_text, line_forms::specs::Lines::rest_of_line))]
fn put_torn(out: &mut Vec<u8>, torn: Torn) -> Result<(), Memory>
    ensures { OnOk result (out.new.items ≡ out.old.items ++ line_text (torn_line torn)) }
{
    put(out, b"torn")?;
    put_number(out, u64::from(torn.heap))?;
    put_number(out, u64::from(torn.slot))?;
    put_number(out, u64::from(torn.declared))?;
    put_number(out, u64::from(torn.found))?;
    end_line(out)
}

/// Appends the line `usage K`.
#[tactic(auto, unfolding(line_forms::specs::Lines::line_text, line_forms::specs::Lines::rest_of_line))]
fn put_usage(out: &mut Vec<u8>, argument: u32) -> Result<(), Memory>
    ensures { OnOk result (out.new.items ≡ out.old.items ++ line_text (usage_line argument)) }
{
    put(out, b"usage")?;
    put_number(out, u64::from(argument))?;
    end_line(out)
}

/// Appends the line `refused line N CAUSE`.
#[tactic(auto, unfolding(line_forms::specs::Lines::line_text, line_forms::specs::Lines::rest_of_line))]
fn put_refused(out: &mut Vec<u8>, line: u64, cause: Cause) -> Result<(), Memory>
    ensures { OnOk result (out.new.items ≡ out.old.items ++ line_text (refused_line line cause)) }
{
    put(out, b"refused line")?;
    put_number(out, line)?;
    put_next(out, cause.word().as_bytes())?;
    end_line(out)
}

/// Appends the output of a run.
#[tactic(auto, unfolding(crate::specs::Text::output_lines, line_forms::specs::Lines::line_text, line_forms::specs::Lines::rest_of_line))]
pub fn put_output(
    out: &mut Vec<u8>,
    names: &Names,
    status: Status,
    history: &[Event],
    ending: &Ending,
) -> Result<(), Memory>
    ensures { OnOk result (out.new.items
        ≡ out.old.items ++ flat_map line_text (output_lines names.now status history.now ending.now)) }
{
    match status {
        Status::Done => put_run(out, names, history, ending),
        Status::Stalled => {
            put_run(out, names, history, ending)?;
            put_left(out, names, ending)
        }
        Status::Usage(argument) => put_usage(out, argument),
        Status::Refused(line, cause) => put_refused(out, line, cause),
        Status::ReadFault => put(out, b"read fault\n"),
        Status::WriteFault => Ok(()),
        Status::Broken(rule, event) => {
            put_calls(out, names.threads.as_slice(), history)?;
            put_broken(out, rule, event)
        }
        Status::Torn(torn) => {
            put_calls(out, names.threads.as_slice(), history)?;
            put_torn(out, torn)
        }
        Status::DeviceLost => {
            put_calls(out, names.threads.as_slice(), history)?;
            put(out, b"device lost 887a0005\n")
        }
        Status::Memory => put(out, b"out of memory 8007000e\n"),
    }
}

/// The whole output where it says nothing of the run and memory may be wanting: of a read fault, and of memory that
/// was refused.
#[tactic(auto, unfolding(crate::specs::Output::output_of, crate::specs::Output::told_run, crate::specs::Text::output_text, crate::specs::Text::output_lines, line_forms::specs::Lines::line_text, line_forms::specs::Lines::rest_of_line))]
pub fn plain_line(status: Status) -> Option<&'static [u8]>
    ensures value { option_copied result ≡ plain_text status }
    ensures of_run { (t : Option Value) → (o : Outcome) →
        IfSome result (λ line. line.now ≡ output_of t (record o { status = status })) }
{
    match status {
        Status::ReadFault => Some(b"read fault\n"),
        Status::Memory => Some(b"out of memory 8007000e\n"),
        Status::Done
        | Status::Stalled
        | Status::Usage(_)
        | Status::Refused(_, _)
        | Status::WriteFault
        | Status::Broken(_, _)
        | Status::Torn(_)
        | Status::DeviceLost => None,
    }
}
