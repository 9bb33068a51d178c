//! The text of a history.

ghost use Rattle.std.specs.Prelude.{◌≡◌, ◌++◌, flat_map, IfOk, OnOk};
ghost use Rattle.run_text.specs.History.{reply_words, event_text, history_text};
ghost use Rattle.trace_text.specs.Seen.{seen};
ghost use Rattle.line_forms.specs.Lines.{rest_of_line};

use crate::names::{Names, names_of};
use crate::text::name_of;
use d3d_machine::{Event, Reply};
use dx_base::Memory;
use line_forms::{end_line, end_with_words, put, put_hex, put_next, put_number};
use std::alloc::Global;
use trace_text::Trace;

/// Ends a line with the words of a reply.
#[tactic(auto, unfolding(line_forms::specs::Lines::rest_of_line))]
fn end_with_reply(out: &mut Vec<u8>, reply: &Reply) -> Result<(), Memory>
    ensures { OnOk result (out.new.items ≡ out.old.items ++ rest_of_line (reply_words reply.now)) }
{
    match reply {
        Reply::Done => put(out, b" ok\n"),
        Reply::Value(value) => {
            put_next(out, b"value")?;
            put_number(out, *value)?;
            end_line(out)
        }
        Reply::Words(words) => {
            put_next(out, b"words")?;
            end_with_words(out, words.as_slice())
        }
        Reply::Error(error) => {
            put_hex(out, error.code())?;
            end_line(out)
        }
    }
}

/// Appends the line of an event.
#[tactic(auto, unfolding(crate::specs::History::event_text, line_forms::specs::Lines::line_text, line_forms::specs::Lines::rest_of_line))]
fn put_event(out: &mut Vec<u8>, names: &Names, event: &Event) -> Result<(), Memory>
    ensures { OnOk result (out.new.items ≡ out.old.items ++ event_text names.now event.now) }
{
    match event {
        Event::Call {
            thread,
            call: _,
            reply,
        } => {
            put(out, b"call")?;
            put_next(out, name_of(names.threads.as_slice(), thread.0 as usize))?;
            end_with_reply(out, reply)
        }
        Event::Awake(thread) => {
            put(out, b"awake")?;
            put_next(out, name_of(names.threads.as_slice(), thread.0 as usize))?;
            end_line(out)
        }
        Event::Queue(queue) => {
            put(out, b"queue")?;
            put_next(out, name_of(names.queues.as_slice(), queue.0 as usize))?;
            end_line(out)
        }
    }
}

/// Appends the lines of events.
pub fn put_events(out: &mut Vec<u8>, names: &Names, history: &[Event]) -> Result<(), Memory>
    ensures { OnOk result (out.new.items ≡ out.old.items ++ flat_map (event_text names.now) history.now) }
{
    for event in history {
        put_event(out, names, event)?;
    }
    Ok(())
}

/// The text of a history: a line for each event, with the names that the trace gives threads and queues. A number
/// past the names prints as an empty name.
pub fn print_history(alloc: Global, trace: &Trace, history: &[Event]) -> Result<Vec<u8>, Memory>
    ensures { IfOk result (λ bytes. bytes.items ≡ history_text (seen trace.now) history.now) }
{
    let names = names_of(alloc, trace.names.as_slice(), trace.declared.as_slice())?;
    let mut out = Vec::new(alloc);
    put_events(&mut out, &names, history)?;
    Ok(out)
}
