//! The printer of a trace.

ghost use Rattle.std.specs.Prelude.{◌≡◌, ◌++◌, flat_map, IfOk, OnOk};
ghost use Rattle.trace_text.specs.Items.{object_items, thread_items, trace_text};
ghost use Rattle.trace_lines.specs.Formed.{item_text};
ghost use Rattle.trace_text.specs.Seen.{seen};

use crate::trace::Trace;
use d3d_machine::Call;
use dx_base::{Memory, Seq};
use std::alloc::Global;
use trace_lines::{Declared, Known, behind, put_calls, put_end, put_header, put_object, put_start};
use trace_words::Name;

/// Appends the lines of objects. An object without a name has none.
#[tactic(auto, unfolding(crate::specs::Items::object_items))]
fn put_objects(
    out: &mut Vec<u8>,
    known: &Known<'_>,
    names: &[Name],
    objects: &[Declared],
) -> Result<(), Memory>
    ensures { OnOk result (out.new.items
        ≡ out.old.items ++ flat_map (item_text known.now) (object_items names.now objects.now)) }
{
    for at in 0..names.len().min(objects.len()) {
        put_object(out, known, &names[at], &objects[at])?;
    }
    Ok(())
}

/// Appends the lines of threads, each with its calls. A thread without a name has none.
#[tactic(auto, unfolding(crate::specs::Items::thread_items))]
fn put_threads(
    alloc: Global,
    out: &mut Vec<u8>,
    known: &Known<'_>,
    names: &[Name],
    scripts: &[Seq<Call>],
) -> Result<(), Memory>
    ensures { OnOk result (out.new.items
        ≡ out.old.items ++ flat_map (item_text known.now) (thread_items names.now scripts.now)) }
{
    for at in 0..names.len().min(scripts.len()) {
        put_start(out, known, &names[at])?;
        put_calls(alloc, out, known, scripts[at].as_slice())?;
    }
    Ok(())
}

/// The text of a trace: a line for each object, for each thread and for each call, no comments and no empty lines,
/// and data words of eight digits. Time and memory are linear in the text.
#[tactic(auto, unfolding(crate::specs::Items::trace_text))]
pub fn print_trace(alloc: Global, trace: &Trace) -> Result<Vec<u8>, Memory>
    ensures { IfOk result (λ bytes. bytes.items ≡ trace_text (seen trace.now)) }
{
    let (names, objects) = (trace.names.as_slice(), trace.declared.as_slice());
    let known = Known::of(alloc, names, objects)?;
    let mut out = Vec::new(alloc);
    put_header(&mut out, &known)?;
    put_objects(&mut out, &known, names, objects)?;
    put_threads(
        alloc,
        &mut out,
        &known,
        behind(names, objects.len()),
        trace.scripts.as_slice(),
    )?;
    put_end(&mut out, &known)?;
    Ok(out)
}
