//! The reader of a trace.

ghost use Rattle.trace_text.specs.Seen.{IsRead};
ghost use Rattle.trace_text.specs.Values.{value_of};

use crate::texts::read_text;
use crate::trace::Trace;
use crate::trace_fault::TraceFault;
use dx_base::Seq;
use std::alloc::Global;

/// The trace that a text writes. Time and memory are linear in the text. `Refused`: the first bad line, counted from 1,
/// and the first of its causes.
#[tactic(auto, unfolding(crate::specs::Values::value_of))]
pub fn read_trace(alloc: Global, bytes: &[u8]) -> Result<Trace, TraceFault>
    ensures { IsRead result (value_of bytes.now) }
{
    let reading = match read_text(alloc, bytes) {
        Ok(reading) => reading,
        Err(fault) => return Err(fault),
    };
    Ok(Trace {
        names: reading.names.into_names(alloc)?,
        declared: reading.declared.into_seq(),
        scripts: reading.scripts.into_seq(),
    })
}
