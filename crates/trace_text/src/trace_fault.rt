//! Why a trace is not read.

use dx_base::Memory;
use line_forms::Cause;

/// Why a trace is not read.
#[derive(Clone, Copy, Debug, PartialEq, Eq)]
pub enum TraceFault {
    /// The first bad line, counted from 1 with comments and empty lines, and the first of its causes.
    Refused(u64, Cause),
    /// Memory was refused.
    Memory,
}

impl From<Memory> for TraceFault {
    ghost use Rattle.std.specs.Prelude.{◌≡◌};
    ghost use Rattle.trace_text.specs.declared.trace_fault.TraceFault.TheVariants.{Memory as want_of_memory};

    ghost from_gives = { λ _ fault. fault ≡ want_of_memory };

    fn from(_error: Memory) -> TraceFault {
        TraceFault::Memory
    }
}
