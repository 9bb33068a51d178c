//! Why a journal is not read.

use dx_base::Memory;
use line_forms::Cause;

/// Why a line is not taken: it is refused, or memory is.
#[derive(Clone, Copy, Debug, PartialEq, Eq)]
pub(crate) enum LineFault {
    Refused(Cause),
    Memory,
}

impl From<Memory> for LineFault {
    ghost use Rattle.std.specs.Prelude.{◌≡◌};
    ghost use Rattle.journal_text.specs.declared.fault.LineFault.TheVariants.{Memory as want_of_memory};

    ghost from_gives = { λ _ fault. fault ≡ want_of_memory };

    fn from(_error: Memory) -> LineFault {
        LineFault::Memory
    }
}

/// Why a journal is not read.
#[derive(Clone, Copy, Debug, PartialEq, Eq)]
pub enum JournalFault {
    /// The first bad line, counted from 1, and the first of its causes, which is one of `Size`, `Line`, `Cut`, `After`, `Form`,
    /// `Number` and `Name`.
    Refused(u64, Cause),
    /// Memory was refused.
    Memory,
}

impl From<Memory> for JournalFault {
    ghost use Rattle.std.specs.Prelude.{◌≡◌};
    ghost use Rattle.journal_text.specs.declared.fault.JournalFault.TheVariants.{Memory as want_of_memory};

    ghost from_gives = { λ _ fault. fault ≡ want_of_memory };

    fn from(_error: Memory) -> JournalFault {
        JournalFault::Memory
    }
}
