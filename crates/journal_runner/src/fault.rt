//! Why a program of this layer gives no answer.

use dx_base::Memory;
use journal_text::JournalFault;
use line_forms::Cause;
use text_io::ReadAll;

/// Why a program has no answer to its input.
#[derive(Clone, Copy, Debug, PartialEq, Eq)]
pub enum ToolFault {
    /// A word behind the program's name is not one that it takes.
    Usage,
    /// The first bad line of the input, counted from 1, and the first of its causes.
    Refused(u64, Cause),
    /// The source of the input failed.
    ReadFault,
    /// The sink of the output failed.
    WriteFault,
    /// Memory was refused.
    Memory,
}

impl From<Memory> for ToolFault {
    ghost use Rattle.std.specs.Prelude.{◌≡◌};
    ghost use Rattle.journal_runner.specs.declared.fault.ToolFault.TheVariants.{Memory as want_of_memory};

    ghost from_gives = { λ _ fault. fault ≡ want_of_memory };

    fn from(_error: Memory) -> ToolFault {
        ToolFault::Memory
    }
}

impl From<ReadAll> for ToolFault {
    ghost use Rattle.std.specs.Prelude.{◌≡◌};
    ghost use Rattle.journal_runner.specs.Faults.{fault_of_source};

    ghost from_gives = { λ error fault. fault ≡ fault_of_source error };

    fn from(error: ReadAll) -> ToolFault {
        match error {
            ReadAll::ReadFault => ToolFault::ReadFault,
            ReadAll::Memory => ToolFault::Memory,
        }
    }
}

impl From<JournalFault> for ToolFault {
    ghost use Rattle.std.specs.Prelude.{◌≡◌};
    ghost use Rattle.journal_runner.specs.Faults.{fault_of_journal};

    ghost from_gives = { λ error fault. fault ≡ fault_of_journal error };

    fn from(error: JournalFault) -> ToolFault {
        match error {
            JournalFault::Refused(line, cause) => ToolFault::Refused(line, cause),
            JournalFault::Memory => ToolFault::Memory,
        }
    }
}
