//! What a run ends with: its status, its verdict, and the report of both with the steps that led there.

ghost use Rattle.std.specs.Prelude.{◌≡◌};
ghost use Rattle.run_text.specs.Status.{exit_code_of};

use d3d_machine::Event;
use dx_base::{Step, Torn};
use line_forms::Cause;
use verdicts::{Rule, Verdict};

/// How a run ended.
#[derive(Clone, Copy, Debug, PartialEq, Eq)]
pub enum Status {
    /// Every script ended and every queue is empty.
    Done,
    /// No step was left, and a script or a queue was not at its end.
    Stalled,
    /// The argument of that place, counted from 1, is not one that the program takes.
    Usage(u32),
    /// The trace is refused at that line, counted from 1.
    Refused(u64, Cause),
    /// The source of the trace failed.
    ReadFault,
    /// The sink of the output failed.
    WriteFault,
    /// A rule was broken by the event of that place in the history, counted from 1.
    Broken(Rule, u64),
    /// A descriptor word had another version than the one declared.
    Torn(Torn),
    /// The device was lost.
    DeviceLost,
    /// Memory was refused.
    Memory,
}

impl Status {
    /// The exit status of the program.
    pub fn exit_code(self) -> u8
        ensures { result ≡ exit_code_of self }
    {
        match self {
            Status::Done => 0,
            Status::Stalled => 1,
            Status::Usage(_) => 2,
            Status::Refused(_, _) => 3,
            Status::ReadFault => 4,
            Status::WriteFault => 5,
            Status::Broken(_, _) => 6,
            Status::Torn(_) => 6,
            Status::DeviceLost => 7,
            Status::Memory => 8,
        }
    }
}

/// A run: how it ended, the choices and the steps that they took, the events of the Direct3D machine, what the
/// judges say of them, the torn word where one was found, and the device.
#[derive(Drop)]
pub struct Report<D> {
    pub status: Status,
    pub choices: Vec<u64>,
    pub taken: Vec<Step>,
    pub history: Vec<Event>,
    pub verdict: Verdict,
    pub torn: Option<Torn>,
    pub device: D,
}
