//! The exit status that an answer has.

ghost use Rattle.std.specs.Prelude.{◌≡◌};
ghost use Rattle.journal_runner.specs.Answers.{exit_code_of};

use crate::fault::ToolFault;
use vk_journal_check::StepCheck;

/// The exit status of the program by its answer: 0 where the journal is clean, 6 where it breaks a rule, 1 where it has an
/// impossible step; 2 for `Usage`, 3 for `Refused`, 4 for `ReadFault`, 5 for `WriteFault` and 8 for `Memory`.
pub fn exit_code(answer: &Result<StepCheck, ToolFault>) -> u8
    ensures { result ≡ exit_code_of answer.now }
{
    match answer {
        Ok(StepCheck::Clean) => 0,
        Ok(StepCheck::Broken(_, _)) => 6,
        Ok(StepCheck::Impossible(_)) => 1,
        Err(ToolFault::Usage) => 2,
        Err(ToolFault::Refused(_, _)) => 3,
        Err(ToolFault::ReadFault) => 4,
        Err(ToolFault::WriteFault) => 5,
        Err(ToolFault::Memory) => 8,
    }
}
