//! Laws of the check of steps. The functions do nothing.

ghost use Rattle.vk_journal_check.specs.FirstFaults.{TellsFirstFaults};

/// What is told of steps is the first of them that is impossible or breaks a rule: that it is impossible, or else the least
/// rule that it breaks; and where there is none they are clean.
#[tactic(auto, using(crate::proofs::FirstFaults::tells_first_faults))]
pub fn first_faults_are_told()
    ensures { TellsFirstFaults }
{}
