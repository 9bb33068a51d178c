//! Journals of a device: what it did, step by step, and whether the steps are ones of the Vulkan machine that break no rule.
#![tactic(auto)]

mod checking;
mod laws;

pub use checking::{StepCheck, check_steps};
pub use laws::first_faults_are_told;
