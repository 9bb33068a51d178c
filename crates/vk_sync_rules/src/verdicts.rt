//! The verdict of the Vulkan machine on a step.

ghost use Rattle.std.specs.Prelude.{◌≡◌, IfOk, OnOk, OnErr};
ghost use Rattle.vk_sync_rules.specs.Machines.{state_of, verdict_of as verdict_by};
ghost use Rattle.vk_sync_rules.specs.Rules.{after_step, rule_of};

use crate::machine::VkMachine;
use crate::rules::VkRule;
use dx_base::Memory;
use vk_types::VkStep;

/// Whether a step breaks a rule.
#[derive(Clone, Copy, Debug, PartialEq, Eq)]
pub enum VkVerdict {
    /// It breaks none.
    Clean,
    /// The least rule that it breaks.
    Broken(VkRule),
}

/// The verdict on a step that breaks a rule, or none.
fn verdict_of(rule: Option<VkRule>) -> VkVerdict
    ensures { result ≡ verdict_by rule }
{
    match rule {
        None => VkVerdict::Clean,
        Some(rule) => VkVerdict::Broken(rule),
    }
}

impl VkMachine {
    /// Takes a step, and tells the least rule that it breaks, if it breaks one. It is not asked that the step can be taken:
    /// see `can`. Refused for memory, the machine stays as it was.
    pub fn feed(&mut self, step: &VkStep) -> Result<VkVerdict, Memory>
        ensures verdict { IfOk result (λ verdict. verdict ≡ verdict_by (rule_of (state_of self.old) step.now)) }
        ensures state { OnOk result (state_of self.new ≡ after_step (state_of self.old) step.now) }
        ensures same { OnErr result (state_of self.new ≡ state_of self.old) }
    {
        match step {
            VkStep::Submit(batch) => Ok(verdict_of(self.submit(batch)?)),
            VkStep::Pass { queue, number } => {
                self.pass(*queue, *number)?;
                Ok(VkVerdict::Clean)
            }
            VkStep::Command {
                queue,
                number,
                place,
                loaded,
            } => { Ok(verdict_of(self.command(*queue, *number, *place, loaded)?)) }
            VkStep::Bump { queue, number } => {
                self.end(*queue, *number)?;
                Ok(VkVerdict::Clean)
            }
            VkStep::HostWrite {
                buffer,
                first,
                words,
            } => { Ok(verdict_of(self.host_write(*buffer, *first, words)?)) }
            VkStep::HostRead {
                buffer,
                first,
                words,
            } => { Ok(verdict_of(self.host_read(*buffer, *first, words)?)) }
            VkStep::Update { heap, slot } => Ok(verdict_of(self.update(*heap, *slot))),
        }
    }
}
