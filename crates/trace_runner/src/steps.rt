//! The steps of a run, by choices.

ghost use Rattle.std.specs.Prelude.{ℕ, ◌≡◌, ◌<◌, ◌≤◌, ◌⊎◌, length, OnOk, OnErr, IfOk};
ghost use Rattle.d3d_machine.specs.Play.{IsFinished, state_after};
ghost use Rattle.sys_core.specs.Ahead.{IsWhole};
ghost use Rattle.sys_core.specs.Answered.{HasAnswered, HasCause};
ghost use Rattle.sys_core.specs.Goes.{WasTaken, Stays};
ghost use Rattle.sys_core.specs.Keeps.{IsSystem};
ghost use Rattle.sys_core.specs.Over.{IsOver};
ghost use Rattle.sys_core.specs.declared.over.Over.TheVariants as over;
ghost use Rattle.vk_port.specs.Machine.{shown};
ghost use Rattle.verdicts.specs.declared.rules.Verdict.TheVariants.{Clean};
ghost use Rattle.sys_core.specs.Steps.{enabled_of, CanBeTaken};
ghost use Rattle.trace_runner.specs.Steps.{TookStep, TookNone, Went};

use crate::log::Log;
use chooser::Chooser;
use dx_base::{QueueId, Step, ThreadId};
use sys_core::{Over, Sys, SysFault};
use vk_port::VkDevice;

/// Takes a step that can be taken. Refused, all stays.
fn take_step<D: VkDevice>(sys: &mut Sys<D>, step: Step) -> Result<(), SysFault>
    requires { CanBeTaken sys.old.world sys.old.history (shown sys.old.device.state) sys.old.device.offered step }
    ensures taken { OnOk result (WasTaken step sys.old sys.new) }
    ensures stays { OnErr result (Stays sys.old sys.new) }
    ensures system { IsSystem sys.new.world sys.new.history sys.new.device.state }
    ensures whole { IsWhole sys.new.world sys.new.history sys.new.device.state }
    ensures answered { HasAnswered sys.old.device sys.new.device result }
{
    match step {
        Step::Thread(thread) => sys.thread_step(ThreadId(thread)),
        Step::Worker(queue) => sys.worker_step(QueueId(queue)),
        Step::Device(place) => sys.device_step(place as usize),
    }
}

/// Draws a choice, and takes the step that it names: the one whose place is the choice modulo the number of the steps
/// that can be taken. Refused, no step was taken; a choice may have been drawn.
fn choose_step<D: VkDevice, C: Chooser>(
    sys: &mut Sys<D>,
    choices: &mut C,
    log: &mut Log,
) -> Result<(), SysFault>
    requires running { IsFinished sys.old.world (state_after sys.old.world sys.old.history).desk → ⊥ }
    requires some { 0 < length (enabled_of sys.old.world sys.old.history Clean (shown sys.old.device.state) sys.old.device.offered) }
    requires system { IsSystem sys.old.world sys.old.history sys.old.device.state }
    requires whole { IsWhole sys.old.world sys.old.history sys.old.device.state }
    ensures took { OnOk result (TookStep sys.old sys.new log.old log.new) }
    ensures none { OnErr result (TookNone sys.old sys.new log.old log.new) }
    ensures system { IsSystem sys.new.world sys.new.history sys.new.device.state }
    ensures whole { IsWhole sys.new.world sys.new.history sys.new.device.state }
    ensures given { C.given choices.old ≡ log.old.choices.items → C.given choices.new ≡ log.new.choices.items }
    ensures started { C.started choices.new ≡ C.started choices.old }
    ensures answered { HasAnswered sys.old.device sys.new.device result }
{
    log.reserve()?;
    let choice = choices.next()?;
    log.choices.push_reserved(choice);
    let step = sys.kth((choice % sys.enabled() as u64) as usize);
    take_step(sys, step)?;
    log.taken.push_reserved(step);
    Ok(())
}

/// Takes steps by choices until all is finished or no step can be taken; the answer says which.
pub(crate) fn take_steps<D: VkDevice, C: Chooser>(
    sys: &mut Sys<D>,
    choices: &mut C,
    log: &mut Log,
) -> Result<Over, SysFault>
    requires equal { length log.old.choices.items ≡ length log.old.taken.items }
    requires system { IsSystem sys.old.world sys.old.history sys.old.device.state }
    requires whole { IsWhole sys.old.world sys.old.history sys.old.device.state }
    requires given { C.given choices.old ≡ log.old.choices.items }
    ensures over { IfOk result (λ o. IsOver sys.new.world sys.new.history Clean (shown sys.new.device.state) sys.new.device.offered o) }
    ensures ended { IfOk result (λ o. (o ≡ over.Done) ⊎ (o ≡ over.Stalled)) }
    ensures equal { OnOk result (length log.new.choices.items ≡ length log.new.taken.items) }
    ensures went { (rest : ℕ) → Went sys.old.world rest log.old.choices.items log.old.taken.items sys.old.history sys.old.device →
        Went sys.new.world rest log.new.choices.items log.new.taken.items sys.new.history sys.new.device }
    ensures world { sys.new.world ≡ sys.old.world }
    ensures system { IsSystem sys.new.world sys.new.history sys.new.device.state }
    ensures whole { IsWhole sys.new.world sys.new.history sys.new.device.state }
    ensures given { C.given choices.new ≡ log.new.choices.items }
    ensures started { C.started choices.new ≡ C.started choices.old }
    ensures faults { sys.old.device.faults ≤ sys.new.device.faults }
    ensures cause { HasCause sys.old.device.faults sys.new.device.faults result }
{
    loop {
        match sys.over() {
            Over::Running => choose_step(sys, choices, log)?,
            Over::Done => return Ok(Over::Done),
            Over::Stalled => return Ok(Over::Stalled),
            Over::Broken | Over::Torn => unreachable!(),
        }
    }
}
