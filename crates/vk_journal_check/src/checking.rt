//! The check of steps.

ghost use Rattle.std.specs.Prelude.{◌≡◌, IfOk, Some, is_none};
ghost use Rattle.vk_journal_check.specs.StepChecks.{check_from, check_of_step, checked, differs, some_differ, tells_otherwise};
ghost use Rattle.vk_journal_check.specs.declared.checking.StepCheck.TheVariants as check;
ghost use Rattle.vk_sync_rules.specs.Machines.{state_of};
ghost use Rattle.vk_sync_rules.specs.Rules.{after_step};

use dx_base::Memory;
use std::alloc::Global;
use vk_sync_rules::{VkMachine, VkResource, VkRule, VkVerdict};
use vk_types::{DevicePlan, VkStep};

/// What a list of steps is. A step is named by its number, counted from 1.
#[derive(Clone, Copy, Debug, PartialEq, Eq)]
pub enum StepCheck {
    /// Each step can be taken and breaks no rule.
    Clean,
    /// The first step that breaks a rule or is impossible is possible, and this is the least rule that it breaks.
    Broken(VkRule, u64),
    /// The first step that breaks a rule or is impossible is impossible: it cannot be taken, or it breaks no rule and is a host
    /// read that tells another number than the known one that stands there.
    Impossible(u64),
}

/// Whether a number is another one than that which is known, if one is.
fn differs(known: Option<u32>, word: u32) -> bool
    ensures { result ≡ differs known word }
{
    match known {
        None => false,
        Some(number) => number != word,
    }
}

/// Whether some word is another number than the known one that stands there, if one does, from a word of a buffer on.
fn some_differ(machine: &VkMachine, buffer: u32, first: u32, words: &[u32]) -> bool
    ensures { result ≡ some_differ (state_of machine.now) buffer first words.now }
{
    for index in 0..words.len() {
        let known = machine.number(VkResource::Buffer(buffer), first as u64 + index as u64);
        if differs(known, words[index]) {
            return true;
        }
    }
    false
}

/// Whether a step is a host read that tells another number than the known one that stands there.
fn tells_otherwise(machine: &VkMachine, step: &VkStep) -> bool
    ensures { result ≡ tells_otherwise (state_of machine.now) step.now }
{
    match step {
        VkStep::Submit(_) => false,
        VkStep::Pass { .. } => false,
        VkStep::Command { .. } => false,
        VkStep::Bump { .. } => false,
        VkStep::HostWrite { .. } => false,
        VkStep::HostRead {
            buffer,
            first,
            words,
        } => { some_differ(machine, *buffer, *first, words.as_slice()) }
        VkStep::Update { .. } => false,
    }
}

/// What one step is, which has a number; takes it where it is clean.
fn check_step(machine: &mut VkMachine, step: &VkStep, number: u64) -> Result<StepCheck, Memory>
    ensures check { IfOk result (λ one. one ≡ check_of_step (state_of machine.old) number step.now) }
    ensures state { IfOk result (λ one. one ≡ check.Clean → state_of machine.new ≡ after_step (state_of machine.old) step.now) }
{
    if !machine.can(step) {
        return Ok(StepCheck::Impossible(number));
    }
    let otherwise = tells_otherwise(machine, step);
    match machine.feed(step)? {
        VkVerdict::Broken(rule) => Ok(StepCheck::Broken(rule, number)),
        VkVerdict::Clean => {
            if otherwise {
                Ok(StepCheck::Impossible(number))
            } else {
                Ok(StepCheck::Clean)
            }
        }
    }
}

/// What steps are from a state of the machine on.
fn check_all(machine: &mut VkMachine, steps: &[VkStep]) -> Result<StepCheck, Memory>
    ensures { IfOk result (λ all. all ≡ check_from (state_of machine.old) 1 steps.now) }
{
    for index in 0..steps.len() {
        match check_step(machine, &steps[index], index as u64 + 1)? {
            StepCheck::Clean => {}
            fault => return Ok(fault),
        }
    }
    Ok(StepCheck::Clean)
}

/// What steps of a device are that was just created by a plan: clean, or the first fault.
///
/// `Memory`: memory was refused, and nothing is said of the steps.
pub fn check_steps(alloc: Global, plan: &DevicePlan, steps: &[VkStep]) -> Result<StepCheck, Memory>
    ensures { IfOk result (λ all. all ≡ checked plan.now steps.now) }
{
    let mut machine = VkMachine::new(alloc, plan)?;
    let all = check_all(&mut machine, steps);
    drop(machine);
    all
}
