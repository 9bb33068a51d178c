//! The two cases: copies of words of their own, and copies behind one another.

use crate::batches::{batch, plan};
use dx_base::{Memory, Seq};
use std::alloc::Global;
use vk_sync_rules::{VkMachine, VkVerdict};
use vk_types::VkStep;

/// What the commands of a batch are.
#[derive(Clone, Copy, Debug)]
pub(crate) enum Case {
    Apart,
    Behind,
}

/// The case of that name, with the count.
pub(crate) fn named(name: &str, count: u32) -> Option<(Case, u32)> {
    if name == "apart" {
        return Some((Case::Apart, count));
    }
    if name == "behind" {
        return Some((Case::Behind, count));
    }
    None
}

/// Whether a step is clean.
fn feed(machine: &mut VkMachine, step: VkStep) -> Result<bool, Memory> {
    let verdict = machine.feed(&step);
    drop(step);
    match verdict? {
        VkVerdict::Clean => Ok(true),
        VkVerdict::Broken(_) => Ok(false),
    }
}

/// The submission, the pass, the commands in order and the end of a batch with so many commands: how many are clean.
fn feed_batch(
    alloc: Global,
    machine: &mut VkMachine,
    case: Case,
    number: u32,
    count: u32,
) -> Result<u64, Memory> {
    let queue = 0;
    let mut clean = 0u64;
    if feed(machine, VkStep::Submit(batch(alloc, case, number, count)?))? {
        clean = clean.saturating_add(1);
    }
    let number = number as u64;
    if feed(machine, VkStep::Pass { queue, number })? {
        clean = clean.saturating_add(1);
    }
    for place in 0..count {
        let step = VkStep::Command {
            queue,
            number,
            place: place as u64 + 1,
            loaded: Seq::new(alloc),
        };
        if feed(machine, step)? {
            clean = clean.saturating_add(1);
        }
    }
    if feed(machine, VkStep::Bump { queue, number })? {
        clean = clean.saturating_add(1);
    }
    Ok(clean)
}

/// So many commands, in batches of sixteen: how many steps are clean.
fn feed_all(alloc: Global, machine: &mut VkMachine, case: Case, count: u32) -> Result<u64, Memory> {
    let mut clean = 0u64;
    for number in 0..count / 16 {
        clean = clean.saturating_add(feed_batch(alloc, machine, case, number, 16)?);
    }
    if count % 16 != 0 {
        clean = clean.saturating_add(feed_batch(alloc, machine, case, count / 16, count % 16)?);
    }
    Ok(clean)
}

/// A new machine.
fn new_machine(alloc: Global) -> Result<VkMachine, Memory> {
    let plan = plan(alloc)?;
    let machine = VkMachine::new(alloc, &plan);
    drop(plan);
    machine
}

/// How many steps are clean in a case of so many commands.
pub(crate) fn clean_steps(alloc: Global, case: Case, count: u32) -> Result<u64, Memory> {
    let mut machine = new_machine(alloc)?;
    let clean = feed_all(alloc, &mut machine, case, count);
    drop(machine);
    clean
}
