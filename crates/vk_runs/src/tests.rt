//! Random steps from fixed seeds, fed to both machines.

mod images;

use crate::dice::Dice;
use crate::random_commands::plan;
use crate::random_steps::some_step;
use crate::slow_machine::SlowMachine;
use dx_base::Memory;
use std::alloc::Global;
use std::process::Abort;
use std::test::Fail;
use vk_sync_rules::{VkMachine, VkResource, VkRule, VkVerdict};
use vk_types::{DevicePlan, VkStep};

/// The lists: their seeds are 1, 2, ..
const LISTS: u64 = 2_000;

/// How many steps by chance a list has; those that cannot be taken are left.
const STEPS: u32 = 48;

/// Whether a verdict is that of a rule, or clean where there is none.
fn is_verdict(verdict: VkVerdict, rule: Option<VkRule>) -> bool {
    match verdict {
        VkVerdict::Clean => rule.is_none(),
        VkVerdict::Broken(broken) => rule == Some(broken),
    }
}

/// Whether the numbers of all words are the same.
fn agree_on_numbers(machine: &VkMachine, slow: &SlowMachine) -> bool {
    for (word, number) in slow.words.as_slice() {
        if machine.number(word.resource, word.at) != *number {
            return false;
        }
    }
    true
}

/// Whether the layouts of all subresources are the same.
fn agree_on_layouts(machine: &VkMachine, slow: &SlowMachine) -> bool {
    for (resource, layout) in slow.layouts.as_slice() {
        if let VkResource::Image(image, sub) = *resource {
            if machine.layout(image, sub) != *layout {
                return false;
            }
        }
    }
    true
}

/// Whether the values of the timelines are the same.
fn agree_on_values(machine: &VkMachine, slow: &SlowMachine) -> bool {
    machine.value(0) == slow.value_of(0) && machine.value(1) == slow.value_of(1)
}

/// Whether both machines tell the same.
fn agree(machine: &VkMachine, slow: &SlowMachine) -> bool {
    agree_on_numbers(machine, slow)
        && agree_on_layouts(machine, slow)
        && agree_on_values(machine, slow)
        && machine.broken() == slow.broken
        && machine.is_serial() == slow.serial
}

/// How two machines take a step.
#[derive(Clone, Copy, Debug, PartialEq, Eq)]
enum Outcome {
    Alike,
    /// Alike, but no step is to come behind it.
    Last,
    Apart,
}

/// Whether a step submits a batch whose number is not the next of its queue.
fn is_misnumbered(slow: &SlowMachine, step: &VkStep) -> bool {
    match step {
        VkStep::Submit(batch) => batch.number != slow.next_number(batch.queue),
        _ => false,
    }
}

/// How both machines take a step that can be taken. A batch with a wrong number is the last one, since it is not said which
/// batch is then the next to pass.
fn take_enabled(
    machine: &mut VkMachine,
    slow: &mut SlowMachine,
    step: &VkStep,
) -> Result<Outcome, Memory> {
    let is_last = is_misnumbered(slow, step);
    let rule = slow.take(step)?;
    let verdict = machine.feed(step)?;
    if !is_verdict(verdict, rule) || !agree(machine, slow) {
        Ok(Outcome::Apart)
    } else if is_last {
        Ok(Outcome::Last)
    } else {
        Ok(Outcome::Alike)
    }
}

/// Whether a careful list leaves a step: one that breaks a rule, and is no read of the host.
fn is_careless(slow: &SlowMachine, step: &VkStep) -> Result<bool, Memory> {
    match step {
        VkStep::HostRead { .. } => Ok(false),
        _ => Ok(slow.rule_of(step)?.is_some()),
    }
}

/// How both machines take a step. One that cannot be taken is left.
fn take_both(
    machine: &mut VkMachine,
    slow: &mut SlowMachine,
    step: &VkStep,
    careful: bool,
) -> Result<Outcome, Memory> {
    let can = slow.can(step)?;
    if machine.can(step) != can {
        return Ok(Outcome::Apart);
    }
    if !can || (careful && is_careless(slow, step)?) {
        return Ok(Outcome::Alike);
    }
    take_enabled(machine, slow, step)
}

/// Takes the steps of a seed, the first of them with care: how many were taken alike, and how the last one was taken.
fn take_list(
    alloc: Global,
    machine: &mut VkMachine,
    slow: &mut SlowMachine,
    dice: &mut Dice,
    careful: u32,
) -> Result<(u32, Outcome), Memory> {
    for place in 0..STEPS {
        let step = some_step(alloc, dice, slow)?;
        let outcome = take_both(machine, slow, &step, place < careful);
        drop(step);
        let outcome = outcome?;
        if outcome != Outcome::Alike {
            return Ok((place, outcome));
        }
    }
    Ok((STEPS, Outcome::Alike))
}

/// How many steps of a list are taken with care: none, half of them or all.
fn some_care(dice: &mut Dice) -> u32 {
    match dice.roll(4) {
        0 => 0,
        1 => STEPS,
        _ => dice.roll(STEPS),
    }
}

/// The same on a new machine.
fn take_list_anew(
    alloc: Global,
    plan: &DevicePlan,
    slow: &mut SlowMachine,
    seed: u64,
) -> Result<(u32, Outcome), Memory> {
    let mut machine = VkMachine::new(alloc, plan)?;
    let mut dice = Dice::new(seed);
    let careful = some_care(&mut dice);
    let outcome = take_list(alloc, &mut machine, slow, &mut dice, careful);
    drop(machine);
    outcome
}

/// How many lists broke no rule, and how many broke each first.
#[derive(Clone, Copy, Debug)]
struct Counts {
    clean: u32,
    rules: [u32; 10],
}

/// The place of a rule among them.
fn place_of(rule: VkRule) -> usize {
    match rule {
        VkRule::V1 => 0,
        VkRule::V2 => 1,
        VkRule::V3 => 2,
        VkRule::V4 => 3,
        VkRule::V5 => 4,
        VkRule::V6 => 5,
        VkRule::V7 => 6,
        VkRule::V8 => 7,
        VkRule::V9 => 8,
        VkRule::V10 => 9,
    }
}

/// Counts one more.
fn count(counts: &mut Counts, broken: Option<VkRule>) {
    match broken {
        None => counts.clean = counts.clean.saturating_add(1),
        Some(rule) => {
            if let Some(lists) = counts.rules.get_mut(place_of(rule)) {
                *lists = lists.saturating_add(1);
            }
        }
    }
}

/// The same on two new machines, and counts the list.
fn take_list_of_both(
    alloc: Global,
    plan: &DevicePlan,
    counts: &mut Counts,
    seed: u64,
) -> Result<(u32, Outcome), Memory> {
    let mut slow = SlowMachine::new(alloc, plan)?;
    let outcome = take_list_anew(alloc, plan, &mut slow, seed);
    count(counts, slow.broken);
    drop(slow);
    outcome
}

/// Each list is taken alike.
fn take_lists(
    rt: &impl Abort,
    alloc: Global,
    plan: &DevicePlan,
    counts: &mut Counts,
) -> Result<(), Memory> {
    for seed in 1..=LISTS {
        let (step, outcome) = take_list_of_both(alloc, plan, counts, seed)?;
        assert!(rt; outcome != Outcome::Apart, "seed {seed}, step {step}");
    }
    Ok(())
}

/// The same, with a new plan.
fn take_lists_of_plan(rt: &impl Abort, alloc: Global, counts: &mut Counts) -> Result<(), Memory> {
    let plan = plan(alloc)?;
    let taken = take_lists(rt, alloc, &plan, counts);
    drop(plan);
    taken
}

#[test]
fn a_slow_machine_takes_random_steps_alike(rt: HostRuntime) -> Result<(), Fail> {
    let mut counts = Counts {
        clean: 0,
        rules: [0; 10],
    };
    take_lists_of_plan(&rt, rt.alloc(), &mut counts)?;
    assert!(&rt; counts.clean >= 500, "{counts:?}");
    assert!(&rt; counts.rules.iter().all(|lists| *lists >= 10), "{counts:?}");
    Ok(())
}
