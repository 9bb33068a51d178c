//! Batches by chance.

use crate::dice::Dice;
use crate::random_commands::some_command;
use crate::slow_machine::SlowMachine;
use dx_base::{Memory, Seq};
use std::alloc::Global;
use vk_types::{Batch, VkCommand};

/// The greater of two numbers, where a pair is of that timeline.
fn highest_of(pairs: &[(u32, u64)], timeline: u32, least: u64) -> u64 {
    let mut highest = least;
    for (one, value) in pairs {
        if *one == timeline {
            highest = highest.max(*value);
        }
    }
    highest
}

/// A value above a timeline's and those that are still to be set.
fn next_value(slow: &SlowMachine, timeline: u32) -> u64 {
    let mut highest = slow.value_of(timeline);
    for batch in slow.batches.as_slice() {
        if !batch.finished {
            highest = highest_of(batch.sets.as_slice(), timeline, highest);
        }
    }
    highest.saturating_add(1)
}

/// What a batch sets: most often a value that rises, at times one that does not or is far, or nothing.
fn some_set(dice: &mut Dice, slow: &SlowMachine, timeline: u32) -> Option<u64> {
    let now = slow.value_of(timeline);
    let next = next_value(slow, timeline);
    match dice.roll(20) {
        0 => None,
        1 => Some(now),
        2 => Some(next.saturating_sub(1)),
        3 => Some(now.saturating_add(2_147_483_647)),
        4 => Some(now.saturating_add(2_147_483_648)),
        _ => Some(next),
    }
}

/// What a batch waits for: most often nothing or what is reached, at times what is still to be set or what never is.
fn some_wait(dice: &mut Dice, slow: &SlowMachine, timeline: u32) -> Option<u64> {
    let now = slow.value_of(timeline);
    match dice.roll(48) {
        0..=15 => Some(now),
        16..=23 => Some(now.saturating_sub(1)),
        24..=27 => Some(next_value(slow, timeline).saturating_sub(1)),
        28 => Some(now.saturating_add(2_147_483_648)),
        _ => None,
    }
}

/// A timeline with a value, if there is one, as a list.
fn listed(alloc: Global, timeline: u32, value: Option<u64>) -> Result<Seq<(u32, u64)>, Memory> {
    match value {
        None => Ok(Seq::new(alloc)),
        Some(value) => Seq::from_slice(alloc, &[(timeline, value)]),
    }
}

/// Up to five commands.
fn some_commands(alloc: Global, dice: &mut Dice) -> Result<Seq<VkCommand>, Memory> {
    let mut commands = Seq::new(alloc);
    for _command in 0..dice.roll(6) {
        commands.push(some_command(dice))?;
    }
    Ok(commands)
}

/// The number of a queue's next batch, at times a wrong one.
fn some_number(dice: &mut Dice, slow: &SlowMachine, queue: u32) -> u64 {
    let number = slow.next_number(queue);
    if dice.hits(50) {
        number.saturating_add(1)
    } else {
        number
    }
}

/// A batch of one of two queues, which sets the timeline of its queue.
pub(crate) fn some_batch(
    alloc: Global,
    dice: &mut Dice,
    slow: &SlowMachine,
) -> Result<Batch, Memory> {
    let queue = dice.roll(2);
    let awaited = dice.roll(2);
    let wait = some_wait(dice, slow, awaited);
    let set = some_set(dice, slow, queue);
    Ok(Batch {
        queue,
        number: some_number(dice, slow, queue),
        waits: listed(alloc, awaited, wait)?,
        commands: some_commands(alloc, dice)?,
        sets: listed(alloc, queue, set)?,
    })
}
