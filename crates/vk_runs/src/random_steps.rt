//! Steps by chance.

use crate::batches::SlowBatch;
use crate::dice::Dice;
use crate::random_batches::some_batch;
use crate::registers::slot_count;
use crate::slow_machine::SlowMachine;
use crate::word_accesses::At;
use dx_base::{Memory, Seq};
use std::alloc::Global;
use vk_sync_rules::Place;
use vk_types::VkStep;

/// Words below a number, so many.
fn some_words(alloc: Global, dice: &mut Dice, count: u32, below: u32) -> Result<Seq<u32>, Memory> {
    let mut words = Seq::new(alloc);
    for _word in 0..count {
        words.push(dice.roll(below))?;
    }
    Ok(words)
}

/// How many answers a command wants, at times another number.
fn some_answer_count(dice: &mut Dice, slow: &SlowMachine, at: At) -> Result<u32, Memory> {
    if dice.hits(10) {
        return Ok(dice.roll(3));
    }
    let Some((command, _)) = slow.command_at(at) else {
        return Ok(0);
    };
    let mut count = 0u32;
    for _slot in 0..slot_count(slow.alloc, command)? {
        count = count.saturating_add(1);
    }
    Ok(count)
}

/// The place of the first command of a batch that is not done, if there is one.
fn first_undone(batch: &SlowBatch) -> Option<u64> {
    let mut place = 1u64;
    for (_, done) in batch.commands.as_slice() {
        if !*done {
            return Some(place);
        }
        place = place.saturating_add(1);
    }
    None
}

/// A place in a batch, most often that of the first command that is not done.
fn some_index(dice: &mut Dice, slow: &SlowMachine, queue: u32, number: u64) -> u64 {
    let any = dice.roll(6) as u64;
    if dice.hits(3) {
        return any;
    }
    match slow.batch_of(queue, number) {
        None => any,
        Some(batch) => first_undone(batch).unwrap_or(any),
    }
}

/// A command of an unfinished batch.
fn some_run(alloc: Global, dice: &mut Dice, slow: &SlowMachine) -> Result<VkStep, Memory> {
    let queue = dice.roll(2);
    let first = slow.next_to_finish(queue).unwrap_or(0);
    let number = if dice.hits(4) {
        first.saturating_add(1)
    } else {
        first
    };
    let index = some_index(dice, slow, queue, number);
    let at = At {
        queue,
        place: Place { number, index },
    };
    let count = some_answer_count(dice, slow, at)?;
    Ok(VkStep::Command {
        queue,
        number,
        place: index,
        loaded: some_words(alloc, dice, count, 13)?,
    })
}

/// A write of the host.
fn some_host_write(alloc: Global, dice: &mut Dice) -> Result<VkStep, Memory> {
    let buffer = dice.roll(2);
    let first = dice.roll(4);
    let count = dice.roll(4);
    Ok(VkStep::HostWrite {
        buffer,
        first,
        words: some_words(alloc, dice, count, 7)?,
    })
}

/// A read of the host.
fn some_host_read(alloc: Global, dice: &mut Dice) -> Result<VkStep, Memory> {
    let buffer = dice.roll(2);
    let first = dice.roll(4);
    let count = dice.roll(4);
    Ok(VkStep::HostRead {
        buffer,
        first,
        words: some_words(alloc, dice, count, 1)?,
    })
}

/// Whether a queue has so few batches that are not finished that one more is to come.
fn has_few(slow: &SlowMachine, queue: u32) -> bool {
    match slow.next_to_finish(queue) {
        None => true,
        Some(number) => slow.next_number(queue).saturating_sub(number) < 2,
    }
}

/// A submission where there is little to be done, and else most often a command.
fn some_work(alloc: Global, dice: &mut Dice, slow: &SlowMachine) -> Result<VkStep, Memory> {
    let queue = dice.roll(2);
    if has_few(slow, queue) || dice.hits(4) {
        Ok(VkStep::Submit(some_batch(alloc, dice, slow)?))
    } else {
        some_run(alloc, dice, slow)
    }
}

/// The pass of the next batch of a queue; where there is none, of a number that is none.
fn some_pass(dice: &mut Dice, slow: &SlowMachine) -> VkStep {
    let queue = dice.roll(2);
    let any = dice.roll(3) as u64;
    VkStep::Pass {
        queue,
        number: slow.next_to_pass(queue).unwrap_or(any),
    }
}

/// The end of the least unfinished batch of a queue; where there is none, of a number that is none.
fn some_end(dice: &mut Dice, slow: &SlowMachine) -> VkStep {
    let queue = dice.roll(2);
    let any = dice.roll(3) as u64;
    VkStep::Bump {
        queue,
        number: slow.next_to_finish(queue).unwrap_or(any),
    }
}

/// A step of the host.
fn some_host_step(alloc: Global, dice: &mut Dice) -> Result<VkStep, Memory> {
    match dice.roll(8) {
        0 | 1 | 2 => some_host_write(alloc, dice),
        3 | 4 | 5 => some_host_read(alloc, dice),
        _ => Ok(VkStep::Update {
            heap: 0,
            slot: dice.roll(4),
        }),
    }
}

/// A step, which often can be taken and often breaks no rule.
pub fn some_step(alloc: Global, dice: &mut Dice, slow: &SlowMachine) -> Result<VkStep, Memory> {
    match dice.roll(16) {
        0 | 1 | 2 => some_work(alloc, dice, slow),
        3 | 4 => Ok(some_pass(dice, slow)),
        5 | 6 => Ok(some_end(dice, slow)),
        7 => some_host_step(alloc, dice),
        _ => some_run(alloc, dice, slow),
    }
}
