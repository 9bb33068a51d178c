//! Scripts by chance: lists with a few copies that are executed, signals and waits, and accesses by the host.

use crate::dice::Dice;
use crate::scripts::{FIRST, READBACK, SECOND, Step, UPLOAD};
use dx_base::Memory;
use std::alloc::Global;

/// Mostly one of the enhanced buffers, and else the given one; seldom the other.
fn some_buffer(dice: &mut Dice, often: u32, seldom: u32) -> u32 {
    match dice.roll(32) {
        0 => seldom,
        1..=12 => often,
        13..=22 => FIRST,
        _ => SECOND,
    }
}

fn some_copy(dice: &mut Dice, list: u32) -> Step {
    let to = some_buffer(dice, READBACK, UPLOAD);
    let from = some_buffer(dice, UPLOAD, READBACK);
    let to_word = dice.roll(6);
    let from_word = dice.roll(6);
    let words = dice.roll(2).saturating_add(1);
    Step::Copy(list, to, to_word, from, from_word, words)
}

/// A list of one to three copies, executed on one of the queues.
fn push_execute(steps: &mut Vec<Step>, dice: &mut Dice, thread: u32) -> Result<(), Memory> {
    let list = dice.flip().saturating_add(thread.saturating_mul(2));
    steps.push(Step::Reset(list))?;
    for _copy in 0..dice.roll(3).saturating_add(1) {
        steps.push(some_copy(dice, list))?;
    }
    steps.push(Step::Close(list))?;
    steps.push(Step::Execute(dice.flip(), list))?;
    Ok(())
}

/// A signal of one of the queues and a wait for it.
fn push_round(steps: &mut Vec<Step>, dice: &mut Dice) -> Result<(), Memory> {
    let value = dice.roll(4).saturating_add(1);
    steps.push(Step::Signal(dice.flip(), value))?;
    steps.push(Step::HostWait(value))?;
    Ok(())
}

fn some_host_access(dice: &mut Dice) -> Step {
    let first = dice.roll(6);
    let words = dice.roll(2).saturating_add(1);
    match dice.roll(8) {
        0 => Step::Read(FIRST, first, words),
        1..=4 => Step::Read(READBACK, first, words),
        _ => Step::Write(UPLOAD, first, words),
    }
}

fn push_some(steps: &mut Vec<Step>, dice: &mut Dice, thread: u32) -> Result<(), Memory> {
    match dice.roll(10) {
        0..=3 => push_execute(steps, dice, thread)?,
        4..=6 => push_round(steps, dice)?,
        7 => steps.push(some_host_access(dice))?,
        8 => steps.push(Step::Value)?,
        _ => steps.push(Step::HostSignal(dice.roll(4)))?,
    }
    Ok(())
}

fn push_all(steps: &mut Vec<Step>, dice: &mut Dice, thread: u32) -> Result<(), Memory> {
    for _chunk in 0..dice.roll(5).saturating_add(1) {
        push_some(steps, dice, thread)?;
    }
    Ok(())
}

/// A script of a thread.
pub fn some_script(alloc: Global, dice: &mut Dice, thread: u32) -> Result<Vec<Step>, Memory> {
    let mut steps = Vec::new(alloc);
    match push_all(&mut steps, dice, thread) {
        Ok(()) => Ok(steps),
        Err(memory) => {
            drop(steps);
            Err(memory)
        }
    }
}
