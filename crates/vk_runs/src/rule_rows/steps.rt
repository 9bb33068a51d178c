//! The steps that can be taken.

use super::{BETWEEN, COPY, LEADING, TRAILING, Turn, WROTE, machine_of, small_plan, step_of};
use dx_base::{Memory, Routine};
use std::alloc::Global;
use std::process::Abort;
use std::test::Fail;
use vk_sync_rules::VkMachine;
use vk_types::{Count, Register, VkCommand};

/// Turns, and whether each can be taken when it comes.
type Row = (&'static [Turn], bool);

/// Commands in their order.
const COMMANDS: [Row; 9] = [
    (
        &[
            WROTE,
            Turn::Submit(
                0,
                0,
                &[],
                &[LEADING, COPY, BETWEEN, COPY, TRAILING],
                &[(0, 1)],
            ),
            Turn::Pass(0, 0),
            Turn::Run(0, 0, 1, &[]),
            Turn::Run(0, 0, 2, &[]),
            Turn::Run(0, 0, 3, &[]),
            Turn::Run(0, 0, 4, &[]),
            Turn::Run(0, 0, 5, &[]),
            Turn::Bump(0, 0),
        ],
        true,
    ),
    // commands with no barrier between them come in any order
    (
        &[
            Turn::Submit(0, 0, &[], &[COPY, COPY], &[]),
            Turn::Pass(0, 0),
            Turn::Run(0, 0, 2, &[]),
            Turn::Run(0, 0, 1, &[]),
            Turn::Bump(0, 0),
        ],
        true,
    ),
    (
        &[
            Turn::Submit(0, 0, &[], &[LEADING, COPY], &[]),
            Turn::Pass(0, 0),
            Turn::Run(0, 0, 2, &[]),
        ],
        false,
    ),
    (
        &[
            Turn::Submit(0, 0, &[], &[COPY, TRAILING], &[]),
            Turn::Pass(0, 0),
            Turn::Run(0, 0, 2, &[]),
        ],
        false,
    ),
    // an earlier batch orders, too
    (
        &[
            Turn::Submit(0, 0, &[], &[LEADING], &[]),
            Turn::Pass(0, 0),
            Turn::Submit(0, 1, &[], &[COPY], &[]),
            Turn::Pass(0, 1),
            Turn::Run(0, 1, 1, &[]),
        ],
        false,
    ),
    (
        &[
            Turn::Submit(0, 0, &[], &[COPY], &[]),
            Turn::Pass(0, 0),
            Turn::Run(0, 0, 1, &[]),
            Turn::Run(0, 0, 1, &[]),
        ],
        false,
    ),
    (
        &[
            Turn::Submit(0, 0, &[], &[COPY], &[]),
            Turn::Run(0, 0, 1, &[]),
        ],
        false,
    ),
    (
        &[
            Turn::Submit(0, 0, &[], &[COPY], &[]),
            Turn::Pass(0, 0),
            Turn::Run(0, 0, 2, &[]),
        ],
        false,
    ),
    (
        &[
            Turn::Submit(0, 0, &[], &[COPY], &[]),
            Turn::Pass(0, 0),
            Turn::Run(0, 0, 0, &[]),
        ],
        false,
    ),
];

/// Passes and ends.
const BATCHES: [Row; 5] = [
    (
        &[
            Turn::Submit(0, 0, &[], &[], &[(0, 1)]),
            Turn::Pass(0, 0),
            Turn::Bump(0, 0),
            Turn::Submit(1, 1, &[(0, 1)], &[], &[]),
            Turn::Pass(1, 1),
        ],
        true,
    ),
    (
        &[
            Turn::Submit(0, 0, &[], &[], &[(0, 1)]),
            Turn::Pass(0, 0),
            Turn::Submit(1, 1, &[(0, 1)], &[], &[]),
            Turn::Pass(1, 1),
        ],
        false,
    ),
    (
        &[
            Turn::Submit(0, 0, &[], &[COPY], &[]),
            Turn::Pass(0, 0),
            Turn::Bump(0, 0),
        ],
        false,
    ),
    // an end asks for the pass, also of a batch with no commands
    (
        &[Turn::Submit(0, 0, &[], &[], &[]), Turn::Bump(0, 0)],
        false,
    ),
    (
        &[
            Turn::Submit(0, 0, &[], &[], &[]),
            Turn::Pass(0, 0),
            Turn::Bump(0, 0),
        ],
        true,
    ),
];

/// A routine that names one slot in two registers.
const TWO_REGISTERS: VkCommand = dispatch!(
    Move,
    Count::Number(1),
    Register::Slot { heap: 0, slot: 2 },
    Register::Slot { heap: 0, slot: 2 },
    Register::Unbound
);

/// A clear of what a slot holds.
const CLEAR_SLOT: VkCommand = clear!(Register::Slot { heap: 0, slot: 2 }, 7);

/// One answer for each slot.
const ANSWERS: [Row; 3] = [
    (
        &[
            Turn::Submit(0, 0, &[], &[CLEAR_SLOT], &[]),
            Turn::Pass(0, 0),
            Turn::Run(0, 0, 1, &[]),
        ],
        false,
    ),
    (
        &[
            Turn::Submit(0, 0, &[], &[TWO_REGISTERS], &[]),
            Turn::Pass(0, 0),
            Turn::Run(0, 0, 1, &[0]),
        ],
        true,
    ),
    (
        &[
            Turn::Submit(0, 0, &[], &[TWO_REGISTERS], &[]),
            Turn::Pass(0, 0),
            Turn::Run(0, 0, 1, &[0, 0]),
        ],
        false,
    ),
];

/// Whether a turn can be taken; it is taken then.
fn can_take(alloc: Global, machine: &mut VkMachine, turn: Turn) -> Result<bool, Memory> {
    let step = step_of(alloc, turn)?;
    let can = machine.can(&step);
    let fed = machine.feed(&step);
    drop(step);
    match fed {
        Err(refused) => Err(refused),
        Ok(_) => Ok(can),
    }
}

/// Whether each of some turns can be taken when it comes.
fn can_take_all(alloc: Global, machine: &mut VkMachine, turns: &[Turn]) -> Result<bool, Memory> {
    let mut all = true;
    for turn in turns {
        let can = can_take(alloc, machine, *turn)?;
        all = all && can;
    }
    Ok(all)
}

/// The same on a new machine.
fn can_take_all_small(alloc: Global, turns: &[Turn]) -> Result<bool, Memory> {
    let mut machine = machine_of(alloc, small_plan(alloc)?)?;
    let all = can_take_all(alloc, &mut machine, turns);
    drop(machine);
    all
}

/// Each row can be taken, or cannot.
fn can_be_taken(rt: &impl Abort, alloc: Global, rows: &[Row]) -> Result<(), Memory> {
    for k in 0..rows.len() {
        let all = can_take_all_small(alloc, rows[k].0)?;
        assert!(rt; all == rows[k].1, "row {k}");
    }
    Ok(())
}

#[test]
fn barriers_order_commands(rt: HostRuntime) -> Result<(), Fail> {
    can_be_taken(&rt, rt.alloc(), &COMMANDS)?;
    Ok(())
}

#[test]
fn batches_pass_when_their_waits_are_over_and_end_when_all_is_done(
    rt: HostRuntime,
) -> Result<(), Fail> {
    can_be_taken(&rt, rt.alloc(), &BATCHES)?;
    Ok(())
}

#[test]
fn a_command_has_an_answer_for_each_slot(rt: HostRuntime) -> Result<(), Fail> {
    can_be_taken(&rt, rt.alloc(), &ANSWERS)?;
    Ok(())
}
