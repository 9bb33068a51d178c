//! The numbers that steps leave, as far as they are known.

use super::{
    ALL, ALL_COMMANDS, COPY, EVERY_WRITE, LEADING, TO_GENERAL, Turn, WROTE, go_row, machine_of,
    small_plan, verdict_of,
};
use dx_base::{Memory, Routine};
use std::alloc::Global;
use std::process::Abort;
use std::test::Fail;
use vk_sync_rules::{VkMachine, VkResource, VkRule};
use vk_types::{Change, Count, Register, VkCommand, VkLayout};

/// The numbers of both buffers; None where any may stand.
type Lists = &'static [[Option<u32>; 4]; 2];

/// Turns, the commands of the first batch, turns behind it, and the numbers of the two buffers.
type Row = (
    &'static [Turn],
    &'static [VkCommand],
    &'static [Turn],
    Lists,
);

/// Known numbers.
macro_rules! words {
    ($($word:expr),*) => { [$(Some($word)),*] };
}

/// Copies that see what they copy, and such that do not.
const COPIES: [Row; 6] = [
    (
        &[WROTE],
        &[LEADING, COPY],
        &[],
        &[words![5, 6, 7, 8], words![5, 6, 7, 8]],
    ),
    // what a copy does not see is open, and is handed on word by word
    (
        &[WROTE],
        &[copy!(1, 0, 0, 0, 2), copy!(0, 0, 1, 0, 1)],
        &[],
        &[[None, Some(6), Some(7), Some(8)], words![5, 6, 0, 0]],
    ),
    (
        &[WROTE],
        &[
            copy!(1, 0, 0, 0, 2),
            copy!(0, 0, 1, 0, 1),
            LEADING,
            copy!(1, 2, 0, 0, 2),
        ],
        &[],
        &[
            [None, Some(6), Some(7), Some(8)],
            [Some(5), Some(6), None, Some(6)],
        ],
    ),
    // and known again once it is written
    (
        &[WROTE],
        &[
            copy!(1, 0, 0, 0, 2),
            copy!(0, 0, 1, 0, 1),
            LEADING,
            clear!(Register::Fixed(1), 9),
            copy!(0, 0, 1, 2, 1),
        ],
        &[],
        &[words![0, 9, 9, 8], words![5, 6, 0, 0]],
    ),
    // past an end the words of the destination that are there are open
    (
        &[WROTE],
        &[copy!(1, 2, 0, 0, 3)],
        &[],
        &[words![5, 6, 7, 8], [Some(0), Some(0), None, None]],
    ),
    (
        &[Turn::Write(0, 3, &[1, 2])],
        &[],
        &[],
        &[[Some(0), Some(0), Some(0), None], words![0, 0, 0, 0]],
    ),
];

/// Copies through the image.
const IMAGE_COPIES: [Row; 1] = [(
    &[WROTE],
    &[TO_GENERAL, copy_in!(0, 1, 2), LEADING, copy_out!(1, 1, 2)],
    &[],
    &[words![5, 6, 7, 8], words![0, 6, 7, 0]],
)];

/// Routines, and clears of slots.
const REGISTERS: [Row; 7] = [
    (
        &[],
        &[dispatch!(
            Fill,
            Count::Number(3),
            Register::Unbound,
            Register::Fixed(3),
            Register::Constant(7)
        )],
        &[],
        &[words![0, 0, 0, 0], words![7, 7, 7, 0]],
    ),
    (
        &[WROTE],
        &[dispatch!(
            Fill,
            Count::Number(2),
            Register::Unbound,
            Register::Fixed(3),
            Register::Root {
                buffer: 0,
                first: 3
            }
        )],
        &[],
        &[words![5, 6, 7, 8], words![8, 8, 0, 0]],
    ),
    (
        &[WROTE],
        &[dispatch!(
            Move,
            Count::Number(4),
            Register::Fixed(0),
            Register::Fixed(3),
            Register::Unbound
        )],
        &[],
        &[words![5, 6, 7, 8], words![5, 6, 0, 0]],
    ),
    // a view of another class is as none
    (
        &[WROTE],
        &[dispatch!(
            Move,
            Count::Number(2),
            Register::Fixed(1),
            Register::Fixed(3),
            Register::Unbound
        )],
        &[],
        &[words![5, 6, 7, 8], words![0, 0, 0, 0]],
    ),
    // a routine that reads a number that is open leaves each word open that it may write
    (
        &[WROTE],
        &[
            copy!(1, 0, 0, 0, 2),
            copy!(0, 0, 1, 0, 1),
            LEADING,
            dispatch!(
                Move,
                Count::Number(2),
                Register::Fixed(0),
                Register::Fixed(3),
                Register::Unbound
            ),
        ],
        &[],
        &[
            [None, Some(6), Some(7), Some(8)],
            [None, None, Some(0), Some(0)],
        ],
    ),
    // a slot's view is the one that was loaded, and none where it is not set
    (
        &[
            Turn::Submit(
                0,
                0,
                &[],
                &[clear!(Register::Slot { heap: 0, slot: 2 }, 7)],
                &[],
            ),
            Turn::Pass(0, 0),
            Turn::Run(0, 0, 1, &[2]),
        ],
        &[],
        &[],
        &[words![0, 7, 7, 0], words![0, 0, 0, 0]],
    ),
    (
        &[
            Turn::Submit(
                0,
                0,
                &[],
                &[clear!(Register::Slot { heap: 0, slot: 2 }, 7)],
                &[],
            ),
            Turn::Pass(0, 0),
            Turn::Run(0, 0, 1, &[0]),
        ],
        &[],
        &[],
        &[words![0, 0, 0, 0], words![0, 0, 0, 0]],
    ),
];

/// A routine that fills buffer 1, with as many invocations as word 3 of buffer 0 says, and at most three.
const COUNTED: VkCommand = dispatch!(
    Fill,
    Count::Word {
        buffer: 0,
        word: 3,
        most: 3
    },
    Register::Unbound,
    Register::Fixed(3),
    Register::Constant(7)
);

/// Counts in words.
const COUNTS: [Row; 3] = [
    (
        &[Turn::Write(0, 3, &[2])],
        &[COUNTED],
        &[],
        &[words![0, 0, 0, 2], words![7, 7, 0, 0]],
    ),
    (
        &[Turn::Write(0, 3, &[9])],
        &[COUNTED],
        &[],
        &[words![0, 0, 0, 9], words![7, 7, 7, 0]],
    ),
    // a count that is not seen
    (
        &[],
        &[copy!(0, 3, 1, 3, 1), COUNTED],
        &[],
        &[words![0, 0, 0, 0], [None, None, None, Some(0)]],
    ),
];

/// Turns, commands, a step that no barrier orders behind them, and the rule that it breaks by their accesses.
type Probe = (
    &'static [Turn],
    &'static [VkCommand],
    &'static [Turn],
    Option<VkRule>,
);

/// The host writes between the submission and the doing of a copy from word 3 of buffer 0.
macro_rules! copied_behind {
    ($wrote:expr) => {
        &[Turn::Submit(0, 0, &[], &[copy!(1, 0, 0, 3, 1)], &[]), Turn::Pass(0, 0), $wrote, Turn::Run(0, 0, 1, &[])]
    };
}

/// The host writes where a copy has written two words.
const AFTER_A_WRITE: &[Turn] = &[Turn::Write(1, 2, &[1])];

/// The host writes where a copy has read.
const AFTER_A_READ: &[Turn] = &[Turn::Write(0, 0, &[1])];

/// What makes no accesses, past an end or of no words, and what makes a write of the host, a write and a read of a copy.
const ACCESSES: [Probe; 9] = [
    (&[], &[copy!(1, 2, 0, 0, 3)], AFTER_A_WRITE, None),
    (&[], &[copy!(1, 2, 0, 0, 3)], AFTER_A_READ, None),
    (copied_behind!(Turn::Write(0, 3, &[1, 2])), &[], &[], None),
    (&[], &[copy!(1, 2, 0, 0, 0)], AFTER_A_WRITE, None),
    (&[], &[copy!(1, 2, 0, 0, 0)], AFTER_A_READ, None),
    (copied_behind!(Turn::Write(0, 3, &[])), &[], &[], None),
    (
        &[],
        &[copy!(1, 2, 0, 0, 2)],
        AFTER_A_WRITE,
        Some(VkRule::V1),
    ),
    (&[], &[copy!(1, 2, 0, 0, 2)], AFTER_A_READ, Some(VkRule::V1)),
    (
        copied_behind!(Turn::Write(0, 3, &[1])),
        &[],
        &[],
        Some(VkRule::V1),
    ),
];

/// Whether a buffer has just these words.
fn are_words(machine: &VkMachine, buffer: u32, expected: &[Option<u32>; 4]) -> bool {
    let resource = VkResource::Buffer(buffer);
    let found = [
        machine.number(resource, 0),
        machine.number(resource, 1),
        machine.number(resource, 2),
        machine.number(resource, 3),
    ];
    found == *expected && machine.number(resource, 4).is_none()
}

/// Whether the machine has the numbers of a row behind its steps.
fn leaves(alloc: Global, machine: &mut VkMachine, row: &Row) -> Result<bool, Memory> {
    go_row(alloc, machine, row.0, row.1, row.2)?;
    let [first, second] = row.3;
    Ok(are_words(machine, 0, first) && are_words(machine, 1, second))
}

/// The same on a new machine.
fn leaves_small(alloc: Global, row: &Row) -> Result<bool, Memory> {
    let mut machine = machine_of(alloc, small_plan(alloc)?)?;
    let is = leaves(alloc, &mut machine, row);
    drop(machine);
    is
}

/// Each row leaves its numbers.
fn leave_their_numbers(rt: &impl Abort, alloc: Global, rows: &[Row]) -> Result<(), Memory> {
    for k in 0..rows.len() {
        let is = leaves_small(alloc, &rows[k])?;
        assert!(rt; is, "row {k}");
    }
    Ok(())
}

/// Whether the last step of a row breaks its rule on a new machine, whatever was broken before.
fn is_told(alloc: Global, row: &Probe) -> Result<bool, Memory> {
    let mut machine = machine_of(alloc, small_plan(alloc)?)?;
    let last = go_row(alloc, &mut machine, row.0, row.1, row.2);
    drop(machine);
    match last {
        Err(refused) => Err(refused),
        Ok(last) => Ok(last == verdict_of(row.3)),
    }
}

/// Each row makes the accesses that it says.
fn make_their_accesses(rt: &impl Abort, alloc: Global) -> Result<(), Memory> {
    for k in 0..ACCESSES.len() {
        let is = is_told(alloc, &ACCESSES[k])?;
        assert!(rt; is, "row {k}");
    }
    Ok(())
}

#[test]
fn copies_hand_on_what_they_see(rt: HostRuntime) -> Result<(), Fail> {
    leave_their_numbers(&rt, rt.alloc(), &COPIES)?;
    Ok(())
}

#[test]
fn copies_go_through_images(rt: HostRuntime) -> Result<(), Fail> {
    leave_their_numbers(&rt, rt.alloc(), &IMAGE_COPIES)?;
    Ok(())
}

#[test]
fn registers_stand_for_their_views(rt: HostRuntime) -> Result<(), Fail> {
    leave_their_numbers(&rt, rt.alloc(), &REGISTERS)?;
    Ok(())
}

#[test]
fn a_word_counts_invocations(rt: HostRuntime) -> Result<(), Fail> {
    leave_their_numbers(&rt, rt.alloc(), &COUNTS)?;
    Ok(())
}

#[test]
fn no_access_is_made_of_no_words_or_past_an_end(rt: HostRuntime) -> Result<(), Fail> {
    make_their_accesses(&rt, rt.alloc())?;
    Ok(())
}
