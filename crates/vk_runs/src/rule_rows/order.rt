//! V1 on one queue.

use super::{
    ALL, ALL_COMMANDS, BETWEEN, COMPUTE, COPY, COPY_READ, COPY_WRITE, COPYING, EVERY_WRITE, NONE,
    Row, STORAGE_WRITE, TO_GENERAL, Turn, break_their_rules, break_their_rules_wide,
};
use dx_base::Routine;
use std::test::Fail;
use vk_sync_rules::VkRule;
use vk_types::{Change, Count, Register, VkCommand, VkLayout};

/// A write behind a write.
const WRITES: [Row; 6] = [
    (&[], &[COPY, COPY], &[], Some(VkRule::V1)),
    (&[], &[COPY, BETWEEN, COPY], &[], None),
    // the barrier is of another stage
    (
        &[],
        &[
            COPY,
            barrier!(COMPUTE, STORAGE_WRITE, COPYING, COPY_WRITE),
            COPY,
        ],
        &[],
        Some(VkRule::V1),
    ),
    // it does not make the write available
    (
        &[],
        &[
            COPY,
            barrier!(COPYING, COPY_READ, COPYING, COPY_WRITE),
            COPY,
        ],
        &[],
        Some(VkRule::V1),
    ),
    // it does not show it, which a write does not ask for
    (
        &[],
        &[COPY, barrier!(COPYING, COPY_WRITE, COPYING, NONE), COPY],
        &[],
        None,
    ),
    // a barrier takes no command behind it
    (
        &[
            Turn::Submit(0, 0, &[], &[COPY, COPY, BETWEEN], &[]),
            Turn::Pass(0, 0),
            Turn::Run(0, 0, 1, &[]),
            Turn::Run(0, 0, 2, &[]),
        ],
        &[],
        &[],
        Some(VkRule::V1),
    ),
];

/// Reads and writes.
const READS: [Row; 4] = [
    (
        &[],
        &[COPY, BETWEEN, copy!(0, 0, 1, 0, 4)],
        &[],
        Some(VkRule::V1),
    ),
    (
        &[],
        &[
            COPY,
            barrier!(COPYING, COPY_WRITE, COPYING, COPY_READ),
            copy!(0, 0, 1, 0, 4),
        ],
        &[],
        None,
    ),
    // a write behind a read asks for order alone
    (
        &[],
        &[copy!(1, 0, 0, 0, 2), copy!(0, 0, 1, 2, 2)],
        &[],
        Some(VkRule::V1),
    ),
    (
        &[],
        &[
            copy!(1, 0, 0, 0, 2),
            barrier!(COPYING, NONE, COPYING, NONE),
            copy!(0, 0, 1, 2, 2),
        ],
        &[],
        None,
    ),
];

/// A clear of buffer 1, a barrier of its stage, a barrier from a stage to copies, and a copy of buffer 1.
const CHAINS: [Row; 2] = [
    (
        &[],
        &[
            clear!(Register::Fixed(3), 7),
            barrier!(COMPUTE, STORAGE_WRITE, COMPUTE, NONE),
            barrier!(COMPUTE, NONE, COPYING, COPY_READ),
            copy!(0, 0, 1, 0, 4),
        ],
        &[],
        None,
    ),
    (
        &[],
        &[
            clear!(Register::Fixed(3), 7),
            barrier!(COMPUTE, STORAGE_WRITE, COMPUTE, NONE),
            barrier!(COPYING, NONE, COPYING, COPY_READ),
            copy!(0, 0, 1, 0, 4),
        ],
        &[],
        Some(VkRule::V1),
    ),
];

/// One command that touches a word twice.
const TWICE: [Row; 5] = [
    (&[], &[copy!(0, 1, 0, 0, 2)], &[], Some(VkRule::V1)),
    (&[], &[copy!(0, 2, 0, 0, 2)], &[], None),
    (
        &[],
        &[dispatch!(
            Move,
            Count::Number(2),
            Register::Fixed(0),
            Register::Fixed(1),
            Register::Unbound
        )],
        &[],
        Some(VkRule::V1),
    ),
    (
        &[],
        &[dispatch!(
            Move,
            Count::Number(2),
            Register::Fixed(0),
            Register::Fixed(2),
            Register::Unbound
        )],
        &[],
        None,
    ),
    // the words that overlap are not used
    (
        &[],
        &[dispatch!(
            Move,
            Count::Number(1),
            Register::Fixed(0),
            Register::Fixed(1),
            Register::Unbound
        )],
        &[],
        None,
    ),
];

/// Rows of copies, on the wide plan.
const ROWS: [Row; 3] = [
    (
        &[],
        &[TO_GENERAL, copy_out!(0, 0, 1)],
        &[],
        Some(VkRule::V1),
    ),
    (&[], &[TO_GENERAL, copy_out!(0, 0, 2)], &[], None),
    // words that are read twice
    (&[], &[TO_GENERAL, copy_in!(0, 0, 0)], &[], None),
];

/// A layout change: what is in its first scope, and what its own barrier makes available.
const CHANGES: [Row; 3] = [
    (
        &[],
        &[
            TO_GENERAL,
            copy_image!(1, General, 0, General),
            change!(COMPUTE, NONE, General, TransferDstOptimal),
        ],
        &[],
        Some(VkRule::V1),
    ),
    (
        &[],
        &[
            TO_GENERAL,
            copy_image!(1, General, 0, General),
            change!(COPYING, COPY_READ, General, TransferDstOptimal),
        ],
        &[],
        Some(VkRule::V1),
    ),
    (
        &[],
        &[
            TO_GENERAL,
            copy_image!(1, General, 0, General),
            change!(COPYING, COPY_WRITE, General, TransferDstOptimal),
        ],
        &[],
        None,
    ),
];

#[test]
fn writes_come_after_writes_that_are_available(rt: HostRuntime) -> Result<(), Fail> {
    break_their_rules(&rt, rt.alloc(), &WRITES)?;
    Ok(())
}

#[test]
fn reads_see_writes_and_writes_come_after_reads(rt: HostRuntime) -> Result<(), Fail> {
    break_their_rules(&rt, rt.alloc(), &READS)?;
    Ok(())
}

#[test]
fn barriers_are_chained_by_the_stage_between_them(rt: HostRuntime) -> Result<(), Fail> {
    break_their_rules(&rt, rt.alloc(), &CHAINS)?;
    Ok(())
}

#[test]
fn no_command_touches_a_word_twice_where_it_writes(rt: HostRuntime) -> Result<(), Fail> {
    break_their_rules(&rt, rt.alloc(), &TWICE)?;
    break_their_rules_wide(&rt, rt.alloc(), &ROWS)?;
    Ok(())
}

#[test]
fn a_layout_change_comes_after_all_that_was_made(rt: HostRuntime) -> Result<(), Fail> {
    break_their_rules(&rt, rt.alloc(), &CHANGES)?;
    Ok(())
}
