//! V10.

use super::{
    ALL, ALL_COMMANDS, COPY, EVERY_WRITE, LEADING, Row, TRAILING, Turn, WROTE, break_their_rules,
};
use std::test::Fail;
use vk_sync_rules::VkRule;
use vk_types::VkCommand;

/// Reads of what a copy wrote.
const READS: [Row; 6] = [
    (
        &[],
        &[LEADING, COPY, TRAILING],
        &[Turn::Read(1, 0, 4)],
        Some(VkRule::V10),
    ),
    (
        &[],
        &[LEADING, COPY, TRAILING],
        &[Turn::Bump(0, 0), Turn::Read(1, 0, 4)],
        None,
    ),
    (
        &[],
        &[LEADING, COPY],
        &[Turn::Bump(0, 0), Turn::Read(1, 0, 4)],
        Some(VkRule::V10),
    ),
    // the barrier shows it to no host
    (
        &[],
        &[COPY, barrier!(ALL_COMMANDS, EVERY_WRITE, ALL_COMMANDS, ALL)],
        &[Turn::Bump(0, 0), Turn::Read(1, 0, 1)],
        Some(VkRule::V10),
    ),
    // what a later batch shows is seen once that one has ended
    (
        &[],
        &[COPY],
        &[
            Turn::Bump(0, 0),
            Turn::Submit(0, 1, &[], &[TRAILING], &[]),
            Turn::Pass(0, 1),
            Turn::Run(0, 1, 1, &[]),
            Turn::Read(1, 0, 1),
        ],
        Some(VkRule::V10),
    ),
    (
        &[],
        &[COPY],
        &[
            Turn::Bump(0, 0),
            Turn::Submit(0, 1, &[], &[TRAILING], &[]),
            Turn::Pass(0, 1),
            Turn::Run(0, 1, 1, &[]),
            Turn::Bump(0, 1),
            Turn::Read(1, 0, 1),
        ],
        None,
    ),
];

/// Reads of what no command wrote.
const OTHER_READS: [Row; 4] = [
    (&[], &[copy!(1, 0, 0, 0, 2)], &[Turn::Read(1, 2, 2)], None),
    (&[WROTE, Turn::Read(0, 0, 1)], &[], &[], None),
    (&[], &[COPY], &[Turn::Read(0, 0, 1)], None),
    (&[], &[COPY], &[Turn::Read(1, 2, 0)], None),
];

#[test]
fn the_host_reads_what_an_ended_batch_shows(rt: HostRuntime) -> Result<(), Fail> {
    break_their_rules(&rt, rt.alloc(), &READS)?;
    Ok(())
}

#[test]
fn the_host_reads_its_own_words_and_those_not_written(rt: HostRuntime) -> Result<(), Fail> {
    break_their_rules(&rt, rt.alloc(), &OTHER_READS)?;
    Ok(())
}
