//! V1 between the host and queues, and between queues.

use super::{COPY, Row, Turn, WROTE, break_their_rules};
use std::test::Fail;
use vk_sync_rules::VkRule;
use vk_types::VkCommand;

/// Writes of the host, and a copy.
const HOST_WRITES: [Row; 6] = [
    (&[WROTE], &[COPY], &[], None),
    // a submission shows no write that is made after it
    (
        &[
            Turn::Submit(0, 0, &[], &[COPY], &[]),
            WROTE,
            Turn::Pass(0, 0),
            Turn::Run(0, 0, 1, &[]),
        ],
        &[],
        &[],
        Some(VkRule::V1),
    ),
    (&[], &[COPY], &[WROTE], Some(VkRule::V1)),
    (&[], &[COPY], &[Turn::Bump(0, 0), WROTE], None),
    // no words
    (&[], &[COPY], &[Turn::Write(0, 2, &[])], None),
    (&[], &[COPY, copy!(0, 0, 1, 2, 0)], &[], None),
];

/// A copy in a batch of one queue, and in a batch of another queue with these waits.
const WAITS: [Row; 2] = [
    (
        &[],
        &[COPY],
        &[
            Turn::Bump(0, 0),
            Turn::Submit(1, 1, &[], &[COPY], &[]),
            Turn::Pass(1, 1),
            Turn::Run(1, 1, 1, &[]),
        ],
        Some(VkRule::V1),
    ),
    (
        &[],
        &[COPY],
        &[
            Turn::Bump(0, 0),
            Turn::Submit(1, 1, &[(0, 1)], &[COPY], &[]),
            Turn::Pass(1, 1),
            Turn::Run(1, 1, 1, &[]),
        ],
        None,
    ),
];

/// A batch that sets 1 and one with a copy that sets 2 have ended, as far as a wait covers them.
const VALUES: [Row; 3] = [
    // a wait does not cover a value above its own
    (
        &[
            Turn::Submit(0, 0, &[], &[], &[(0, 1)]),
            Turn::Pass(0, 0),
            Turn::Submit(0, 1, &[], &[COPY], &[(0, 2)]),
            Turn::Bump(0, 0),
            Turn::Pass(0, 1),
            Turn::Run(0, 1, 1, &[]),
            Turn::Bump(0, 1),
            Turn::Submit(1, 1, &[(0, 1)], &[COPY], &[]),
            Turn::Pass(1, 1),
            Turn::Run(1, 1, 1, &[]),
        ],
        &[],
        &[],
        Some(VkRule::V1),
    ),
    (
        &[
            Turn::Submit(0, 0, &[], &[], &[(0, 1)]),
            Turn::Pass(0, 0),
            Turn::Submit(0, 1, &[], &[COPY], &[(0, 2)]),
            Turn::Bump(0, 0),
            Turn::Pass(0, 1),
            Turn::Run(0, 1, 1, &[]),
            Turn::Bump(0, 1),
            Turn::Submit(1, 1, &[(0, 2)], &[COPY], &[]),
            Turn::Pass(1, 1),
            Turn::Run(1, 1, 1, &[]),
        ],
        &[],
        &[],
        None,
    ),
    // an end does not signal what the next batch did
    (
        &[
            Turn::Submit(0, 0, &[], &[], &[(0, 1)]),
            Turn::Pass(0, 0),
            Turn::Submit(0, 1, &[], &[COPY], &[(0, 2)]),
            Turn::Pass(0, 1),
            Turn::Run(0, 1, 1, &[]),
            Turn::Bump(0, 0),
            Turn::Submit(1, 1, &[(0, 1)], &[COPY], &[]),
            Turn::Pass(1, 1),
            Turn::Run(1, 1, 1, &[]),
        ],
        &[],
        &[],
        Some(VkRule::V1),
    ),
];

#[test]
fn submissions_and_ends_order_writes_of_the_host(rt: HostRuntime) -> Result<(), Fail> {
    break_their_rules(&rt, rt.alloc(), &HOST_WRITES)?;
    Ok(())
}

#[test]
fn a_wait_orders_two_queues(rt: HostRuntime) -> Result<(), Fail> {
    break_their_rules(&rt, rt.alloc(), &WAITS)?;
    Ok(())
}

#[test]
fn a_wait_covers_what_its_value_signals(rt: HostRuntime) -> Result<(), Fail> {
    break_their_rules(&rt, rt.alloc(), &VALUES)?;
    Ok(())
}
