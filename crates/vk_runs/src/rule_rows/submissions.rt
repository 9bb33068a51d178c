//! V4, V5 and V9.

use super::{Row, Turn, break_their_rules};
use std::test::Fail;
use vk_sync_rules::VkRule;

/// V4.
const VALUES: [Row; 4] = [
    (
        &[Turn::Submit(0, 0, &[], &[], &[(0, 0)])],
        &[],
        &[],
        Some(VkRule::V4),
    ),
    (&[Turn::Submit(0, 0, &[], &[], &[(0, 1)])], &[], &[], None),
    // pending values count
    (
        &[
            Turn::Submit(0, 0, &[], &[], &[(0, 5)]),
            Turn::Submit(0, 1, &[], &[], &[(0, 5)]),
        ],
        &[],
        &[],
        Some(VkRule::V4),
    ),
    (
        &[
            Turn::Submit(0, 0, &[], &[], &[(0, 5)]),
            Turn::Submit(0, 1, &[], &[], &[(0, 6)]),
        ],
        &[],
        &[],
        None,
    ),
];

/// V5.
const DIFFERENCES: [Row; 5] = [
    (
        &[Turn::Submit(0, 0, &[], &[], &[(0, 2147483648)])],
        &[],
        &[],
        Some(VkRule::V5),
    ),
    (
        &[Turn::Submit(0, 0, &[], &[], &[(0, 2147483647)])],
        &[],
        &[],
        None,
    ),
    (
        &[Turn::Submit(0, 0, &[(0, 2147483648)], &[], &[])],
        &[],
        &[],
        Some(VkRule::V5),
    ),
    // a wait that is pending keeps later values near to its own
    (
        &[
            Turn::Submit(1, 1, &[(0, 1)], &[], &[]),
            Turn::Submit(0, 0, &[], &[], &[(0, 5)]),
            Turn::Pass(0, 0),
            Turn::Bump(0, 0),
            Turn::Submit(0, 1, &[], &[], &[(0, 2147483649)]),
        ],
        &[],
        &[],
        Some(VkRule::V5),
    ),
    (
        &[
            Turn::Submit(1, 1, &[(0, 1)], &[], &[]),
            Turn::Submit(0, 0, &[], &[], &[(0, 5)]),
            Turn::Pass(0, 0),
            Turn::Bump(0, 0),
            Turn::Pass(1, 1),
            Turn::Submit(0, 1, &[], &[], &[(0, 2147483649)]),
        ],
        &[],
        &[],
        None,
    ),
];

/// V9.
const NUMBERS: [Row; 4] = [
    (
        &[Turn::Submit(0, 1, &[], &[], &[])],
        &[],
        &[],
        Some(VkRule::V9),
    ),
    (
        &[Turn::Submit(1, 0, &[], &[], &[])],
        &[],
        &[],
        Some(VkRule::V9),
    ),
    (
        &[
            Turn::Submit(0, 0, &[], &[], &[]),
            Turn::Submit(1, 1, &[], &[], &[]),
            Turn::Submit(0, 1, &[], &[], &[]),
        ],
        &[],
        &[],
        None,
    ),
    (
        &[
            Turn::Submit(0, 0, &[], &[], &[]),
            Turn::Submit(0, 2, &[], &[], &[]),
        ],
        &[],
        &[],
        Some(VkRule::V9),
    ),
];

#[test]
fn values_rise_above_those_still_to_be_set(rt: HostRuntime) -> Result<(), Fail> {
    break_their_rules(&rt, rt.alloc(), &VALUES)?;
    Ok(())
}

#[test]
fn values_are_near_to_those_still_pending(rt: HostRuntime) -> Result<(), Fail> {
    break_their_rules(&rt, rt.alloc(), &DIFFERENCES)?;
    Ok(())
}

#[test]
fn the_numbers_of_a_queue_follow_one_another(rt: HostRuntime) -> Result<(), Fail> {
    break_their_rules(&rt, rt.alloc(), &NUMBERS)?;
    Ok(())
}
