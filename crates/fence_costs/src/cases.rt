//! The three cases: values that rise, values that fall, and one wait that is armed from the start.

ghost use Rattle.std.specs.Prelude.{◌≡◌, IfOk};
ghost use Rattle.fence_timeline.specs.Waits.{IsIn};
ghost use Rattle.fence_costs.specs.Rounds.{IsOfOneQueue};

use crate::rounds::{signal_and_wait, wait_and_signal};
use dx_base::{FenceId, Memory};
use fence_timeline::{Fence, Wait};
use std::alloc::Global;

/// What the rounds do.
#[derive(Clone, Copy, Debug)]
pub(crate) enum Case {
    Rise,
    Fall,
    Early,
}

/// The case of that name, with the count.
pub(crate) fn named(name: &str, count: u32) -> Option<(Case, u32)> {
    if name == "rise" {
        return Some((Case::Rise, count));
    }
    if name == "fall" {
        return Some((Case::Fall, count));
    }
    if name == "early" {
        return Some((Case::Early, count));
    }
    None
}

/// The signals of 1, 2, up to the count, each before a wait for it: how many waits are met.
fn rise(fence: &mut Fence, count: u32) -> Result<u64, Memory>
    requires { IsOfOneQueue fence.old }
{
    let mut met = 0u64;
    for k in 0..count {
        let value = u64::from(k) + 1;
        if signal_and_wait(fence, value, value)? {
            met = met.saturating_add(1);
        }
    }
    Ok(met)
}

/// The signals of the count, and down to 1, each behind a wait for it: how many waits are met.
fn fall(fence: &mut Fence, count: u32) -> Result<u64, Memory>
    requires { IsOfOneQueue fence.old }
{
    let mut met = 0u64;
    for k in 0..count {
        if wait_and_signal(fence, u64::from(count - k), u64::from(k) + 1)? {
            met = met.saturating_add(1);
        }
    }
    Ok(met)
}

/// The signal that a wait is for: whether it is met then.
fn meets(fence: &mut Fence, wait: &Wait) -> Result<bool, Memory>
    requires { IsIn fence.old.armed wait.now }
{
    fence.host_signal(wait.value)?;
    Ok(fence.met(wait))
}

/// The signals of 1, 2, up to the count, each before a wait for it, while another wait is armed, which is asked each
/// time: how many waits are met.
fn rise_beside(fence: &mut Fence, early: &Wait, count: u32) -> Result<u64, Memory>
    requires queue { IsOfOneQueue fence.old }
    requires early { IsIn fence.old.armed early.now }
{
    let mut met = 0u64;
    for k in 0..count {
        let value = u64::from(k) + 1;
        if signal_and_wait(fence, value, value)? {
            met = met.saturating_add(1);
        }
        if fence.met(early) {
            met = met.saturating_add(1);
        }
    }
    if meets(fence, early)? {
        met = met.saturating_add(1);
    }
    Ok(met)
}

/// A wait for one more than the count, which only the last signal meets, beside those of rising values: how many waits
/// are met.
fn early(fence: &mut Fence, count: u32) -> Result<u64, Memory>
    requires { IsOfOneQueue fence.old }
{
    let wait = fence.arm(u64::from(count) + 1)?;
    rise_beside(fence, &wait, count)
}

fn play(fence: &mut Fence, case: Case, count: u32) -> Result<u64, Memory>
    requires { IsOfOneQueue fence.old }
{
    match case {
        Case::Rise => rise(fence, count),
        Case::Fall => fall(fence, count),
        Case::Early => early(fence, count),
    }
}

/// A fence at 0.
fn new_fence(alloc: Global) -> Result<Fence, Memory>
    ensures { IfOk result IsOfOneQueue }
{
    Fence::new(alloc, FenceId(0), 0)
}

/// How many waits are met in a case of so many signals.
pub(crate) fn waits_met(alloc: Global, case: Case, count: u32) -> Result<u64, Memory> {
    let mut fence = new_fence(alloc)?;
    let met = play(&mut fence, case, count);
    drop(fence);
    met
}
