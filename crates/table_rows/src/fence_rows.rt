//! Waits on fences that rise, fall and are signalled by two queues.

ghost use Rattle.std.specs.Prelude.{◌≡◌, ◌<◌, length, IfOk};
ghost use Rattle.fence_timeline.specs.Waits.{IsIn};
ghost use Rattle.table_rows.specs.WaitedFences.{IsWaitedFor, AreWaitedFor};

use dx_base::{FenceId, Memory};
use fence_timeline::{Fence, Target, Wait};
use std::alloc::Global;
use std::process::Abort;
use std::test::Fail;

/// What happens to a fence.
#[derive(Clone, Copy, Debug)]
enum Turn {
    /// A value that a queue gives it, at a value of its timeline.
    Signal(u64, u32, u64),
    /// A value that the host gives it.
    Host(u64),
    /// The timelines of two queues stand at these values.
    Catch(u64, u64),
}

/// What the fence tells then: the wait's target, whether it is met, and the fence's value.
type Told = (Option<Target>, bool, u64);

const FIRST: Option<Target> = Some(Target::Gpu { queue: 0, value: 1 });

const SECOND: Option<Target> = Some(Target::Gpu { queue: 1, value: 1 });

const BY_HOST: Option<Target> = Some(Target::Host);

/// A wait for 5, called before its signal, stays met where the fence goes back.
const GOES_BACK: [(Turn, Told); 5] = [
    (Turn::Signal(5, 0, 1), (FIRST, false, 0)),
    (Turn::Signal(2, 0, 2), (FIRST, false, 0)),
    (Turn::Catch(0, 9), (FIRST, false, 0)),
    (Turn::Catch(1, 0), (FIRST, true, 5)),
    (Turn::Catch(2, 0), (FIRST, true, 2)),
];

/// A wait for 5 on signals of two queues, of which the later comes first, and then on a host signal.
const TWO_QUEUES: [(Turn, Told); 6] = [
    (Turn::Signal(4, 0, 1), (None, false, 0)),
    (Turn::Signal(6, 1, 1), (SECOND, false, 0)),
    (Turn::Catch(0, 1), (SECOND, false, 0)),
    (Turn::Host(7), (BY_HOST, true, 7)),
    (Turn::Catch(1, 1), (BY_HOST, true, 6)),
    (Turn::Host(0), (BY_HOST, true, 0)),
];

/// A wait for 5 where values rise to it.
const RISES: [(Turn, Told); 4] = [
    (Turn::Host(3), (None, false, 3)),
    (Turn::Host(4), (None, false, 4)),
    (Turn::Host(5), (BY_HOST, true, 5)),
    (Turn::Host(6), (BY_HOST, true, 6)),
];

/// A wait for 5 that is armed too late: the fence was at 5, and stands at 2.
const TOO_LATE: [(Turn, Told); 5] = [
    (Turn::Catch(0, 0), (None, false, 2)),
    (Turn::Host(4), (None, false, 4)),
    (Turn::Signal(5, 0, 1), (FIRST, false, 4)),
    (Turn::Catch(1, 0), (FIRST, true, 5)),
    (Turn::Host(1), (FIRST, true, 1)),
];

fn signal(fence: &mut Fence, wait: &Wait, value: u64, queue: u32, at: u64) -> Result<(), Memory>
    requires waited { IsWaitedFor fence.old wait.now }
    requires low { queue < 2 }
    ensures { IsWaitedFor fence.new wait.now }
{
    fence.reserve()?;
    fence.gpu_signal(value, queue, at);
    Ok(())
}

fn signal_by_host(fence: &mut Fence, wait: &Wait, value: u64) -> Result<(), Memory>
    requires { IsWaitedFor fence.old wait.now }
    ensures { IsWaitedFor fence.new wait.now }
{
    fence.host_signal(value)?;
    Ok(())
}

fn catch(fence: &mut Fence, wait: &Wait, counters: &[u64])
    requires waited { IsWaitedFor fence.old wait.now }
    requires two { length counters.now ≡ 2 }
    ensures { IsWaitedFor fence.new wait.now }
{
    fence.catch_up(counters);
}

fn take(fence: &mut Fence, wait: &Wait, turn: Turn) -> Result<(), Memory>
    requires { IsWaitedFor fence.old wait.now }
    ensures { IsWaitedFor fence.new wait.now }
{
    match turn {
        Turn::Signal(value, queue, at) => {
            if queue < 2 {
                return signal(fence, wait, value, queue, at);
            }
            Ok(())
        }
        Turn::Host(value) => signal_by_host(fence, wait, value),
        Turn::Catch(first, second) => {
            let counters = [first, second];
            catch(fence, wait, &counters);
            Ok(())
        }
    }
}

fn tells(fence: &Fence, wait: &Wait, told: Told) -> bool
    requires { IsWaitedFor fence.now wait.now }
{
    fence.resolve(wait) == told.0 && fence.met(wait) == told.1 && fence.value() == told.2
}

fn play(
    rt: &impl Abort,
    fence: &mut Fence,
    wait: &Wait,
    rows: &[(Turn, Told)],
) -> Result<(), Memory>
    requires { IsWaitedFor fence.old wait.now }
{
    for row in rows {
        take(fence, wait, row.0)?;
        assert!(rt; tells(fence, wait, row.1));
    }
    Ok(())
}

/// A fence at 0 with a wait for 5.
fn waiting(alloc: Global) -> Result<(Fence, Wait), Memory>
    ensures { IfOk result (λ both. IsWaitedFor both.0 both.1) }
{
    let mut fence = Fence::new(alloc, FenceId(0), 0)?;
    let wait = fence.arm(5)?;
    Ok((fence, wait))
}

fn played(rt: &impl Abort, alloc: Global, rows: &[(Turn, Told)]) -> Result<(), Memory> {
    let (mut fence, wait) = waiting(alloc)?;
    let played = play(rt, &mut fence, &wait, rows);
    drop(fence);
    played
}

/// A fence that was at 5 and stands at 2, with a wait for 5.
fn waiting_late(alloc: Global) -> Result<(Fence, Wait), Memory>
    ensures { IfOk result (λ both. IsWaitedFor both.0 both.1) }
{
    let mut fence = Fence::new(alloc, FenceId(0), 5)?;
    fence.host_signal(2)?;
    let wait = fence.arm(5)?;
    Ok((fence, wait))
}

fn played_late(rt: &impl Abort, alloc: Global) -> Result<(), Memory> {
    let (mut fence, wait) = waiting_late(alloc)?;
    let played = play(rt, &mut fence, &wait, &TOO_LATE);
    drop(fence);
    played
}

/// A fence at 0 with a wait for 3, and then one for 5.
fn waiting_twice(alloc: Global) -> Result<(Fence, Wait, Wait), Memory>
    ensures { IfOk result (λ all. AreWaitedFor all.0 all.1 all.2) }
{
    let mut fence = Fence::new(alloc, FenceId(0), 0)?;
    let first = fence.arm(3)?;
    let second = fence.arm(5)?;
    Ok((fence, first, second))
}

fn signal_to_two(fence: &mut Fence, first: &Wait, second: &Wait, value: u64) -> Result<(), Memory>
    requires { AreWaitedFor fence.old first.now second.now }
    ensures { AreWaitedFor fence.new first.now second.now }
{
    fence.host_signal(value)?;
    Ok(())
}

/// Whether the waits are met.
fn are_met(fence: &Fence, first: &Wait, second: &Wait) -> (bool, bool)
    requires { AreWaitedFor fence.now first.now second.now }
{
    (fence.met(first), fence.met(second))
}

fn let_go_of(fence: &mut Fence, first: Wait, second: &Wait)
    requires { AreWaitedFor fence.old first second.now }
    ensures { IsIn fence.new.armed second.now }
{
    fence.done(first);
}

/// The wait for 3 is met by 4 and let go of: that for 5 is met by 6 before, and after.
fn one_ends(rt: &impl Abort, fence: &mut Fence, first: &Wait, second: &Wait) -> Result<(), Memory>
    requires { AreWaitedFor fence.old first.now second.now }
{
    signal_to_two(fence, first, second, 4)?;
    assert!(rt; are_met(fence, first, second) == (true, false));
    signal_to_two(fence, first, second, 6)?;
    signal_to_two(fence, first, second, 1)?;
    assert!(rt; are_met(fence, first, second) == (true, true));
    let_go_of(fence, *first, second);
    assert!(rt; fence.met(second));
    assert!(rt; fence.resolve(second) == BY_HOST);
    assert!(rt; fence.value() == 1);
    fence.done(*second);
    assert!(rt; fence.value() == 1);
    Ok(())
}

fn ended(rt: &impl Abort, alloc: Global) -> Result<(), Memory> {
    let (mut fence, first, second) = waiting_twice(alloc)?;
    let ended = one_ends(rt, &mut fence, &first, &second);
    drop(fence);
    ended
}

fn of_others(rt: &impl Abort, fence: &mut Fence) -> Result<(), Memory> {
    assert!(rt; fence.other_pending(0).is_none());
    fence.reserve()?;
    fence.gpu_signal(1, 0, 3);
    fence.reserve()?;
    fence.gpu_signal(2, 1, 4);
    fence.reserve()?;
    fence.gpu_signal(3, 1, 5);
    assert!(rt; fence.other_pending(0) == Some((1, 5)));
    assert!(rt; fence.other_pending(1) == Some((0, 3)));
    assert!(rt; fence.other_pending(2) == Some((1, 5)));
    Ok(())
}

fn other_queues(rt: &impl Abort, alloc: Global) -> Result<(), Memory> {
    let mut fence = Fence::new(alloc, FenceId(0), 0)?;
    let told = of_others(rt, &mut fence);
    drop(fence);
    told
}

#[test]
fn a_wait_stays_met_where_the_fence_goes_back(rt: HostRuntime) -> Result<(), Fail> {
    played(&rt, rt.alloc(), &GOES_BACK)?;
    Ok(())
}

#[test]
fn a_later_signal_waits_for_an_earlier_one(rt: HostRuntime) -> Result<(), Fail> {
    played(&rt, rt.alloc(), &TWO_QUEUES)?;
    Ok(())
}

#[test]
fn a_wait_is_met_by_the_value_that_it_waits_for(rt: HostRuntime) -> Result<(), Fail> {
    played(&rt, rt.alloc(), &RISES)?;
    Ok(())
}

#[test]
fn a_wait_armed_too_late_is_met_by_a_later_update(rt: HostRuntime) -> Result<(), Fail> {
    played_late(&rt, rt.alloc())?;
    Ok(())
}

#[test]
fn letting_go_of_a_wait_leaves_the_other(rt: HostRuntime) -> Result<(), Fail> {
    ended(&rt, rt.alloc())?;
    Ok(())
}

#[test]
fn the_last_signal_of_another_queue_is_told(rt: HostRuntime) -> Result<(), Fail> {
    other_queues(&rt, rt.alloc())?;
    Ok(())
}
