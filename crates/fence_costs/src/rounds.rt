//! Rounds of one signal and one wait on a fence.

ghost use Rattle.std.specs.Prelude.{◌≡◌, length, OnOk};
ghost use Rattle.fence_costs.specs.Rounds.{IsOfOneQueue, GoesOn};

use dx_base::Memory;
use fence_timeline::Fence;

/// A signal that is pending on the queue until that reaches `at`.
fn submit(fence: &mut Fence, value: u64, at: u64) -> Result<(), Memory>
    requires { IsOfOneQueue fence.old }
    ensures { GoesOn fence.old fence.new }
{
    fence.reserve()?;
    fence.gpu_signal(value, 0, at);
    Ok(())
}

/// The queue reaches a value.
fn catch(fence: &mut Fence, counters: &[u64])
    requires queue { IsOfOneQueue fence.old }
    requires one { length counters.now ≡ 1 }
    ensures { GoesOn fence.old fence.new }
{
    fence.catch_up(counters);
}

fn signal_by_queue(fence: &mut Fence, value: u64, at: u64) -> Result<(), Memory>
    requires { IsOfOneQueue fence.old }
    ensures { GoesOn fence.old fence.new }
{
    submit(fence, value, at)?;
    let counters = [at];
    catch(fence, &counters);
    Ok(())
}

fn signal_by_host(fence: &mut Fence, value: u64) -> Result<(), Memory>
    requires { IsOfOneQueue fence.old }
    ensures { GoesOn fence.old fence.new }
{
    fence.host_signal(value)?;
    Ok(())
}

/// A signal: in a round of odd number by the queue, and else by the host.
fn signal(fence: &mut Fence, value: u64, round: u64) -> Result<(), Memory>
    requires { IsOfOneQueue fence.old }
    ensures { GoesOn fence.old fence.new }
{
    if round % 2 == 1 {
        return signal_by_queue(fence, value, round);
    }
    signal_by_host(fence, value)
}

/// Whether a wait that is armed now is met; it is let go of.
fn is_reached(fence: &mut Fence, value: u64) -> Result<bool, Memory>
    requires { IsOfOneQueue fence.old }
    ensures { GoesOn fence.old fence.new }
{
    let wait = fence.arm(value)?;
    let met = fence.met(&wait);
    fence.done(wait);
    Ok(met)
}

/// A signal of a value, and then a wait for it: whether that is met.
pub(crate) fn signal_and_wait(fence: &mut Fence, value: u64, round: u64) -> Result<bool, Memory>
    requires { IsOfOneQueue fence.old }
    ensures { GoesOn fence.old fence.new }
{
    signal(fence, value, round)?;
    is_reached(fence, value)
}

/// A wait for a value, and then a signal of it: whether the wait is met.
pub(crate) fn wait_and_signal(fence: &mut Fence, value: u64, round: u64) -> Result<bool, Memory>
    requires { IsOfOneQueue fence.old }
    ensures { OnOk result (GoesOn fence.old fence.new) }
{
    let wait = fence.arm(value)?;
    signal(fence, value, round)?;
    let met = fence.met(&wait);
    fence.done(wait);
    Ok(met)
}
