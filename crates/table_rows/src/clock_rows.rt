//! Clocks on their happy paths.

ghost use Rattle.std.specs.Prelude.{◌≡◌, [], ◌∷◌, IfOk};

use clocks::Clock;
use dx_base::Memory;
use std::alloc::Global;
use std::process::Abort;
use std::test::Fail;

/// Asks each question of a clock on its own numbers, on those above, and past the ends.
fn knows_as_told(rt: &impl Abort, clock: &Clock) {
    assert!(rt; clock.knows_op(0, 3));
    assert!(rt; !clock.knows_op(0, 4));
    assert!(rt; clock.knows_op(1, 1));
    assert!(rt; !clock.knows_op(1, 2));
    assert!(rt; clock.knows_call(0, 2));
    assert!(rt; !clock.knows_call(0, 3));
    assert!(rt; clock.knows_op(7, 0));
    assert!(rt; !clock.knows_op(7, 1));
    assert!(rt; !clock.knows_call(1, 1));
}

/// The clock of a thread's second call, which knows the first operation of queue 1.
fn of_thread(alloc: Global) -> Result<Clock, Memory>
    ensures { IfOk result (λ clock. clock ≡ record { queues = 0 ∷ 1 ∷ []; threads = 2 ∷ [] }) }
{
    let mut clock = Clock::new(alloc, 2, 1)?;
    clock.set_call(0, 2);
    clock.set_op(1, 1);
    Ok(clock)
}

/// A copy that knows three operations of queue 0 and none of queue 1, joined with the first clock again.
fn joined(alloc: Global, first: &Clock) -> Result<Clock, Memory>
    requires { first.now ≡ record { queues = 0 ∷ 1 ∷ []; threads = 2 ∷ [] } }
{
    let mut clock = first.copied(alloc)?;
    clock.set_op(0, 3);
    clock.set_op(1, 0);
    clock.join(first);
    Ok(clock)
}

fn asks_both(rt: &impl Abort, alloc: Global, first: &Clock) -> Result<(), Memory>
    requires { first.now ≡ record { queues = 0 ∷ 1 ∷ []; threads = 2 ∷ [] } }
{
    let clock = joined(alloc, first)?;
    knows_as_told(rt, &clock);
    assert!(rt; !first.knows_op(0, 1));
    drop(clock);
    Ok(())
}

fn asks(rt: &impl Abort, alloc: Global) -> Result<(), Memory> {
    let first = of_thread(alloc)?;
    let asked = asks_both(rt, alloc, &first);
    drop(first);
    asked
}

#[test]
fn a_joined_clock_knows_what_both_know(rt: HostRuntime) -> Result<(), Fail> {
    asks(&rt, rt.alloc())?;
    Ok(())
}
