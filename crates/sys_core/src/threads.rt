//! Steps of threads.

ghost use Rattle.std.specs.Prelude.{◌≡◌, ◌<◌, ◌≤◌, ◌++◌, ◌∷◌, [], map, length, true, slice_get, slice_index_or, Some, None, IfOk, OnOk, OnErr, IsSome};
ghost use Rattle.dx_base.specs.Lists.{changed_at};
ghost use Rattle.d3d_machine.specs.State.{script_of};
ghost use Rattle.std.specs.Prelude.{◌+◌, ◌^◌};
ghost use Rattle.sys_core.specs.declared.parts.Seat.{Seat};
ghost use Rattle.sys_core.specs.Parts.{updates_in, seat_after, woken_seat};
ghost use Rattle.sys_core.specs.Steps.{is_ready_thread};
ghost use Rattle.sys_core.specs.ThreadSteps.{IsThreadStep};
ghost use Rattle.sys_core.specs.Answered.{HasAnswered};
ghost use Rattle.sys_core.specs.Keeps.{Keeps, ready_by};
ghost use Rattle.sys_core.specs.WaitSearches.{AreSearched};

use crate::faults::SysFault;
use crate::fences::is_met_by;
use crate::parts::{Parts, Seat, armed_by};
use crate::serve::serve;
use d3d_machine::{Call, Event, World};
use dx_base::{Room, Seq, ThreadId};
use std::alloc::Global;
use vk_port::VkDevice;

/// Whether a thread can go on: it has a call left and does not wait, or its wait is met.
#[tactic(auto, using(crate::proofs::WaitSearches::met_where_sought))]
pub(crate) fn is_ready(world: &World, parts: &Parts, thread: usize) -> bool
    requires seats { thread < length parts.now.seats }
    requires scripts { thread < length world.now.scripts }
    requires searched { AreSearched (map updates_in parts.now.fences) parts.now.seats }
    ensures { (seat : Seat) → slice_get parts.now.seats thread ≡ Some seat → result ≡ ready_by (script_of world.now thread) (map updates_in parts.now.fences) seat }
{
    let seat = *parts.seats.at(thread);
    match seat.waits {
        None => seat.made < world.scripts.at(thread).len(),
        Some(armed) => is_met_by(&parts.fences, armed),
    }
}

/// Counts a call of a thread at that place, and lets the thread wait where the call begins a wait.
#[tactic(auto, using(crate::proofs::Threading::seat_written))]
fn seat_call(seats: &mut Seq<Seat>, fences: &Seq<Room<u64>>, thread: usize, seat: Seat, call: &Call)
    requires seat { slice_get seats.old thread ≡ Some seat }
    requires thread { thread < length seats.old }
    requires small { seat.made + 1 < 2 ^ 64 }
    ensures { seats.new ≡ changed_at (seat_after (map updates_in fences.now) call.now) thread seats.old }
{
    let waits = armed_by(fences, call, seat.waits);
    *seats.at_mut(thread) = Seat {
        made: seat.made + 1,
        waits,
    };
}

/// Lets a thread go on behind its wait.
#[tactic(auto, using(dx_base::proofs::Lists::write_is_changed))]
fn wake(seats: &mut Seq<Seat>, thread: usize)
    requires { thread < length seats.old }
    ensures { seats.new ≡ changed_at woken_seat thread seats.old }
{
    seats.at_mut(thread).waits = None;
}

/// A thread's step: it wakes where it waits, and otherwise makes its next call. Refused, all stays but room.
pub(crate) fn thread_step<D: VkDevice>(
    alloc: Global,
    world: &World,
    history: &mut Room<Event>,
    parts: &mut Parts,
    device: &mut D,
    thread: ThreadId,
) -> Result<(), SysFault>
    requires keeps { Keeps world.now history.old.items parts.old (D.view_of device.old) }
    requires ready { is_ready_thread world.now history.old.items thread.0 ≡ true }
    ensures keeps { Keeps world.now history.new.items parts.new (D.view_of device.new) }
    ensures step { OnOk result (IsThreadStep world.now history.old.items history.new.items (D.view_of device.old).state (D.view_of device.new).state thread.0) }
    ensures same { OnErr result (history.new.items ≡ history.old.items) }
    ensures rest { (D.view_of device.new).rest ≡ (D.view_of device.old).rest }
    ensures answered { HasAnswered (D.view_of device.old) (D.view_of device.new) result }
{
    history.reserve()?;
    let at = thread.0 as usize;
    let seat = *parts.seats.at(at);
    match seat.waits {
        Some(_) => {
            wake(&mut parts.seats, at);
            history.push_reserved(Event::Awake(thread));
            Ok(())
        }
        None => {
            let script = world.scripts.at(at);
            let _count = script.len();
            let call = script.at(seat.made).copied(alloc)?;
            let reply = serve(alloc, world, parts, device, &call)?;
            seat_call(&mut parts.seats, &parts.fences, at, seat, &call);
            history.push_reserved(Event::Call {
                thread,
                call,
                reply,
            });
            Ok(())
        }
    }
}
