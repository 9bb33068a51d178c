//! What the system keeps beside the device: command lists, places of threads, updates of fences, and
//! operations that are not submitted.

ghost use Rattle.std.specs.Prelude.{◌≡◌, ◌<◌, ◌≤◌, ◌+◌, ◌-◌, ◌++◌, ◌∷◌, [], map, length, slice_get, slice_index_or, Some, None, IfOk, OnOk, OnErr};
ghost use Rattle.dx_base.specs.Lists.{changed_at};
ghost use Rattle.d3d_machine.specs.State.{declared_list};
ghost use Rattle.sys_core.specs.Lowering.{AreNumbers};
ghost use Rattle.sys_core.specs.Parts.{queued, updates_in, with_operation, armed_after, opening_seat, no_queue};

use crate::fences::{last_place, starting_fences};
use crate::lowering::numbers_of;
use d3d_machine::{Call, Lists, Operation, World};
use dx_base::{FenceId, Fifo, ListType, Memory, QueueId, Room, Seq};
use std::alloc::Global;

/// A wait of a thread, with the place, among the fence's updates, of the one that was current at its call, and the place
/// from which on they are still to be looked at: whether one of these suffices says whether the wait is met.
#[derive(Clone, Copy, Debug, PartialEq, Eq)]
pub struct Armed {
    pub fence: FenceId,
    pub value: u64,
    pub since: usize,
    pub seen: usize,
}

/// A thread's place: how many of its calls are answered, and the wait from which it has not woken.
#[derive(Clone, Copy, Debug, PartialEq, Eq)]
pub struct Seat {
    pub made: usize,
    pub waits: Option<Armed>,
}

/// A thread's place before its first call.
const OPENING_SEAT: Seat = Seat {
    made: 0,
    waits: None,
};

/// A signal that is submitted and has not completed: the number of its operation, and what it does.
#[derive(Clone, Copy, Debug, PartialEq, Eq)]
pub struct Signalled {
    pub number: u64,
    pub fence: FenceId,
    pub value: u64,
}

/// A queue: the operations that are called and not submitted, how many are submitted, the number of the
/// last submitted signal (0 for none), and the submitted signals that have not completed.
#[derive(Debug, Drop)]
pub struct Held {
    pub operations: Fifo<Operation>,
    pub submitted: u64,
    pub last_signal: u64,
    pub signals: Fifo<Signalled>,
}

/// All parts. Each fence has the list of its applied updates, its starting value first, and each resource the
/// number that it has on the device.
#[derive(Debug, Drop)]
pub struct Parts {
    pub lists: Lists,
    pub seats: Seq<Seat>,
    pub fences: Seq<Room<u64>>,
    pub held: Seq<Held>,
    pub numbers: Seq<u32>,
}

impl Parts {
    /// The parts of a world before any call.
    pub fn new(alloc: Global, world: &World) -> Result<Parts, Memory>
        requires { length world.now.resources ≤ 4096 }
        ensures lists { IfOk result (λ parts. parts.lists ≡ map (λ _. declared_list) world.now.lists) }
        ensures seats { IfOk result (λ parts. parts.seats ≡ map (λ _. opening_seat) world.now.scripts) }
        ensures fences { IfOk result (λ parts. map updates_in parts.fences ≡ map (λ v. v ∷ []) world.now.fences) }
        ensures held { IfOk result (λ parts. map queued parts.held ≡ map (λ _. no_queue) world.now.queues) }
        ensures numbers { IfOk result (λ parts. AreNumbers world.now.resources parts.numbers) }
    {
        let lists = Lists::new(alloc, world)?;
        let seats = opening_seats(alloc, world.scripts.as_slice())?;
        let fences = starting_fences(alloc, world.fences.as_slice())?;
        let held = empty_queues(alloc, world.queues.as_slice())?;
        let numbers = numbers_of(alloc, world.resources.as_slice())?;
        Ok(Parts {
            lists,
            seats,
            fences,
            held,
            numbers,
        })
    }
}

/// A place for each thread, before its first call.
#[tactic(auto, using(dx_base::proofs::Lists::same_for_more))]
fn opening_seats(alloc: Global, scripts: &[Seq<Call>]) -> Result<Seq<Seat>, Memory>
    ensures { IfOk result (λ seats. seats ≡ map (λ _. opening_seat) scripts.now) }
{
    let mut seats = Seq::new(alloc);
    for script in scripts {
        let _calls = script.len();
        seats.push(OPENING_SEAT)?;
    }
    Ok(seats)
}

/// A queue without operations, for each queue.
#[tactic(auto, using(dx_base::proofs::Lists::same_for_more))]
fn empty_queues(alloc: Global, queues: &[ListType]) -> Result<Seq<Held>, Memory>
    ensures { IfOk result (λ held. map queued held ≡ map (λ _. no_queue) queues.now) }
{
    let mut held = Seq::new(alloc);
    for queue in queues {
        let _type = *queue;
        held.push(empty_queue(alloc))?;
    }
    Ok(held)
}

/// A queue without operations.
fn empty_queue(alloc: Global) -> Held
    ensures { queued result ≡ no_queue }
{
    Held {
        operations: Fifo::new(alloc),
        submitted: 0,
        last_signal: 0,
        signals: Fifo::new(alloc),
    }
}

/// Puts an operation behind those of a queue. Refused for memory, the queues stay.
#[tactic(auto, using(dx_base::proofs::Lists::map_write, dx_base::proofs::Lists::map_write_same))]
pub(crate) fn push_operation(
    held: &mut Seq<Held>,
    queue: QueueId,
    operation: Operation,
) -> Result<(), Memory>
    requires { queue.0 < length held.old }
    ensures ok { OnOk result (map queued held.new ≡ changed_at (with_operation operation) queue.0 (map queued held.old)) }
    ensures same { OnErr result (map queued held.new ≡ map queued held.old) }
{
    held.at_mut(queue.0 as usize).operations.push(operation)
}

/// The wait of a thread after a call: `hostwait` begins one, whose place is that of the last update.
pub(crate) fn armed_by(fences: &Seq<Room<u64>>, call: &Call, waits: Option<Armed>) -> Option<Armed>
    ensures { result ≡ armed_after (map updates_in fences.now) call.now waits }
{
    match call {
        Call::HostWait { fence, value } => Some(Armed {
            fence: *fence,
            value: *value,
            since: last_place(fences, *fence),
            seen: last_place(fences, *fence),
        }),
        Call::Recording { .. } => waits,
        Call::Close { .. } => waits,
        Call::Reset { .. } => waits,
        Call::Execute { .. } => waits,
        Call::Signal { .. } => waits,
        Call::HostSignal { .. } => waits,
        Call::Value { .. } => waits,
        Call::Write { .. } => waits,
        Call::Read { .. } => waits,
    }
}
