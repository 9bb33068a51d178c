//! The clocks of a history so far, as they are carried from event to event.

ghost use Rattle.std.specs.Prelude.{◌≡◌, ◌<◌, ◌≤◌, ◌+◌, ◌-◌, ◌^◌, ◌++◌, ◌∷◌, [], suc, length, map, drop, slice_get, Some, replicate, IfOk, OnOk};
ghost use Rattle.std.specs.Option.{option_map, option_copied};
ghost use Rattle.dx_base.specs.Each.{Each};
ghost use Rattle.dx_base.specs.Lists.{changed_at};
ghost use Rattle.clocks.specs.Clocks.{number, joined, with_call, with_op, empty_clock, zero_clock};
ghost use Rattle.d3d_judge.specs.Happenings.{Calls, Wakes, Completes, Gives, SetsFence, WaitsFor, Asks, work_of};
ghost use Rattle.d3d_judge.specs.Carried.{item_or, head, latest, sufficient, called_by, carried, updated, no_wait, first_clocks};
ghost use Rattle.d3d_judge.specs.CarriedClocks.{clocks_of, update_of, updates_in, pending_in, pending_of, armed_of, AreSized, AreAlike, IsSized, HasRoom, HasRoomFor, IsRoomFor, SameSize, clock_at, oldest_work, is_execute, worked};

use clocks::Clock;
use d3d_machine::{Operation, World};
use dx_base::{Fifo, Memory, Room, Seq};
use std::alloc::Global;

/// An update of a fence: its value, and what it knows.
#[derive(Drop)]
pub(crate) struct FenceUpdate {
    value: u64,
    clock: Clock,
}

/// A called operation that has not completed, with what its call knew.
#[derive(Drop)]
pub(crate) struct GivenWork {
    operation: Operation,
    clock: Clock,
}

/// A wait of a thread on a fence, with the place of the update that was current at its call.
#[derive(Clone, Copy)]
pub(crate) struct ThreadWait {
    fence: u32,
    value: u64,
    since: usize,
}

/// What each thread and queue, each pending operation and each update knows. `ends` counts each queue's
/// completions and each thread's calls.
#[derive(Drop)]
pub(crate) struct CarriedClocks {
    ends: Clock,
    threads: Seq<Clock>,
    queues: Seq<Clock>,
    pending: Seq<Fifo<GivenWork>>,
    updates: Seq<Room<FenceUpdate>>,
    waits: Seq<ThreadWait>,
}

impl CarriedClocks {
    /// The clocks of a world before any event.
    #[tactic(auto, using(crate::proofs::CarriedClocks::same_for_each))]
    pub fn new(alloc: Global, world: &World) -> Result<CarriedClocks, Memory>
        ensures { IfOk result (λ clocks. clocks_of clocks ≡ first_clocks world.now) }
    {
        let queues = world.queues.len();
        let threads = world.scripts.len();
        Ok(CarriedClocks {
            ends: Clock::new(alloc, queues, threads)?,
            threads: equal_clocks(alloc, threads, queues, threads)?,
            queues: equal_clocks(alloc, queues, queues, threads)?,
            pending: no_work(alloc, queues)?,
            updates: first_updates(alloc, world.fences.as_slice(), queues, threads)?,
            waits: no_waits(alloc, threads)?,
        })
    }

    /// A clock to be handed over, with a number for each queue and thread.
    pub fn spare_clock(&self, alloc: Global) -> Result<Clock, Memory>
        ensures { IfOk result (λ clock. IsSized (length self.now.queues) (length self.now.threads) clock) }
    {
        Clock::new(alloc, self.queues.len(), self.threads.len())
    }

    /// Makes room for an operation of a queue.
    pub fn make_room_for_work(&mut self, queue: u32) -> Result<(), Memory>
        requires { queue < length self.old.pending }
        ensures room { OnOk result (HasRoom self.new.pending queue) }
        ensures clocks { clocks_of self.new ≡ clocks_of self.old }
        ensures updates { self.new.updates ≡ self.old.updates }
    {
        reserve_work(&mut self.pending, queue)
    }

    /// Makes room for an update of a fence, where there is that fence.
    pub fn make_room_for_update(&mut self, fence: u32) -> Result<(), Memory>
        ensures room { OnOk result (HasRoom self.new.updates fence) }
        ensures clocks { clocks_of self.new ≡ clocks_of self.old }
        ensures pending { self.new.pending ≡ self.old.pending }
    {
        reserve_update(&mut self.updates, fence)
    }

    /// A thread makes a call: its clock has the call's number from now on.
    pub fn call(&mut self, thread: u32)
        requires thread { thread < length self.old.threads }
        requires counted { thread < length self.old.ends.threads }
        requires numbers { Each (λ c. thread < length c.threads) self.old.threads }
        requires small { number self.old.ends.threads thread + 1 < 2 ^ 64 }
        ensures { clocks_of self.new ≡ called_by (clocks_of self.old) thread }
    {
        let number = next_number(&self.ends.threads, thread);
        self.ends.set_call(thread, number);
        set_thread(&mut self.threads, thread, number);
    }

    /// A thread gives a queue an operation. The clock that is handed over is overwritten.
    #[tactic(auto, using(crate::proofs::CarriedClocks::thread_counted, crate::proofs::CarriedClocks::thread_numbers))]
    pub fn give(&mut self, thread: u32, queue: u32, operation: Operation, clock: Clock)
        requires sized { AreSized (length self.old.queues) (length self.old.threads) (length self.old.updates) (clocks_of self.old) }
        requires thread { thread < length self.old.threads }
        requires small { number self.old.ends.threads thread + 1 < 2 ^ 64 }
        requires queue { queue < length self.old.pending }
        requires room { HasRoom self.old.pending queue }
        requires spare { IsSized (length self.old.queues) (length self.old.threads) clock }
        ensures { clocks_of self.new ≡ carried (clocks_of self.old) (Calls thread (Gives queue (work_of operation))) }
    {
        let clock = next_call_clock(&self.threads, &self.ends, thread, clock);
        push_work(&mut self.pending, queue, GivenWork { operation, clock });
        self.call(thread);
    }

    /// A thread sets a fence's value. The clock that is handed over is overwritten.
    #[tactic(auto, using(crate::proofs::CarriedClocks::thread_counted, crate::proofs::CarriedClocks::thread_numbers))]
    pub fn set_fence(&mut self, thread: u32, fence: u32, value: u64, clock: Clock)
        requires sized { AreSized (length self.old.queues) (length self.old.threads) (length self.old.updates) (clocks_of self.old) }
        requires thread { thread < length self.old.threads }
        requires small { number self.old.ends.threads thread + 1 < 2 ^ 64 }
        requires fence { fence < length self.old.updates }
        requires room { HasRoom self.old.updates fence }
        requires spare { IsSized (length self.old.queues) (length self.old.threads) clock }
        ensures { clocks_of self.new ≡ carried (clocks_of self.old) (Calls thread (SetsFence fence value)) }
    {
        let clock = next_call_clock(&self.threads, &self.ends, thread, clock);
        push_update(&mut self.updates, fence, FenceUpdate { value, clock });
        self.call(thread);
    }

    /// A thread begins to wait on a fence.
    #[tactic(auto, using(crate::proofs::CarriedClocks::thread_counted, crate::proofs::CarriedClocks::thread_numbers))]
    pub fn wait(&mut self, thread: u32, fence: u32, value: u64)
        requires sized { AreSized (length self.old.queues) (length self.old.threads) (length self.old.updates) (clocks_of self.old) }
        requires thread { thread < length self.old.threads }
        requires small { number self.old.ends.threads thread + 1 < 2 ^ 64 }
        requires fence { fence < length self.old.updates }
        ensures { clocks_of self.new ≡ carried (clocks_of self.old) (Calls thread (WaitsFor fence value)) }
    {
        let since = self.updates.at(fence as usize).len().saturating_sub(1);
        set_wait(
            &mut self.waits,
            thread,
            ThreadWait {
                fence,
                value,
                since,
            },
        );
        self.call(thread);
    }

    /// A thread asks a fence's value.
    #[tactic(auto, using(crate::proofs::CarriedClocks::thread_counted, crate::proofs::CarriedClocks::thread_numbers))]
    pub fn ask(&mut self, thread: u32, fence: u32)
        requires sized { AreSized (length self.old.queues) (length self.old.threads) (length self.old.updates) (clocks_of self.old) }
        requires thread { thread < length self.old.threads }
        requires small { number self.old.ends.threads thread + 1 < 2 ^ 64 }
        requires fence { fence < length self.old.updates }
        ensures { clocks_of self.new ≡ carried (clocks_of self.old) (Calls thread (Asks fence)) }
    {
        self.call(thread);
        let updates = self.updates.at(fence as usize);
        thread_learns_latest(&mut self.threads, thread, updates.as_slice());
    }

    /// The oldest operation of a queue, where it has one.
    pub fn oldest(&self, queue: u32) -> Option<&Operation>
        requires { queue < length self.now.pending }
        ensures { option_copied result ≡ option_map (λ p. p.operation) (oldest_work self.now.pending queue) }
    {
        match self.pending.at(queue as usize).front() {
            None => None,
            Some(work) => Some(&work.operation),
        }
    }

    /// Whether the oldest operation of a queue is an execute.
    pub fn completes_execute(&self, queue: u32) -> bool
        requires { queue < length self.now.pending }
        ensures { result ≡ is_execute (option_map (λ p. p.operation) (oldest_work self.now.pending queue)) }
    {
        match self.oldest(queue) {
            None => false,
            Some(Operation::Execute { commands: _ }) => true,
            Some(Operation::Signal { fence: _, value: _ }) => false,
        }
    }

    /// How many operations of each queue are complete, and how many calls of each thread were made.
    pub fn counts(&self, alloc: Global) -> Result<Clock, Memory>
        ensures { IfOk result (λ clock. clock ≡ self.now.ends) }
    {
        self.ends.copied(alloc)
    }

    /// What a queue knows: all that its last complete operation knows.
    #[tactic(auto, using(crate::proofs::CarriedClocks::item_got))]
    pub fn queue_clock(&self, queue: u32) -> &Clock
        requires { queue < length self.now.queues }
        ensures { result.now ≡ item_or empty_clock self.now.queues queue }
    {
        self.queues.at(queue as usize)
    }

    /// What a thread knows.
    #[tactic(auto, using(crate::proofs::CarriedClocks::item_got))]
    pub fn thread_clock(&self, thread: u32) -> &Clock
        requires { thread < length self.now.threads }
        ensures { result.now ≡ item_or empty_clock self.now.threads thread }
    {
        self.threads.at(thread as usize)
    }

    /// The number of the last complete operation of a queue.
    #[tactic(auto, using(crate::proofs::CarriedClocks::number_is))]
    pub fn last_operation(&self, queue: u32) -> u64
        requires { queue < length self.now.ends.queues }
        ensures { result ≡ number self.now.ends.queues queue }
    {
        self.ends.queues.as_slice()[queue as usize]
    }

    /// The number of the last call of a thread.
    #[tactic(auto, using(crate::proofs::CarriedClocks::number_is))]
    pub fn last_call(&self, thread: u32) -> u64
        requires { thread < length self.now.ends.threads }
        ensures { result ≡ number self.now.ends.threads thread }
    {
        self.ends.threads.as_slice()[thread as usize]
    }

    /// The oldest operation of a queue completes, where it has one, and is handed back.
    pub fn complete(&mut self, queue: u32) -> Option<Operation>
        requires sized { AreSized (length self.old.queues) (length self.old.threads) (length self.old.updates) (clocks_of self.old) }
        requires queue { queue < length self.old.queues }
        requires small { number self.old.ends.queues queue + 1 < 2 ^ 64 }
        requires room { HasRoomFor self.old queue }
        ensures clocks { clocks_of self.new ≡ carried (clocks_of self.old) (Completes queue) }
        ensures operation { result ≡ option_map (λ p. p.operation) (oldest_work self.old.pending queue) }
    {
        match take_work(&mut self.pending, queue) {
            None => None,
            Some(work) => Some(self.complete_work(queue, work)),
        }
    }

    /// What the completion of an operation changes beside the queue's pending operations.
    fn complete_work(&mut self, queue: u32, work: GivenWork) -> Operation
        requires queue { queue < length self.old.queues }
        requires counted { queue < length self.old.ends.queues }
        requires small { number self.old.ends.queues queue + 1 < 2 ^ 64 }
        requires alike { Each (λ c. SameSize c work.clock) self.old.queues }
        requires numbers { queue < length work.clock.queues }
        requires room { IsRoomFor self.old.updates work.operation }
        ensures clocks { clocks_of self.new ≡ worked (clocks_of self.old) queue (pending_of work) }
        ensures operation { result ≡ work.operation }
    {
        let GivenWork { operation, clock } = work;
        let number = next_number(&self.ends.queues, queue);
        let clock = completing_clock(clock, &self.queues, queue, number);
        self.ends.set_op(queue, number);
        set_clock(&mut self.queues, queue, &clock);
        apply(&mut self.updates, &operation, clock);
        operation
    }

    /// A thread goes on behind its wait.
    pub fn wake(&mut self, thread: u32)
        requires sized { AreSized (length self.old.queues) (length self.old.threads) (length self.old.updates) (clocks_of self.old) }
        requires thread { thread < length self.old.threads }
        ensures { clocks_of self.new ≡ carried (clocks_of self.old) (Wakes thread) }
    {
        let wait = *self.waits.at(thread as usize);
        match self.updates.get(wait.fence as usize) {
            None => (),
            Some(updates) => thread_learns(&mut self.threads, thread, updates.as_slice(), wait),
        }
    }
}

/// Clocks that know nothing.
fn equal_clocks(
    alloc: Global,
    count: usize,
    queues: usize,
    threads: usize,
) -> Result<Seq<Clock>, Memory>
    ensures { IfOk result (λ clocks. clocks ≡ replicate count (zero_clock queues threads)) }
{
    let mut clocks = Seq::new(alloc);
    for _at in 0..count {
        clocks.push(Clock::new(alloc, queues, threads)?)?;
    }
    Ok(clocks)
}

/// No operations, for each queue.
fn no_work(alloc: Global, count: usize) -> Result<Seq<Fifo<GivenWork>>, Memory>
    ensures { IfOk result (λ pending. map pending_in pending ≡ replicate count []) }
{
    let mut pending = Seq::new(alloc);
    for _at in 0..count {
        pending.push(Fifo::new(alloc))?;
    }
    Ok(pending)
}

/// Of each fence its starting value as an update that knows nothing.
fn first_updates(
    alloc: Global,
    values: &[u64],
    queues: usize,
    threads: usize,
) -> Result<Seq<Room<FenceUpdate>>, Memory>
    ensures { IfOk result (λ updates. map updates_in updates ≡ map (λ v. record { value = v; clock = zero_clock queues threads } ∷ []) values.now) }
{
    let mut updates = Seq::new(alloc);
    for value in values {
        updates.push(first_update(alloc, *value, queues, threads)?)?;
    }
    Ok(updates)
}

/// The starting value of a fence, as an update that knows nothing.
fn first_update(
    alloc: Global,
    value: u64,
    queues: usize,
    threads: usize,
) -> Result<Room<FenceUpdate>, Memory>
    ensures { IfOk result (λ updates. updates_in updates ≡ record { value = value; clock = zero_clock queues threads } ∷ []) }
{
    let clock = Clock::new(alloc, queues, threads)?;
    let mut updates = Room::new(alloc);
    updates.reserve()?;
    updates.push_reserved(FenceUpdate { value, clock });
    Ok(updates)
}

/// No wait, for each thread.
fn no_waits(alloc: Global, count: usize) -> Result<Seq<ThreadWait>, Memory>
    ensures { IfOk result (λ waits. map armed_of waits ≡ replicate count no_wait) }
{
    let mut waits = Seq::new(alloc);
    for _at in 0..count {
        waits.push(ThreadWait {
            fence: 0,
            value: 0,
            since: 0,
        })?;
    }
    Ok(waits)
}

/// Makes room for an operation of a queue.
fn reserve_work(pending: &mut Seq<Fifo<GivenWork>>, queue: u32) -> Result<(), Memory>
    requires { queue < length pending.old }
    ensures room { OnOk result (HasRoom pending.new queue) }
    ensures same { map pending_in pending.new ≡ map pending_in pending.old }
{
    pending.at_mut(queue as usize).reserve()
}

/// Makes room for an update of a fence, where there is that fence.
#[tactic(auto, using(crate::proofs::CarriedClocks::room_nowhere))]
fn reserve_update(updates: &mut Seq<Room<FenceUpdate>>, fence: u32) -> Result<(), Memory>
    ensures room { OnOk result (HasRoom updates.new fence) }
    ensures same { map updates_in updates.new ≡ map updates_in updates.old }
{
    if fence as usize >= updates.len() {
        return Ok(());
    }
    reserve_update_at(updates, fence)
}

/// Makes room for an update of a fence.
fn reserve_update_at(updates: &mut Seq<Room<FenceUpdate>>, fence: u32) -> Result<(), Memory>
    requires { fence < length updates.old }
    ensures room { OnOk result (HasRoom updates.new fence) }
    ensures same { map updates_in updates.new ≡ map updates_in updates.old }
{
    updates.at_mut(fence as usize).reserve()
}

/// Takes the oldest operation of a queue out, where there is one.
fn take_work(pending: &mut Seq<Fifo<GivenWork>>, queue: u32) -> Option<GivenWork>
    requires { queue < length pending.old }
    ensures oldest { option_map pending_of result ≡ head (item_or [] (map pending_in pending.old) queue) }
    ensures first { result ≡ oldest_work pending.old queue }
    ensures rest { map pending_in pending.new ≡ changed_at (drop 1) queue (map pending_in pending.old) }
{
    pending.at_mut(queue as usize).pop()
}

/// The clock of an operation that completes, by what its call knew and what its queue knows.
fn completing_clock(clock: Clock, queues: &Seq<Clock>, queue: u32, number: u64) -> Clock
    requires queue { queue < length queues.now }
    requires alike { Each (λ c. SameSize c clock) queues.now }
    requires numbers { queue < length clock.queues }
    ensures { result ≡ with_op (joined clock (item_or empty_clock queues.now queue)) queue number }
{
    let mut clock = clock;
    clock.join(queues.at(queue as usize));
    clock.set_op(queue, number);
    clock
}

/// Makes the clock of a queue equal to another.
fn set_clock(queues: &mut Seq<Clock>, queue: u32, clock: &Clock)
    requires queue { queue < length queues.old }
    requires alike { Each (λ c. SameSize c clock.now) queues.old }
    ensures { queues.new ≡ changed_at (λ _. clock.now) queue queues.old }
{
    become_equal(queues.at_mut(queue as usize), clock);
}

/// An operation that completes gives its fence an update, where it is a signal.
fn apply(updates: &mut Seq<Room<FenceUpdate>>, operation: &Operation, clock: Clock)
    requires { IsRoomFor updates.old operation.now }
    ensures { map updates_in updates.new ≡ updated clock (work_of operation.now) (map updates_in updates.old) }
{
    match *operation {
        Operation::Execute { commands: _ } => drop(clock),
        Operation::Signal { fence, value } => {
            push_where_there(updates, fence.0, FenceUpdate { value, clock })
        }
    }
}

/// Puts an update behind those of a fence, where there is that fence.
#[tactic(auto, using(dx_base::proofs::Lists::changed_past, crate::proofs::CarriedClocks::pushed_nowhere))]
fn push_where_there(updates: &mut Seq<Room<FenceUpdate>>, fence: u32, update: FenceUpdate)
    requires { HasRoom updates.old fence }
    ensures { map updates_in updates.new ≡ changed_at (λ us. us ++ update_of update ∷ []) fence (map updates_in updates.old) }
{
    if (fence as usize) < updates.len() {
        push_update(updates, fence, update);
    } else {
        drop(update);
    }
}

/// The number behind that at a place.
#[tactic(auto, using(crate::proofs::CarriedClocks::number_is))]
fn next_number(numbers: &Seq<u64>, at: u32) -> u64
    requires place { at < length numbers.now }
    requires small { number numbers.now at + 1 < 2 ^ 64 }
    ensures { result ≡ suc (number numbers.now at) }
{
    numbers.as_slice()[at as usize] + 1
}

/// The clock of a thread's next call, in the memory of another clock.
fn next_call_clock(threads: &Seq<Clock>, ends: &Clock, thread: u32, clock: Clock) -> Clock
    requires thread { thread < length threads.now }
    requires alike { Each (λ c. SameSize clock c) threads.now }
    requires call { thread < length clock.threads }
    requires counted { thread < length ends.now.threads }
    requires small { number ends.now.threads thread + 1 < 2 ^ 64 }
    ensures { slice_get (map (λ c. with_call c thread (suc (number ends.now.threads thread))) threads.now) thread ≡ Some result }
{
    let mut clock = clock;
    become_equal(&mut clock, threads.at(thread as usize));
    clock.set_call(thread, next_number(&ends.threads, thread));
    clock
}

/// Sets the number of a thread in the thread's own clock.
fn set_thread(threads: &mut Seq<Clock>, thread: u32, number: u64)
    requires thread { thread < length threads.old }
    requires number { Each (λ c. thread < length c.threads) threads.old }
    ensures { threads.new ≡ changed_at (λ c. with_call c thread number) thread threads.old }
{
    threads.at_mut(thread as usize).set_call(thread, number);
}

/// Sets the wait of a thread.
fn set_wait(waits: &mut Seq<ThreadWait>, thread: u32, wait: ThreadWait)
    requires { thread < length waits.old }
    ensures { map armed_of waits.new ≡ changed_at (λ _. armed_of wait) thread (map armed_of waits.old) }
{
    *waits.at_mut(thread as usize) = wait;
}

/// Puts an operation behind those of a queue, into room that is there.
fn push_work(pending: &mut Seq<Fifo<GivenWork>>, queue: u32, work: GivenWork)
    requires queue { queue < length pending.old }
    requires room { HasRoom pending.old queue }
    ensures { map pending_in pending.new ≡ changed_at (λ ps. ps ++ pending_of work ∷ []) queue (map pending_in pending.old) }
{
    pending.at_mut(queue as usize).push_reserved(work);
}

/// Puts an update behind those of a fence, into room that is there.
fn push_update(updates: &mut Seq<Room<FenceUpdate>>, fence: u32, update: FenceUpdate)
    requires fence { fence < length updates.old }
    requires room { HasRoom updates.old fence }
    ensures { map updates_in updates.new ≡ changed_at (λ us. us ++ update_of update ∷ []) fence (map updates_in updates.old) }
{
    updates.at_mut(fence as usize).push_reserved(update);
}

/// A thread learns what the last update knows.
fn thread_learns_latest(threads: &mut Seq<Clock>, thread: u32, updates: &[FenceUpdate])
    requires thread { thread < length threads.old }
    requires alike { AreAlike (map update_of updates.now) threads.old }
    ensures { threads.new ≡ changed_at (λ c. joined c (latest (map update_of updates.now))) thread threads.old }
{
    learn_latest(threads.at_mut(thread as usize), updates);
}

/// A thread learns what the update knows that met its wait.
fn thread_learns(threads: &mut Seq<Clock>, thread: u32, updates: &[FenceUpdate], wait: ThreadWait)
    requires thread { thread < length threads.old }
    requires alike { AreAlike (map update_of updates.now) threads.old }
    ensures { threads.new ≡ changed_at (λ c. joined c (sufficient wait.value (drop wait.since (map update_of updates.now)))) thread threads.old }
{
    learn_sufficient(
        threads.at_mut(thread as usize),
        updates,
        wait.since,
        wait.value,
    );
}

/// A clock learns what the last update knows.
fn learn_latest(clock: &mut Clock, updates: &[FenceUpdate])
    requires { Each (λ u. SameSize clock.old u.clock) (map update_of updates.now) }
    ensures { clock.new ≡ joined clock.old (latest (map update_of updates.now)) }
{
    let count = updates.len();
    if count > 0 {
        learn(clock, updates, count - 1);
    }
}

/// A clock learns what the first update from a place on knows that is at least a value.
fn learn_sufficient(clock: &mut Clock, updates: &[FenceUpdate], from: usize, value: u64)
    requires { Each (λ u. SameSize clock.old u.clock) (map update_of updates.now) }
    ensures { clock.new ≡ joined clock.old (sufficient value (drop from (map update_of updates.now))) }
{
    let at = first_sufficient(updates, from, value);
    if at < updates.len() {
        learn(clock, updates, at);
    }
}

/// The place of the first update from a place on that is at least a value; the number of updates or a
/// place behind them where there is none.
#[tactic(auto, using(crate::proofs::CarriedClocks::sufficient_here, crate::proofs::CarriedClocks::sufficient_later, crate::proofs::CarriedClocks::sufficient_none))]
fn first_sufficient(updates: &[FenceUpdate], from: usize, value: u64) -> usize
    ensures { sufficient value (drop from (map update_of updates.now)) ≡ clock_at updates.now result }
{
    let mut at = from;
    while at < updates.len() && updates[at].value < value {
        at += 1;
    }
    at
}

/// A clock learns what the update at a place knows.
fn learn(clock: &mut Clock, updates: &[FenceUpdate], at: usize)
    requires place { at < length updates.now }
    requires alike { Each (λ u. SameSize clock.old u.clock) (map update_of updates.now) }
    ensures { clock.new ≡ joined clock.old (clock_at updates.now at) }
{
    clock.join(&updates[at].clock);
}

/// Makes a clock equal to another of as many queues and threads.
fn become_equal(clock: &mut Clock, other: &Clock)
    requires queues { length clock.old.queues ≡ length other.now.queues }
    requires threads { length clock.old.threads ≡ length other.now.threads }
    ensures { clock.new ≡ other.now }
{
    clock
        .queues
        .as_mut_slice()
        .copy_from_slice(other.queues.as_slice());
    clock
        .threads
        .as_mut_slice()
        .copy_from_slice(other.threads.as_slice());
}
