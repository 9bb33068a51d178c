//! The machine: the state of a world's objects and threads, and its steps.

ghost use Rattle.std.specs.Prelude.{◌≡◌, ◌<◌, ◌+◌, ◌/◌, ◌^◌, [], ◌∷◌, ◌++◌, map, length, drop, true, is_some, Some, None, IfOk, IfSome, OnOk, OnErr};
ghost use Rattle.std.specs.Option.{option_copied};
ghost use Rattle.std.specs.Result.{result_err};
ghost use Rattle.dx_base.specs.Lists.{changed_at, put, range_of};
ghost use Rattle.d3d_machine.specs.declared.calls.Reply.TheVariants.{Done as done, Words as words_reply};
ghost use Rattle.d3d_machine.specs.declared.events.Operation.TheVariants.{Execute as execute_operation, Signal as signal_operation};
ghost use Rattle.d3d_machine.specs.declared.events.Event.TheVariants.{Call as call_event};
ghost use Rattle.d3d_machine.specs.World.{is_named, are_named};
ghost use Rattle.d3d_machine.specs.State.{first_state, place_of, next_call as next_call_of, value_of, words_at};
ghost use Rattle.d3d_machine.specs.Replies.{reply_of, reply_or};
ghost use Rattle.d3d_machine.specs.Effects.{desk_or, memory_or, pushed, begins_wait, takes_value, counted, woken, desk_after_operation, memory_after_operation, after};
ghost use Rattle.d3d_machine.specs.Lists.{record_refusal, lists_after_record, close_refusal, lists_after_close, reset_refusal, lists_after_reset, execute_refusal, commands_of};
ghost use Rattle.d3d_machine.specs.Checks.{write_refusal as refusal_of_write, read_refusal as refusal_of_read};
ghost use Rattle.d3d_machine.specs.Shape.{HasShape};
ghost use Rattle.d3d_machine.specs.Steps.{awake_if, woken_if, thread_step, queue_step, after_step, served};
ghost use Rattle.d3d_machine.specs.Machine.{operations_in, oldest_in};

use crate::calls::{Call, Record, Reply};
use crate::checks::{read_refusal, write_refusal};
use crate::events::{Event, Operation};
use crate::lists::Lists;
use crate::thread_places::{ThreadPlace, mark_all, opening_places};
use crate::words::Words;
use crate::world::World;
use dx_base::{
    AllocatorId, FenceId, Fifo, Hresult, ListId, ListType, Memory, QueueId, ResourceId, Seq,
    ThreadId,
};
use std::alloc::Global;
use std::marker::Model;

/// The machine of a world: its command lists, the value of each fence, the called and incomplete
/// operations of each queue, the threads' places, and the words of each resource.
#[derive(Drop)]
pub struct Machine {
    alloc: Global,
    lists: Lists,
    fences: Seq<u64>,
    called: Seq<Fifo<Operation>>,
    threads: Seq<ThreadPlace>,
    words: Words,
}

impl Model for Machine {
    ghost use Rattle.std.specs.Prelude.{map};
    ghost use Rattle.d3d_machine.specs.State.{State};
    ghost use Rattle.d3d_machine.specs.Machine.{operations_in};

    ghost Value = { State };

    ghost view = { λ it. record { desk = record { fences = it.fences; called = map operations_in it.called; lists = it.lists; threads = it.threads }; memory = it.words } };
}

impl Machine {
    /// The machine of a world before any event.
    #[tactic(auto, using(crate::proofs::Shape::first_has_shape))]
    pub fn new(alloc: Global, world: &World) -> Result<Machine, Memory>
        ensures state { IfOk result (λ machine. machine ≡ first_state world.now) }
        ensures shape { IfOk result (λ machine. HasShape world.now machine) }
    {
        Ok(Machine {
            alloc,
            lists: Lists::new(alloc, world)?,
            fences: Seq::from_slice(alloc, world.fences.as_slice())?,
            called: empty_queues(alloc, world.queues.as_slice())?,
            threads: opening_places(alloc, world.scripts.as_slice())?,
            words: Words::new(alloc, world.resources.as_slice())?,
        })
    }

    /// Whether a thread's step is enabled: it does not wait and its script has a next call, or its wait
    /// is met.
    pub fn enabled_thread(&self, world: &World, thread: ThreadId) -> bool
        requires shape { HasShape world.now self.now }
        requires thread { thread.0 < length world.now.scripts }
        ensures { result ≡ is_some (thread_step world.now self.now thread) }
    {
        let place = self.threads.at(thread.0 as usize);
        if place.is_waiting() {
            place.is_met()
        } else {
            self.next_call(world, thread).is_some()
        }
    }

    /// Whether a queue's step is enabled: it has an operation that is called and incomplete.
    pub fn enabled_queue(&self, queue: QueueId) -> bool
        requires { queue.0 < length self.now.desk.called }
        ensures { result ≡ is_some (queue_step self.now queue) }
    {
        !self.called.at(queue.0 as usize).is_empty()
    }

    /// A thread's step: it wakes where it waits, and otherwise makes its next call. None where the step
    /// is not enabled; then nothing changes. Refused for memory, nothing changes.
    #[tactic(auto, using(crate::proofs::Named::next_named))]
    pub fn step_thread(&mut self, world: &World, thread: ThreadId) -> Result<Option<Event>, Memory>
        requires named { are_named world.now ≡ true }
        requires shape { HasShape world.now self.old }
        requires thread { thread.0 < length world.now.scripts }
        ensures event { IfOk result (λ event. event ≡ thread_step world.now self.old thread) }
        ensures state { OnOk result (self.new ≡ after_step world.now self.old (thread_step world.now self.old thread)) }
        ensures shape { HasShape world.now self.new }
        ensures same { OnErr result (self.new ≡ self.old) }
    {
        let place = self.threads.at(thread.0 as usize);
        if place.is_waiting() {
            let met = place.is_met();
            return Ok(self.wake_if(met, thread));
        }
        match self.next_call(world, thread) {
            None => Ok(None),
            Some(call) => Ok(Some(self.call(world, thread, call)?)),
        }
    }

    /// A queue's step: its oldest operation completes. None where it has none; then nothing changes.
    #[tactic(auto, using(crate::proofs::Machines::queue_enabled, crate::proofs::Machines::queue_idle))]
    pub fn step_queue(&mut self, world: &World, queue: QueueId) -> Result<Option<Event>, Memory>
        requires shape { HasShape world.now self.old }
        requires queue { queue.0 < length world.now.queues }
        ensures event { IfOk result (λ event. event ≡ queue_step self.old queue) }
        ensures state { OnOk result (self.new ≡ after_step world.now self.old (queue_step self.old queue)) }
        ensures shape { HasShape world.now self.new }
        ensures same { OnErr result (self.new ≡ self.old) }
    {
        let _queues = world.queues.len();
        if !self.enabled_queue(queue) {
            return Ok(None);
        }
        let operation = take_operation(&mut self.called, queue);
        self.complete(operation);
        Ok(Some(Event::Queue(queue)))
    }

    /// The next call of a thread, where its script has one.
    fn next_call<'w>(&self, world: &'w World, thread: ThreadId) -> Option<&'w Call>
        requires shape { HasShape world.now self.now }
        requires thread { thread.0 < length world.now.scripts }
        ensures call { option_copied result ≡ next_call_of world.now self.now.desk thread.0 }
        ensures small { IfSome result (λ call. (place_of self.now.desk thread.0).made + 1 < 2 ^ 64) }
    {
        let at = thread.0 as usize;
        let script = world.scripts.at(at);
        let _count = script.len();
        script.get(self.threads.at(at).made())
    }

    /// A thread makes its next call. Refused for memory, nothing changes.
    #[tactic(auto, using(crate::proofs::Machines::thread_served, crate::proofs::Machines::count_served))]
    fn call(&mut self, world: &World, thread: ThreadId, call: &Call) -> Result<Event, Memory>
        requires shape { HasShape world.now self.old }
        requires thread { thread.0 < length world.now.scripts }
        requires named { is_named world.now call.now ≡ true }
        requires small { (place_of self.old.desk thread.0).made + 1 < 2 ^ 64 }
        ensures event { IfOk result (λ event. event ≡ call_event thread call.now (reply_of world.now self.old call.now)) }
        ensures state { OnOk result (self.new ≡ after world.now self.old (call_event thread call.now (reply_of world.now self.old call.now))) }
        ensures same { OnErr result (self.new ≡ self.old) }
    {
        let copy = call.copied(self.alloc)?;
        let reply = self.serve(world, thread, call)?;
        self.count(thread);
        Ok(Event::Call {
            thread,
            call: copy,
            reply,
        })
    }

    /// Counts a call of a thread.
    #[tactic(auto, using(dx_base::proofs::Lists::write_is_changed))]
    fn count(&mut self, thread: ThreadId)
        requires thread { thread.0 < length self.old.desk.threads }
        requires small { (place_of self.old.desk thread.0).made + 1 < 2 ^ 64 }
        ensures { self.new ≡ record self.old { desk = counted thread.0 self.old.desk } }
    {
        self.threads.at_mut(thread.0 as usize).count();
    }

    /// A thread that waits wakes, where its wait is met.
    #[tactic(auto, using(dx_base::proofs::Lists::write_is_changed))]
    fn wake_if(&mut self, met: bool, thread: ThreadId) -> Option<Event>
        requires { thread.0 < length self.old.desk.threads }
        ensures event { result ≡ awake_if met thread }
        ensures state { self.new ≡ record self.old { desk = woken_if met thread.0 self.old.desk } }
    {
        if !met {
            return None;
        }
        self.threads.at_mut(thread.0 as usize).wake();
        Some(Event::Awake(thread))
    }

    /// Does what a call does, but for the count of the thread's calls. Refused for memory, nothing changes.
    #[tactic(auto, using(crate::proofs::Served::served_record, crate::proofs::Served::served_close, crate::proofs::Served::served_reset, crate::proofs::Served::served_execute, crate::proofs::Served::served_write))]
    fn serve(&mut self, world: &World, thread: ThreadId, call: &Call) -> Result<Reply, Memory>
        requires shape { HasShape world.now self.old }
        requires thread { thread.0 < length world.now.scripts }
        requires named { is_named world.now call.now ≡ true }
        ensures reply { IfOk result (λ reply. reply ≡ reply_of world.now self.old call.now) }
        ensures state { OnOk result (self.new ≡ served world.now self.old thread.0 call.now) }
        ensures same { OnErr result (self.new ≡ self.old) }
    {
        match *call {
            Call::Recording { list, what } => self.lists.record(world, list, what),
            Call::Close { list } => Ok(answered(self.lists.close(list))),
            Call::Reset { list, allocator } => {
                Ok(answered(self.lists.reset(world, list, allocator)))
            }
            Call::Execute { queue, ref lists } => self.execute(world, queue, lists),
            Call::Signal {
                queue,
                fence,
                value,
            } => self.signal(queue, fence, value),
            Call::HostSignal { fence, value } => Ok(self.host_signal(fence, value)),
            Call::HostWait { fence, value } => Ok(self.host_wait(thread, fence, value)),
            Call::Value { fence } => Ok(Reply::Value(self.value(fence))),
            Call::Write {
                buffer,
                offset,
                ref words,
            } => Ok(self.write(world, buffer, offset, words)),
            Call::Read {
                buffer,
                offset,
                bytes,
            } => self.read(world, buffer, offset, bytes),
        }
    }

    /// ID3D12CommandQueue::ExecuteCommandLists: one operation more, with the lists' commands in order.
    fn execute(
        &mut self,
        world: &World,
        queue: QueueId,
        lists: &Seq<ListId>,
    ) -> Result<Reply, Memory>
        requires { queue.0 < length self.old.desk.called }
        ensures reply { IfOk result (λ reply. reply ≡ reply_or (execute_refusal world.now self.old.desk.lists queue.0 lists.now) done) }
        ensures state { OnOk result (self.new ≡ record self.old { desk = desk_or (execute_refusal world.now self.old.desk.lists queue.0 lists.now) (pushed self.old.desk queue.0 (execute_operation (commands_of self.old.desk.lists lists.now))) self.old.desk }) }
        ensures same { OnErr result (self.new ≡ self.old) }
    {
        match self
            .lists
            .gather(self.alloc, world, queue, lists.as_slice())?
        {
            Err(error) => Ok(Reply::Error(error)),
            Ok(commands) => {
                push_operation(&mut self.called, queue, Operation::Execute { commands })?;
                Ok(Reply::Done)
            }
        }
    }

    /// ID3D12CommandQueue::Signal: one operation more.
    fn signal(&mut self, queue: QueueId, fence: FenceId, value: u64) -> Result<Reply, Memory>
        requires { queue.0 < length self.old.desk.called }
        ensures reply { IfOk result (λ reply. reply ≡ done) }
        ensures state { OnOk result (self.new ≡ record self.old { desk = pushed self.old.desk queue.0 (signal_operation fence value) }) }
        ensures same { OnErr result (self.new ≡ self.old) }
    {
        push_operation(&mut self.called, queue, Operation::Signal { fence, value })?;
        Ok(Reply::Done)
    }

    /// ID3D12Fence::Signal: the fence takes the value at once.
    fn host_signal(&mut self, fence: FenceId, value: u64) -> Reply
        ensures reply { result ≡ done }
        ensures state { self.new ≡ record self.old { desk = takes_value fence.0 value self.old.desk } }
    {
        self.take_value(fence, value);
        Reply::Done
    }

    /// ID3D12Fence::SetEventOnCompletion, and waiting for the event: the thread begins to wait.
    #[tactic(auto, using(dx_base::proofs::Lists::write_is_changed))]
    fn host_wait(&mut self, thread: ThreadId, fence: FenceId, value: u64) -> Reply
        requires { thread.0 < length self.old.desk.threads }
        ensures reply { result ≡ done }
        ensures state { self.new ≡ record self.old { desk = record self.old.desk { threads = changed_at (begins_wait (value_of self.old.desk fence.0) fence.0 value) thread.0 self.old.desk.threads } } }
    {
        let now = self.value(fence);
        self.threads
            .at_mut(thread.0 as usize)
            .begin_wait(now, fence, value);
        Reply::Done
    }

    /// ID3D12Fence::GetCompletedValue.
    fn value(&self, fence: FenceId) -> u64
        ensures { result ≡ value_of self.now.desk fence.0 }
    {
        match self.fences.get(fence.0 as usize) {
            Some(value) => *value,
            None => 0,
        }
    }

    /// A fence takes a value: it may fall, and the waits that it meets are marked.
    #[tactic(auto, using(dx_base::proofs::Lists::write_is_changed, dx_base::proofs::Lists::changed_past))]
    fn take_value(&mut self, fence: FenceId, value: u64)
        ensures { self.new ≡ record self.old { desk = takes_value fence.0 value self.old.desk } }
    {
        set_fence(&mut self.fences, fence, value);
        mark_all(&mut self.threads, fence, value);
    }

    /// Writing words into a mapped upload buffer. The offset is in bytes.
    fn write(&mut self, world: &World, buffer: ResourceId, offset: u64, words: &Seq<u32>) -> Reply
        ensures reply { result ≡ reply_or (refusal_of_write world.now buffer.0 offset (length words.now)) done }
        ensures state { self.new ≡ record self.old { memory = memory_or (refusal_of_write world.now buffer.0 offset (length words.now)) (changed_at (put (offset / 4) words.now) buffer.0 self.old.memory) self.old.memory } }
    {
        match write_refusal(world, buffer, offset, words.len()) {
            Some(error) => Reply::Error(error),
            None => {
                self.words.put(buffer, offset / 4, words.as_slice());
                Reply::Done
            }
        }
    }

    /// Reading words of a mapped readback buffer. The offset and the size are in bytes.
    fn read(
        &self,
        world: &World,
        buffer: ResourceId,
        offset: u64,
        bytes: u64,
    ) -> Result<Reply, Memory>
        ensures { IfOk result (λ reply. reply ≡ reply_or (refusal_of_read world.now buffer.0 offset bytes) (words_reply (range_of (offset / 4) (bytes / 4) (words_at self.now.memory buffer.0)))) }
    {
        match read_refusal(world, buffer, offset, bytes) {
            Some(error) => Ok(Reply::Error(error)),
            None => Ok(Reply::Words(self.words.range(self.alloc, buffer, offset / 4, bytes / 4)?)),
        }
    }

    /// An operation completes, where it is one: an execute does its commands in order at once, and a
    /// signal gives its fence its value.
    fn complete(&mut self, operation: Option<Operation>)
        ensures { self.new ≡ record { desk = desk_after_operation self.old.desk operation; memory = memory_after_operation self.old.memory operation } }
    {
        match operation {
            None => (),
            Some(Operation::Execute { commands }) => self.words.run_all(commands.as_slice()),
            Some(Operation::Signal { fence, value }) => self.take_value(fence, value),
        }
    }
}

/// What a call answers that gives nothing but an error.
fn answered(answer: Result<(), Hresult>) -> Reply
    ensures { result ≡ reply_or (result_err answer) done }
{
    match answer {
        Ok(()) => Reply::Done,
        Err(error) => Reply::Error(error),
    }
}

/// Puts an operation behind those of a queue. Refused for memory, the queues stay.
#[tactic(auto, using(dx_base::proofs::Lists::map_write, dx_base::proofs::Lists::map_write_same))]
fn push_operation(
    called: &mut Seq<Fifo<Operation>>,
    queue: QueueId,
    operation: Operation,
) -> Result<(), Memory>
    requires { queue.0 < length called.old }
    ensures ok { OnOk result (map operations_in called.new ≡ changed_at (λ os. os ++ operation ∷ []) queue.0 (map operations_in called.old)) }
    ensures same { OnErr result (map operations_in called.new ≡ map operations_in called.old) }
{
    called.at_mut(queue.0 as usize).push(operation)
}

/// Takes the oldest operation of a queue out, where there is one.
#[tactic(auto, using(crate::proofs::Machines::oldest_is, dx_base::proofs::Lists::map_write))]
fn take_operation(called: &mut Seq<Fifo<Operation>>, queue: QueueId) -> Option<Operation>
    requires { queue.0 < length called.old }
    ensures oldest { result ≡ oldest_in (map operations_in called.old) queue.0 }
    ensures rest { map operations_in called.new ≡ changed_at (drop 1) queue.0 (map operations_in called.old) }
{
    called.at_mut(queue.0 as usize).pop()
}

/// A fence takes a value, where there is that fence.
#[tactic(auto, using(dx_base::proofs::Lists::write_is_changed, dx_base::proofs::Lists::changed_past))]
fn set_fence(fences: &mut Seq<u64>, fence: FenceId, value: u64)
    ensures { fences.new ≡ changed_at (λ _. value) fence.0 fences.old }
{
    let at = fence.0 as usize;
    if at < fences.len() {
        *fences.at_mut(at) = value;
    }
}

/// No operations, for each queue.
#[tactic(auto, using(dx_base::proofs::Lists::same_for_more))]
fn empty_queues(alloc: Global, queues: &[ListType]) -> Result<Seq<Fifo<Operation>>, Memory>
    ensures { IfOk result (λ called. map operations_in called ≡ map (λ _. []) queues.now) }
{
    let mut called = Seq::new(alloc);
    for queue in queues {
        let _type = *queue;
        called.push(Fifo::new(alloc))?;
    }
    Ok(called)
}
