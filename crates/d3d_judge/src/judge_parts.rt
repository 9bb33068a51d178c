//! The parts of a judge: what they become at each event.

ghost use Rattle.std.specs.Prelude.{◌≡◌, ◌<◌, [], length, map, None, IfOk, OnOk, OnErr};
ghost use Rattle.d3d_machine.specs.declared.calls.Call.TheVariants.{Recording as recording, Close as closing, Reset as resetting, Execute as executing, Signal as signalling, HostSignal as host_signalling, HostWait as host_waiting, Value as asking, Write as writing, Read as reading};
ghost use Rattle.d3d_judge.specs.CopyScopes.{range_by, IsIn};
ghost use Rattle.d3d_judge.specs.Fed.{IsNext};
ghost use Rattle.d3d_judge.specs.JudgeParts.{Stands, IsFound, TakesCall, TakesQueue, CallFound, DeedFound, deed_by, OldestIsReady, call_of_thread, completion_of, waking_of, AreOpen};
ghost use Rattle.d3d_judge.specs.HostCalls.{access_in};
ghost use Rattle.d3d_judge.specs.Prepared.{IsMadeForCall, IsMadeForOldest, IsMadeFor, Furnishes, IsTaken, TakesLate, LateFound};
ghost use Rattle.d3d_judge.specs.WordTouches.{HasTablesOfThread};
ghost use Rattle.d3d_machine.specs.declared.calls.Reply.{Reply};
ghost use Rattle.d3d_judge.specs.Setting.{traits_of};

use crate::carried_clocks::CarriedClocks;
use crate::copies::{CopyScope, copies_rule, make_for_copies};
use crate::host_accesses::{access_of, make_for_host, meets_any, touch_by_host};
use crate::kept::Kept;
use crate::late::{Late, LateEvent, Taken};
use crate::made::{Made, copy_in, counts_in};
use crate::word_touches::{WordAccess, WordTouches};
use clocks::Clock;
use d3d_machine::{Call, Event, Lists, Operation, Record, World};
use dx_base::{AllocatorId, FenceId, ListId, Memory, QueueId, ResourceId, Seq};
use std::alloc::Global;
use verdicts::Rule;

/// The command lists of a run, its clocks, and who touched which words.
#[derive(Drop)]
pub(crate) struct JudgeParts {
    alloc: Global,
    lists: Lists,
    clocks: CarriedClocks,
    touches: WordTouches,
}

impl JudgeParts {
    /// The parts before any event.
    pub fn new(alloc: Global, world: &World) -> Result<JudgeParts, Memory>
        ensures { IfOk result (λ parts. Stands world.now [] parts) }
    {
        let queues = world.queues.len();
        let threads = world.scripts.len();
        Ok(JudgeParts {
            alloc,
            lists: Lists::new(alloc, world)?,
            clocks: CarriedClocks::new(alloc, world)?,
            touches: WordTouches::new(alloc, world.resources.as_slice(), queues, threads)?,
        })
    }

    /// A recording call of a thread.
    fn record(
        &mut self,
        kept: &Kept,
        world: &World,
        thread: u32,
        list: ListId,
        what: Record,
    ) -> Result<Option<Rule>, Memory>
        requires { TakesCall world.now kept.now.fed.history self.old thread (recording list what) }
        ensures found { IfOk result (λ rule. CallFound world.now kept.now.fed.history thread (recording list what) self.new rule) }
        ensures same { OnErr result (Stands world.now kept.now.fed.history self.new) }
    {
        self.lists.record(world, list, what)?;
        self.clocks.call(thread);
        Ok(None)
    }

    /// A thread closes a list.
    fn close(&mut self, kept: &Kept, world: &World, thread: u32, list: ListId) -> Option<Rule>
        requires { TakesCall world.now kept.now.fed.history self.old thread (closing list) }
        ensures { CallFound world.now kept.now.fed.history thread (closing list) self.new result }
    {
        let _closed = self.lists.close(list);
        self.clocks.call(thread);
        None
    }

    /// A thread resets a list.
    fn reset(
        &mut self,
        kept: &Kept,
        world: &World,
        thread: u32,
        list: ListId,
        allocator: AllocatorId,
    ) -> Option<Rule>
        requires { TakesCall world.now kept.now.fed.history self.old thread (resetting list allocator) }
        ensures { CallFound world.now kept.now.fed.history thread (resetting list allocator) self.new result }
    {
        let _reset = self.lists.reset(world, list, allocator);
        self.clocks.call(thread);
        None
    }

    /// A thread executes lists.
    fn execute(
        &mut self,
        kept: &Kept,
        world: &World,
        thread: u32,
        queue: QueueId,
        lists: &Seq<ListId>,
    ) -> Result<Option<Rule>, Memory>
        requires { TakesCall world.now kept.now.fed.history self.old thread (executing queue lists.now) }
        ensures found { IfOk result (λ rule. CallFound world.now kept.now.fed.history thread (executing queue lists.now) self.new rule) }
        ensures same { OnErr result (Stands world.now kept.now.fed.history self.new) }
    {
        self.clocks.make_room_for_work(queue.0)?;
        let clock = self.clocks.spare_clock(self.alloc)?;
        let commands = self
            .lists
            .gather(self.alloc, world, queue, lists.as_slice())?;
        match commands {
            Err(_) => self.clocks.call(thread),
            Ok(commands) => {
                self.clocks
                    .give(thread, queue.0, Operation::Execute { commands }, clock)
            }
        }
        Ok(None)
    }

    /// A thread has a queue signal a fence.
    fn signal(
        &mut self,
        kept: &Kept,
        world: &World,
        thread: u32,
        queue: QueueId,
        fence: FenceId,
        value: u64,
    ) -> Result<Option<Rule>, Memory>
        requires { TakesCall world.now kept.now.fed.history self.old thread (signalling queue fence value) }
        ensures found { IfOk result (λ rule. CallFound world.now kept.now.fed.history thread (signalling queue fence value) self.new rule) }
        ensures same { OnErr result (Stands world.now kept.now.fed.history self.new) }
    {
        self.clocks.make_room_for_work(queue.0)?;
        let clock = self.clocks.spare_clock(self.alloc)?;
        self.clocks
            .give(thread, queue.0, Operation::Signal { fence, value }, clock);
        Ok(None)
    }

    /// A thread sets a fence.
    fn set_fence(
        &mut self,
        kept: &Kept,
        world: &World,
        thread: u32,
        fence: FenceId,
        value: u64,
    ) -> Result<Option<Rule>, Memory>
        requires { TakesCall world.now kept.now.fed.history self.old thread (host_signalling fence value) }
        ensures found { IfOk result (λ rule. CallFound world.now kept.now.fed.history thread (host_signalling fence value) self.new rule) }
        ensures same { OnErr result (Stands world.now kept.now.fed.history self.new) }
    {
        self.clocks.make_room_for_update(fence.0)?;
        let clock = self.clocks.spare_clock(self.alloc)?;
        self.clocks.set_fence(thread, fence.0, value, clock);
        Ok(None)
    }

    /// A thread begins to wait on a fence.
    fn wait(
        &mut self,
        kept: &Kept,
        world: &World,
        thread: u32,
        fence: FenceId,
        value: u64,
    ) -> Option<Rule>
        requires { TakesCall world.now kept.now.fed.history self.old thread (host_waiting fence value) }
        ensures { CallFound world.now kept.now.fed.history thread (host_waiting fence value) self.new result }
    {
        self.clocks.wait(thread, fence.0, value);
        None
    }

    /// A thread asks a fence's value.
    fn ask(&mut self, kept: &Kept, world: &World, thread: u32, fence: FenceId) -> Option<Rule>
        requires { TakesCall world.now kept.now.fed.history self.old thread (asking fence) }
        ensures { CallFound world.now kept.now.fed.history thread (asking fence) self.new result }
    {
        self.clocks.ask(thread, fence.0);
        None
    }

    /// A host access of a thread, whose tables are made: B10, where it meets one that its call does not know. Where it
    /// breaks nothing, its words are touched.
    fn access(
        &mut self,
        kept: &Kept,
        world: &World,
        thread: u32,
        access: WordAccess,
    ) -> Option<Rule>
        requires opened { AreOpen world.now kept.now.fed.history self.old }
        requires thread { thread < length world.now.scripts }
        requires inside { IsIn (map traits_of world.now.resources) (range_by access) }
        requires tables { HasTablesOfThread self.old.touches.resources thread access }
        ensures { DeedFound world.now kept.now.fed.history thread (deed_by access) self.new result }
    {
        self.clocks.call(thread);
        let clock = self.clocks.thread_clock(thread);
        if meets_any(&self.touches, world, clock, access) {
            return Some(Rule::B10);
        }
        let number = self.clocks.last_call(thread);
        touch_by_host(&mut self.touches, world, thread, number, access);
        None
    }

    /// A thread is refused the writing of words of a buffer.
    fn refuse_write(
        &mut self,
        kept: &Kept,
        world: &World,
        thread: u32,
        buffer: ResourceId,
        offset: u64,
        words: &Seq<u32>,
    ) -> Option<Rule>
        requires takes { TakesCall world.now kept.now.fed.history self.old thread (writing buffer offset words.now) }
        requires refused { access_in world.now (writing buffer offset words.now) ≡ None }
        ensures { CallFound world.now kept.now.fed.history thread (writing buffer offset words.now) self.new result }
    {
        self.clocks.call(thread);
        None
    }

    /// A thread is refused the reading of words of a buffer.
    fn refuse_read(
        &mut self,
        kept: &Kept,
        world: &World,
        thread: u32,
        buffer: ResourceId,
        offset: u64,
        bytes: u64,
    ) -> Option<Rule>
        requires takes { TakesCall world.now kept.now.fed.history self.old thread (reading buffer offset bytes) }
        requires refused { access_in world.now (reading buffer offset bytes) ≡ None }
        ensures { CallFound world.now kept.now.fed.history thread (reading buffer offset bytes) self.new result }
    {
        self.clocks.call(thread);
        None
    }

    /// A thread makes a call that accesses no words.
    fn take_call(
        &mut self,
        kept: &Kept,
        world: &World,
        thread: u32,
        call: &Call,
    ) -> Result<Option<Rule>, Memory>
        requires takes { TakesCall world.now kept.now.fed.history self.old thread call.now }
        requires quiet { access_in world.now call.now ≡ None }
        ensures found { IfOk result (λ rule. CallFound world.now kept.now.fed.history thread call.now self.new rule) }
        ensures same { OnErr result (Stands world.now kept.now.fed.history self.new) }
    {
        match *call {
            Call::Recording { list, what } => self.record(kept, world, thread, list, what),
            Call::Close { list } => Ok(self.close(kept, world, thread, list)),
            Call::Reset { list, allocator } => {
                Ok(self.reset(kept, world, thread, list, allocator))
            }
            Call::Execute { queue, ref lists } => self.execute(kept, world, thread, queue, lists),
            Call::Signal {
                queue,
                fence,
                value,
            } => self.signal(kept, world, thread, queue, fence, value),
            Call::HostSignal { fence, value } => self.set_fence(kept, world, thread, fence, value),
            Call::HostWait { fence, value } => Ok(self.wait(kept, world, thread, fence, value)),
            Call::Value { fence } => Ok(self.ask(kept, world, thread, fence)),
            Call::Write {
                buffer,
                offset,
                ref words,
            } => Ok(self.refuse_write(kept, world, thread, buffer, offset, words)),
            Call::Read {
                buffer,
                offset,
                bytes,
            } => Ok(self.refuse_read(kept, world, thread, buffer, offset, bytes)),
        }
    }

    /// Takes the memory for the completion of the oldest operation of a queue. Refused, some may be taken.
    fn make_for_oldest(&mut self, kept: &Kept, world: &World, queue: u32) -> Result<(), Memory>
        requires { TakesQueue world.now kept.now.fed.history self.old queue }
        ensures ready { OnOk result (OldestIsReady world.now self.new queue) }
        ensures stands { Stands world.now kept.now.fed.history self.new }
        ensures furnishes { Furnishes self.old self.new }
    {
        match self.clocks.oldest(queue) {
            None => Ok(()),
            Some(Operation::Execute { commands }) => make_for_copies(
                self.alloc,
                &mut self.touches,
                world,
                queue,
                commands.as_slice(),
            ),
            Some(Operation::Signal { fence, value: _ }) => {
                let fence = fence.0;
                self.clocks.make_room_for_update(fence)
            }
        }
    }

    /// The oldest operation of a queue completes.
    fn take_queue(&mut self, kept: &Kept, world: &World, queue: u32) -> Result<Option<Rule>, Memory>
        requires { TakesQueue world.now kept.now.fed.history self.old queue }
        ensures found { IfOk result (λ rule. IsFound world.now kept.now.fed.history (completion_of queue) self.new rule) }
        ensures same { OnErr result (Stands world.now kept.now.fed.history self.new) }
    {
        self.make_for_oldest(kept, world, queue)?;
        let counts = self.clocks.counts(self.alloc)?;
        Ok(self.complete(kept, world, queue, &counts))
    }

    /// The oldest operation of a queue completes, for which memory was taken. `counts` are those before it.
    fn complete(&mut self, kept: &Kept, world: &World, queue: u32, counts: &Clock) -> Option<Rule>
        requires takes { TakesQueue world.now kept.now.fed.history self.old queue }
        requires ready { OldestIsReady world.now self.old queue }
        requires counts { counts.now ≡ self.old.clocks.ends }
        ensures { IsFound world.now kept.now.fed.history (completion_of queue) self.new result }
    {
        match self.clocks.complete(queue) {
            None => None,
            Some(
                Operation::Signal {
                    fence: _fence,
                    value: _value,
                },
            ) => None,
            Some(Operation::Execute { commands }) => {
                let scope = CopyScope {
                    clock: self.clocks.queue_clock(queue),
                    counts,
                    queue,
                    number: self.clocks.last_operation(queue),
                };
                copies_rule(&mut self.touches, world, &scope, commands.as_slice())
            }
        }
    }

    /// A thread goes on behind its wait.
    fn wake(&mut self, kept: &Kept, world: &World, thread: u32) -> Option<Rule>
        requires opened { AreOpen world.now kept.now.fed.history self.old }
        requires thread { thread < length world.now.scripts }
        ensures { IsFound world.now kept.now.fed.history (waking_of thread) self.new result }
    {
        self.clocks.wake(thread);
        None
    }

    /// Takes the memory for a call of a thread. Refused, some may be taken.
    fn make_for_call(
        &mut self,
        kept: &Kept,
        world: &World,
        thread: u32,
        call: &Call,
    ) -> Result<Made, Memory>
        requires { TakesCall world.now kept.now.fed.history self.old thread call.now }
        ensures made { IfOk result (λ made. IsMadeForCall self.new thread call.now made (access_in world.now call.now)) }
        ensures stands { Stands world.now kept.now.fed.history self.new }
        ensures furnishes { Furnishes self.old self.new }
    {
        match access_of(world, call) {
            Some(access) => {
                make_for_host(self.alloc, &mut self.touches, world, thread, access)?;
                Ok(Made::Tables)
            }
            None => Ok(Made::Copy(call.copied(self.alloc)?)),
        }
    }

    /// Takes the memory for the completion of the oldest operation of a queue. Refused, some may be taken.
    fn make_for_queue(&mut self, kept: &Kept, world: &World, queue: u32) -> Result<Made, Memory>
        requires { TakesQueue world.now kept.now.fed.history self.old queue }
        ensures made { IfOk result (λ made. IsMadeForOldest world.now self.new queue made) }
        ensures stands { Stands world.now kept.now.fed.history self.new }
        ensures furnishes { Furnishes self.old self.new }
    {
        self.make_for_oldest(kept, world, queue)?;
        Ok(Made::Counts(self.clocks.counts(self.alloc)?))
    }

    /// Takes all memory that an event needs. Refused, some may be taken.
    pub fn make(&mut self, kept: &Kept, world: &World, event: &Event) -> Result<Made, Memory>
        requires opened { AreOpen world.now kept.now.fed.history self.old }
        requires next { IsNext world.now kept.now.fed.history event.now }
        ensures made { IfOk result (λ made. IsMadeFor world.now self.new event.now made) }
        ensures stands { Stands world.now kept.now.fed.history self.new }
        ensures furnishes { Furnishes self.old self.new }
    {
        match event {
            Event::Call {
                thread,
                call,
                reply: _reply,
            } => self.make_for_call(kept, world, thread.0, call),
            Event::Awake(_thread) => Ok(Made::Tables),
            Event::Queue(queue) => self.make_for_queue(kept, world, queue.0),
        }
    }

    /// A thread makes a call, for which memory was taken.
    fn take_made_call(
        &mut self,
        kept: &Kept,
        world: &World,
        thread: u32,
        call: &Call,
        made: Made,
    ) -> Taken
        requires takes { TakesCall world.now kept.now.fed.history self.old thread call.now }
        requires made { IsMadeForCall self.old thread call.now made (access_in world.now call.now) }
        ensures { (reply : Reply) → IsTaken world.now kept.now.fed.history (call_of_thread thread call.now reply) self.new result }
    {
        match access_of(world, call) {
            Some(access) => {
                drop(made);
                Taken::Told(self.access(kept, world, thread, access))
            }
            None => Taken::Later(LateEvent::Call {
                thread,
                call: copy_in(made),
            }),
        }
    }

    /// The oldest operation of a queue completes, for which memory was taken.
    fn take_made_queue(&mut self, kept: &Kept, world: &World, queue: u32, made: Made) -> Taken
        requires takes { TakesQueue world.now kept.now.fed.history self.old queue }
        requires made { IsMadeForOldest world.now self.old queue made }
        ensures { IsTaken world.now kept.now.fed.history (completion_of queue) self.new result }
    {
        if self.clocks.completes_execute(queue) {
            let counts = counts_in(made);
            return Taken::Told(self.complete(kept, world, queue, &counts));
        }
        drop(made);
        Taken::Later(LateEvent::Completion(queue))
    }

    /// An event for which memory was taken: the first rule that it breaks, where it breaks one, or that it breaks none and
    /// is taken later.
    pub fn take(&mut self, kept: &Kept, world: &World, event: &Event, made: Made) -> Taken
        requires opened { AreOpen world.now kept.now.fed.history self.old }
        requires next { IsNext world.now kept.now.fed.history event.now }
        requires made { IsMadeFor world.now self.old event.now made }
        ensures { IsTaken world.now kept.now.fed.history event.now self.new result }
    {
        match event {
            Event::Call {
                thread,
                call,
                reply: _reply,
            } => self.take_made_call(kept, world, thread.0, call, made),
            Event::Awake(thread) => {
                drop(made);
                Taken::Told(self.wake(kept, world, thread.0))
            }
            Event::Queue(queue) => self.take_made_queue(kept, world, queue.0, made),
        }
    }

    /// An event that was not taken yet. Refused for memory, the parts stand where they stood.
    pub fn take_late(&mut self, world: &World, late: &Late) -> Result<Option<Rule>, Memory>
        requires { TakesLate world.now late.now.before.fed.history self.old late.now.what }
        ensures found { IfOk result (λ rule. LateFound world.now late.now.before.fed.history late.now.what self.new rule) }
        ensures same { OnErr result (Stands world.now late.now.before.fed.history self.new) }
    {
        match late.what {
            LateEvent::Call { thread, ref call } => {
                self.take_call(&late.before, world, thread, call)
            }
            LateEvent::Completion(queue) => self.take_queue(&late.before, world, queue),
        }
    }
}
