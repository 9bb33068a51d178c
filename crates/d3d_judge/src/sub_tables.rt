//! Who touched the words of one subresource.

ghost use Rattle.std.specs.Prelude.{◌≡◌, ◌<◌, ◌≤◌, ◌^◌, length, IfOk, OnOk};
ghost use Rattle.d3d_judge.specs.Tables.{any_below};
ghost use Rattle.d3d_judge.specs.ActorTables.{actor_above, AreMade};
ghost use Rattle.d3d_judge.specs.SubTables.{scopes_against, calls_against, no_touches, after_scope, after_call, KeepTies, KeepShape, KeepSubTables, HasActors};

use crate::actor_tables::{make_at, no_tables, raise_at, some_above};
use clocks::Clock;
use dx_base::{Memory, Seq};
use std::alloc::Global;
use word_trees::Table;

/// Of one subresource, the greatest number at each word of the operations of each queue and of the calls of
/// each thread: of writes, with which a later read conflicts, and of all touches, with which a later write
/// conflicts.
#[derive(Drop)]
pub(crate) struct SubTables {
    queue_writes: Seq<Option<Table>>,
    queue_touches: Seq<Option<Table>>,
    thread_writes: Seq<Option<Table>>,
    thread_touches: Seq<Option<Table>>,
}

impl SubTables {
    /// Of a subresource that nobody touched.
    pub fn new(alloc: Global, queues: usize, threads: usize) -> Result<SubTables, Memory>
        ensures { IfOk result (λ tables. tables ≡ no_touches queues threads) }
    {
        Ok(SubTables {
            queue_writes: no_tables(alloc, queues)?,
            queue_touches: no_tables(alloc, queues)?,
            thread_writes: no_tables(alloc, threads)?,
            thread_touches: no_tables(alloc, threads)?,
        })
    }

    /// Whether an operation that a clock does not know conflicts with a read, or write, of words.
    pub fn has_unknown_scope(&self, clock: &Clock, writes: bool, first: usize, end: usize) -> bool
        requires { HasActors (length clock.now.queues) (length clock.now.threads) self.now }
        ensures { result ≡ any_below (length clock.now.queues) (actor_above (scopes_against writes self.now) clock.now.queues first end) }
    {
        if writes {
            some_above(&self.queue_touches, &clock.queues, first, end)
        } else {
            some_above(&self.queue_writes, &clock.queues, first, end)
        }
    }

    /// Whether a call that a clock does not know conflicts with a read, or write, of words.
    pub fn has_unknown_call(&self, clock: &Clock, writes: bool, first: usize, end: usize) -> bool
        requires { HasActors (length clock.now.queues) (length clock.now.threads) self.now }
        ensures { result ≡ any_below (length clock.now.threads) (actor_above (calls_against writes self.now) clock.now.threads first end) }
    {
        if writes {
            some_above(&self.thread_touches, &clock.threads, first, end)
        } else {
            some_above(&self.thread_writes, &clock.threads, first, end)
        }
    }

    /// An operation of a queue reads, or writes, words.
    pub fn add_scope(&mut self, queue: u32, writes: bool, first: usize, end: usize, number: u64)
        requires written { queue < length self.old.queue_writes }
        requires touched { queue < length self.old.queue_touches }
        ensures { self.new ≡ after_scope queue writes first end number self.old }
    {
        raise_at(&mut self.queue_touches, queue as usize, first, end, number);
        if writes {
            raise_at(&mut self.queue_writes, queue as usize, first, end, number);
        }
    }

    /// A call of a thread reads, or writes, words.
    pub fn add_call(&mut self, thread: u32, writes: bool, first: usize, end: usize, number: u64)
        requires written { thread < length self.old.thread_writes }
        requires touched { thread < length self.old.thread_touches }
        ensures { self.new ≡ after_call thread writes first end number self.old }
    {
        raise_at(
            &mut self.thread_touches,
            thread as usize,
            first,
            end,
            number,
        );
        if writes {
            raise_at(&mut self.thread_writes, thread as usize, first, end, number);
        }
    }

    /// Makes the tables of a queue, where there are none. Refused, some may be made.
    pub fn make_for_scope(&mut self, alloc: Global, queue: u32, words: usize) -> Result<(), Memory>
        requires written { queue < length self.old.queue_writes }
        requires touched { queue < length self.old.queue_touches }
        requires words { words ≤ 2 ^ 20 }
        ensures writes { OnOk result (AreMade words self.old.queue_writes queue self.new.queue_writes) }
        ensures touches { OnOk result (AreMade words self.old.queue_touches queue self.new.queue_touches) }
        ensures ties { KeepTies self.old self.new }
        ensures shape { KeepShape words self.old self.new }
        ensures tables { KeepSubTables self.old self.new }
    {
        make_at(alloc, &mut self.queue_writes, queue as usize, words)?;
        make_at(alloc, &mut self.queue_touches, queue as usize, words)
    }

    /// Makes the tables of a thread, where there are none. Refused, some may be made.
    pub fn make_for_call(&mut self, alloc: Global, thread: u32, words: usize) -> Result<(), Memory>
        requires written { thread < length self.old.thread_writes }
        requires touched { thread < length self.old.thread_touches }
        requires words { words ≤ 2 ^ 20 }
        ensures writes { OnOk result (AreMade words self.old.thread_writes thread self.new.thread_writes) }
        ensures touches { OnOk result (AreMade words self.old.thread_touches thread self.new.thread_touches) }
        ensures ties { KeepTies self.old self.new }
        ensures shape { KeepShape words self.old self.new }
        ensures tables { KeepSubTables self.old self.new }
    {
        make_at(alloc, &mut self.thread_writes, thread as usize, words)?;
        make_at(alloc, &mut self.thread_touches, thread as usize, words)
    }
}
