//! Who touched the words of all resources.

ghost use Rattle.std.specs.Prelude.{◌≡◌, ◌<◌, ◌≤◌, ◌+◌, ◌^◌, length, IfOk, OnOk, map};
ghost use Rattle.dx_base.specs.Each.{Each};
ghost use Rattle.dx_base.specs.Lists.{changed_at};
ghost use Rattle.clocks.specs.Clocks.{OfQueue, OfThread};
ghost use Rattle.d3d_judge.specs.Setting.{traits_of};
ghost use Rattle.d3d_judge.specs.SubTables.{no_touches, after_scope, after_call};
ghost use Rattle.d3d_judge.specs.WordTouches.{HasSub, HaveActors, HasQueue, HasThread, HaveQueue, HaveThread, TellsOne, TellsTen, HaveOneMore, HasTablesOfQueue, HasTablesOfThread, TellsHost, untouched, after_scope_at, after_call_at, KeepAllTies, KeepTables, KeepShapes, IsWideAt, SubKept, AreQueuesMade, AreThreadsMade};

use crate::sub_tables::SubTables;
use clocks::Clock;
use d3d_machine::Resource;
use dx_base::{Memory, Seq};
use std::alloc::Global;

/// Words of one subresource that are read, or written.
#[derive(Clone, Copy)]
pub(crate) struct WordAccess {
    pub resource: u32,
    pub sub: u32,
    pub first: usize,
    pub words: usize,
    pub writes: bool,
}

/// The tables of each subresource of each resource.
#[derive(Drop)]
pub(crate) struct WordTouches {
    resources: Seq<Seq<SubTables>>,
}

impl WordTouches {
    /// Of resources whose words nobody touched.
    pub fn new(
        alloc: Global,
        resources: &[Option<Resource>],
        queues: usize,
        threads: usize,
    ) -> Result<WordTouches, Memory>
        ensures { IfOk result (λ touches. touches.resources ≡ untouched queues threads (map traits_of resources.now)) }
    {
        let mut all = Seq::new(alloc);
        for resource in resources {
            all.push(tables_of(alloc, *resource, queues, threads)?)?;
        }
        Ok(WordTouches { resources: all })
    }

    /// Whether an access of the host meets one that a clock does not know, and conflicts with it: B10 of the
    /// host.
    pub fn breaks_host(&self, clock: &Clock, access: WordAccess) -> bool
        requires sub { HasSub self.now.resources access.resource access.sub }
        requires actors { HaveActors (length clock.now.queues) (length clock.now.threads) self.now.resources }
        requires small { access.first + access.words < 2 ^ 63 }
        ensures { TellsHost self.now.resources clock.now access result }
    {
        let scope = self.breaks_one(clock, access);
        let call = self.breaks_ten(clock, access);
        scope || call
    }

    /// Whether an access meets one of an operation that a clock does not know, and conflicts with it: B1.
    pub fn breaks_one(&self, clock: &Clock, access: WordAccess) -> bool
        requires sub { HasSub self.now.resources access.resource access.sub }
        requires actors { HaveActors (length clock.now.queues) (length clock.now.threads) self.now.resources }
        requires small { access.first + access.words < 2 ^ 63 }
        ensures { TellsOne self.now.resources clock.now access result }
    {
        let resource = self.resources.at(access.resource as usize);
        let sub = resource.at(access.sub as usize);
        let end = access.first + access.words;
        sub.has_unknown_scope(clock, access.writes, access.first, end)
    }

    /// Whether an access meets one of a call that a clock does not know, and conflicts with it: B10.
    pub fn breaks_ten(&self, clock: &Clock, access: WordAccess) -> bool
        requires sub { HasSub self.now.resources access.resource access.sub }
        requires actors { HaveActors (length clock.now.queues) (length clock.now.threads) self.now.resources }
        requires small { access.first + access.words < 2 ^ 63 }
        ensures { TellsTen self.now.resources clock.now access result }
    {
        let resource = self.resources.at(access.resource as usize);
        let sub = resource.at(access.sub as usize);
        let end = access.first + access.words;
        sub.has_unknown_call(clock, access.writes, access.first, end)
    }

    /// An operation of a queue accesses words.
    pub fn add_scope(&mut self, queue: u32, number: u64, access: WordAccess)
        requires sub { HasSub self.old.resources access.resource access.sub }
        requires actors { HaveQueue queue self.old.resources }
        requires small { access.first + access.words < 2 ^ 63 }
        requires tables { HasTablesOfQueue self.old.resources queue access }
        ensures resources { self.new.resources ≡ after_scope_at queue number access self.old.resources }
        ensures ties { HaveOneMore self.old.resources (OfQueue queue number) access self.new.resources }
    {
        add_scope_at(&mut self.resources, queue, number, access);
    }

    /// A call of a thread accesses words.
    pub fn add_call(&mut self, thread: u32, number: u64, access: WordAccess)
        requires sub { HasSub self.old.resources access.resource access.sub }
        requires actors { HaveThread thread self.old.resources }
        requires small { access.first + access.words < 2 ^ 63 }
        requires tables { HasTablesOfThread self.old.resources thread access }
        ensures resources { self.new.resources ≡ after_call_at thread number access self.old.resources }
        ensures ties { HaveOneMore self.old.resources (OfThread thread number) access self.new.resources }
    {
        add_call_at(&mut self.resources, thread, number, access);
    }

    /// Makes the tables for what an operation of a queue accesses, where there are none. Refused, some may be made.
    pub fn make_for_scope(
        &mut self,
        alloc: Global,
        queue: u32,
        access: WordAccess,
        words: usize,
    ) -> Result<(), Memory>
        requires sub { HasSub self.old.resources access.resource access.sub }
        requires actors { HaveQueue queue self.old.resources }
        requires wide { IsWideAt self.old.resources access words }
        requires inside { access.first + access.words ≤ words }
        requires words { words ≤ 2 ^ 20 }
        ensures tables { OnOk result (HasTablesOfQueue self.new.resources queue access) }
        ensures ties { KeepAllTies self.old.resources self.new.resources }
        ensures shapes { KeepShapes access.resource access.sub words self.old.resources self.new.resources }
        ensures kept { KeepTables self.old.resources self.new.resources }
    {
        make_for_scope_at(alloc, &mut self.resources, queue, access, words)
    }

    /// Makes the tables for what a call of a thread accesses, where there are none. Refused, some may be made.
    pub fn make_for_call(
        &mut self,
        alloc: Global,
        thread: u32,
        access: WordAccess,
        words: usize,
    ) -> Result<(), Memory>
        requires sub { HasSub self.old.resources access.resource access.sub }
        requires actors { HaveThread thread self.old.resources }
        requires wide { IsWideAt self.old.resources access words }
        requires inside { access.first + access.words ≤ words }
        requires words { words ≤ 2 ^ 20 }
        ensures tables { OnOk result (HasTablesOfThread self.new.resources thread access) }
        ensures ties { KeepAllTies self.old.resources self.new.resources }
        ensures shapes { KeepShapes access.resource access.sub words self.old.resources self.new.resources }
        ensures kept { KeepTables self.old.resources self.new.resources }
    {
        make_for_call_at(alloc, &mut self.resources, thread, access, words)
    }
}

/// An operation of a queue accesses words of a resource.
fn add_scope_at(resources: &mut Seq<Seq<SubTables>>, queue: u32, number: u64, access: WordAccess)
    requires sub { HasSub resources.old access.resource access.sub }
    requires actors { HaveQueue queue resources.old }
    requires small { access.first + access.words < 2 ^ 63 }
    requires tables { HasTablesOfQueue resources.old queue access }
    ensures resources { resources.new ≡ after_scope_at queue number access resources.old }
    ensures ties { HaveOneMore resources.old (OfQueue queue number) access resources.new }
{
    let subs = resources.at_mut(access.resource as usize);
    add_scope_to(subs, queue, number, access);
}

/// An operation of a queue accesses words of a subresource.
fn add_scope_to(subs: &mut Seq<SubTables>, queue: u32, number: u64, access: WordAccess)
    requires sub { access.sub < length subs.old }
    requires actors { Each (HasQueue queue) subs.old }
    requires small { access.first + access.words < 2 ^ 63 }
    ensures { subs.new ≡ changed_at (after_scope queue access.writes access.first (access.first + access.words) number) access.sub subs.old }
{
    let end = access.first + access.words;
    subs.at_mut(access.sub as usize)
        .add_scope(queue, access.writes, access.first, end, number);
}

/// A call of a thread accesses words of a resource.
fn add_call_at(resources: &mut Seq<Seq<SubTables>>, thread: u32, number: u64, access: WordAccess)
    requires sub { HasSub resources.old access.resource access.sub }
    requires actors { HaveThread thread resources.old }
    requires small { access.first + access.words < 2 ^ 63 }
    requires tables { HasTablesOfThread resources.old thread access }
    ensures resources { resources.new ≡ after_call_at thread number access resources.old }
    ensures ties { HaveOneMore resources.old (OfThread thread number) access resources.new }
{
    let subs = resources.at_mut(access.resource as usize);
    add_call_to(subs, thread, number, access);
}

/// A call of a thread accesses words of a subresource.
fn add_call_to(subs: &mut Seq<SubTables>, thread: u32, number: u64, access: WordAccess)
    requires sub { access.sub < length subs.old }
    requires actors { Each (HasThread thread) subs.old }
    requires small { access.first + access.words < 2 ^ 63 }
    ensures { subs.new ≡ changed_at (after_call thread access.writes access.first (access.first + access.words) number) access.sub subs.old }
{
    let end = access.first + access.words;
    subs.at_mut(access.sub as usize)
        .add_call(thread, access.writes, access.first, end, number);
}

/// The tables of a resource: a live one is a buffer, and has one subresource.
fn tables_of(
    alloc: Global,
    resource: Option<Resource>,
    queues: usize,
    threads: usize,
) -> Result<Seq<SubTables>, Memory>
    ensures { IfOk result (λ subs. subs ≡ map (λ _. no_touches queues threads) (traits_of resource).subs) }
{
    let mut subs = Seq::new(alloc);
    if resource.is_some() {
        subs.push(SubTables::new(alloc, queues, threads)?)?;
    }
    Ok(subs)
}

/// Makes the tables for what an operation of a queue accesses in a resource.
fn make_for_scope_at(
    alloc: Global,
    resources: &mut Seq<Seq<SubTables>>,
    queue: u32,
    access: WordAccess,
    words: usize,
) -> Result<(), Memory>
    requires sub { HasSub resources.old access.resource access.sub }
    requires actors { HaveQueue queue resources.old }
    requires wide { IsWideAt resources.old access words }
    requires inside { access.first + access.words ≤ words }
    requires words { words ≤ 2 ^ 20 }
    ensures tables { OnOk result (HasTablesOfQueue resources.new queue access) }
    ensures ties { KeepAllTies resources.old resources.new }
    ensures shapes { KeepShapes access.resource access.sub words resources.old resources.new }
    ensures kept { KeepTables resources.old resources.new }
{
    let subs = resources.at_mut(access.resource as usize);
    make_for_scope_in(alloc, subs, queue, access, words)
}

/// Makes the tables for what an operation of a queue accesses in a subresource.
fn make_for_scope_in(
    alloc: Global,
    subs: &mut Seq<SubTables>,
    queue: u32,
    access: WordAccess,
    words: usize,
) -> Result<(), Memory>
    requires sub { access.sub < length subs.old }
    requires actors { Each (HasQueue queue) subs.old }
    requires words { words ≤ 2 ^ 20 }
    ensures kept { SubKept words access.sub subs.old subs.new }
    ensures made { OnOk result (AreQueuesMade words queue access.sub subs.old subs.new) }
{
    subs.at_mut(access.sub as usize)
        .make_for_scope(alloc, queue, words)
}

/// Makes the tables for what a call of a thread accesses in a resource.
fn make_for_call_at(
    alloc: Global,
    resources: &mut Seq<Seq<SubTables>>,
    thread: u32,
    access: WordAccess,
    words: usize,
) -> Result<(), Memory>
    requires sub { HasSub resources.old access.resource access.sub }
    requires actors { HaveThread thread resources.old }
    requires wide { IsWideAt resources.old access words }
    requires inside { access.first + access.words ≤ words }
    requires words { words ≤ 2 ^ 20 }
    ensures tables { OnOk result (HasTablesOfThread resources.new thread access) }
    ensures ties { KeepAllTies resources.old resources.new }
    ensures shapes { KeepShapes access.resource access.sub words resources.old resources.new }
    ensures kept { KeepTables resources.old resources.new }
{
    let subs = resources.at_mut(access.resource as usize);
    make_for_call_in(alloc, subs, thread, access, words)
}

/// Makes the tables for what a call of a thread accesses in a subresource.
fn make_for_call_in(
    alloc: Global,
    subs: &mut Seq<SubTables>,
    thread: u32,
    access: WordAccess,
    words: usize,
) -> Result<(), Memory>
    requires sub { access.sub < length subs.old }
    requires actors { Each (HasThread thread) subs.old }
    requires words { words ≤ 2 ^ 20 }
    ensures kept { SubKept words access.sub subs.old subs.new }
    ensures made { OnOk result (AreThreadsMade words thread access.sub subs.old subs.new) }
{
    subs.at_mut(access.sub as usize)
        .make_for_call(alloc, thread, words)
}
