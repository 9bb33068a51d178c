//! The copies of an execute, by the tables of what was touched before.
//!
//! Of copies alone there are no barriers and no textures. So no rule of barriers is tested here (B4 and B5), and no
//! lost word (B12), and an access that meets an earlier one of its scope is covered by nothing (B2).

ghost use Rattle.std.specs.Prelude.{◌≡◌, ◌<◌, ◌&&◌, ◌||◌, nat_lt, [], ◌∷◌, map, length, not, false, OnOk};
ghost use Rattle.dx_base.specs.Each.{Each};
ghost use Rattle.dx_flags.specs.declared.atoms.Kind.TheVariants.{CopySource, CopyDest};
ghost use Rattle.dx_flags.specs.declared.layouts.Layout.TheVariants.{Common};
ghost use Rattle.clocks.specs.Clocks.{OfQueue};
ghost use Rattle.d3d_machine.specs.World.{resource_of, words_in};
ghost use Rattle.d3d_judge.specs.Commands.{command_of};
ghost use Rattle.d3d_judge.specs.Scopes.{home_allows};
ghost use Rattle.d3d_judge.specs.Setting.{traits_of};
ghost use Rattle.d3d_judge.specs.CopyScopes.{words_from, words_to, range_by, AreIn, IsIn, IsCopyReady, AreCopiesReady, JudgesCopies, BreaksState, refuses_kind, CanAsk, CanAdd, IsShapedFor, AreSmall, least_of};
ghost use Rattle.d3d_judge.specs.WordTouches.{words_at, after_scope_at, TellsOne, TellsTen, HaveOneMore, HasTablesOfQueue, KeepAllTies, KeepTables};

use crate::word_touches::{WordAccess, WordTouches};
use clocks::Clock;
use d3d_machine::{Command, Record, Resource, World};
use dx_base::{Home, Memory, ResourceId};
use std::alloc::Global;
use verdicts::Rule;

/// The scope of an execute: its clock with its own number, what was complete before it, its queue and its number.
#[derive(Clone, Copy)]
pub(crate) struct CopyScope<'a> {
    pub clock: &'a Clock,
    pub counts: &'a Clock,
    pub queue: u32,
    pub number: u64,
}

/// What a copy reads.
fn read_words(what: Record) -> WordAccess
    ensures { result ≡ words_from what }
{
    match what {
        Record::Copy {
            to: _,
            to_offset: _,
            from,
            from_offset,
            bytes,
        } => WordAccess {
            resource: from.0,
            sub: 0,
            first: (from_offset / 4) as usize,
            words: (bytes / 4) as usize,
            writes: false,
        },
    }
}

/// What a copy writes.
fn written_words(what: Record) -> WordAccess
    ensures { result ≡ words_to what }
{
    match what {
        Record::Copy {
            to,
            to_offset,
            from: _,
            from_offset: _,
            bytes,
        } => WordAccess {
            resource: to.0,
            sub: 0,
            first: (to_offset / 4) as usize,
            words: (bytes / 4) as usize,
            writes: true,
        },
    }
}

/// The least rule of those whose tests hold.
fn least_rule(one: bool, two: bool, three: bool, ten: bool) -> Option<Rule>
    ensures { result ≡ least_of one two three ten }
{
    if one {
        Some(Rule::B1)
    } else if two {
        Some(Rule::B2)
    } else if three {
        Some(Rule::B3)
    } else if ten {
        Some(Rule::B10)
    } else {
        None
    }
}

/// Whether one of two holds.
fn either(a: bool, b: bool) -> bool
    ensures { result ≡ (a || b) }
{
    a || b
}

/// Whether buffers of a home are in a state that refuses copies from them.
fn refuses_reads(home: Home) -> bool
    ensures { result ≡ not (home_allows home false false Common CopySource) }
{
    match home {
        Home::Readback => true,
        Home::Upload | Home::Legacy | Home::Enhanced => false,
    }
}

/// Whether buffers of a home are in a state that refuses copies to them.
fn refuses_writes(home: Home) -> bool
    ensures { result ≡ not (home_allows home false false Common CopyDest) }
{
    match home {
        Home::Upload => true,
        Home::Readback | Home::Legacy | Home::Enhanced => false,
    }
}

/// Whether the state of a resource refuses copies from it.
fn is_unreadable(world: &World, from: ResourceId) -> bool
    ensures { result ≡ refuses_kind (resource_of world.now from.0) CopySource }
{
    match world.resource(from) {
        Some(Resource::Buffer { home, words: _ }) => refuses_reads(home),
        None => false,
    }
}

/// Whether the state of a resource refuses copies to it.
fn is_unwritable(world: &World, to: ResourceId) -> bool
    ensures { result ≡ refuses_kind (resource_of world.now to.0) CopyDest }
{
    match world.resource(to) {
        Some(Resource::Buffer { home, words: _ }) => refuses_writes(home),
        None => false,
    }
}

/// Whether the state of a resource does not allow a copy: B3.
fn breaks_state(world: &World, what: Record) -> bool
    ensures { BreaksState world.now what result }
{
    let from = read_words(what);
    let to = written_words(what);
    let unreadable = is_unreadable(world, ResourceId(from.resource));
    let unwritable = is_unwritable(world, ResourceId(to.resource));
    is_some_refused(from.words, unreadable, unwritable)
}

/// Whether there are words, and one of two accesses of them is refused.
fn is_some_refused(words: usize, unreadable: bool, unwritable: bool) -> bool
    ensures { result ≡ (nat_lt 0 words && (unreadable || unwritable)) }
{
    words > 0 && (unreadable || unwritable)
}

/// Whether an access meets one of an operation that a clock does not know.
fn meets_operation(touches: &WordTouches, world: &World, clock: &Clock, access: WordAccess) -> bool
    requires { CanAsk world.now touches.now.resources clock.now access }
    ensures { TellsOne touches.now.resources clock.now access result }
{
    touches.breaks_one(clock, access)
}

/// Whether an access meets one of a call that a clock does not know.
fn meets_call(touches: &WordTouches, world: &World, clock: &Clock, access: WordAccess) -> bool
    requires { CanAsk world.now touches.now.resources clock.now access }
    ensures { TellsTen touches.now.resources clock.now access result }
{
    touches.breaks_ten(clock, access)
}

/// An operation of a queue accesses words.
fn touch(touches: &mut WordTouches, world: &World, queue: u32, number: u64, access: WordAccess)
    requires { CanAdd world.now touches.old.resources queue access }
    ensures resources { touches.new.resources ≡ after_scope_at queue number access touches.old.resources }
    ensures ties { HaveOneMore touches.old.resources (OfQueue queue number) access touches.new.resources }
{
    touches.add_scope(queue, number, access);
}

/// The least rule that a copy of a scope breaks. Where it breaks none, its words are touched.
fn copy_rule(
    touches: &mut WordTouches,
    world: &World,
    scope: &CopyScope<'_>,
    what: Record,
) -> Option<Rule>
    requires { AreCopiesReady world.now touches.old.resources scope.now.clock.now scope.now.counts.now scope.now.queue (what ∷ []) }
    ensures rule { JudgesCopies world.now touches.old.resources scope.now.clock.now scope.now.counts.now scope.now.queue scope.now.number (what ∷ []) touches.new.resources result }
    ensures resources { touches.new.resources ≡ after_scope_at scope.now.queue scope.now.number (words_to what) (after_scope_at scope.now.queue scope.now.number (words_from what) touches.old.resources) }
{
    let from = read_words(what);
    let to = written_words(what);
    let one_from = meets_operation(touches, world, scope.clock, from);
    let one_to = meets_operation(touches, world, scope.clock, to);
    let ten_from = meets_call(touches, world, scope.clock, from);
    let ten_to = meets_call(touches, world, scope.clock, to);
    let three = breaks_state(world, what);
    // All that was complete before is known to the counts: what is not is of this scope.
    let two_from = meets_operation(touches, world, scope.counts, from);
    touch(touches, world, scope.queue, scope.number, from);
    let two_to = meets_operation(touches, world, scope.counts, to);
    touch(touches, world, scope.queue, scope.number, to);
    let one = either(one_from, one_to);
    let two = either(two_from, two_to);
    let ten = either(ten_from, ten_to);
    least_rule(one, two, three, ten)
}

/// The rule that the copies of a scope break: the least at the first that breaks one. Where they break none, their
/// words are touched.
pub(crate) fn copies_rule(
    touches: &mut WordTouches,
    world: &World,
    scope: &CopyScope<'_>,
    commands: &[Command],
) -> Option<Rule>
    requires { AreCopiesReady world.now touches.old.resources scope.now.clock.now scope.now.counts.now scope.now.queue (map (λ c. c.what) commands.now) }
    ensures rule { JudgesCopies world.now touches.old.resources scope.now.clock.now scope.now.counts.now scope.now.queue scope.now.number (map (λ c. c.what) commands.now) touches.new.resources result }
    ensures shaped { IsShapedFor world.now touches.new.resources }
{
    for command in commands {
        let rule = copy_rule(touches, world, scope, command.what);
        if rule.is_some() {
            return rule;
        }
    }
    None
}

/// The words of a buffer; 0 where it is dead.
fn size_of(world: &World, resource: u32) -> usize
    ensures { result ≡ words_in world.now resource }
{
    match world.resource(ResourceId(resource)) {
        Some(Resource::Buffer { home: _, words }) => words as usize,
        None => 0,
    }
}

/// The words of the only subresource of a buffer.
#[tactic(auto, using(crate::proofs::CopyRules::words_are))]
pub(crate) fn words_of(world: &World, resource: u32) -> usize
    ensures { result ≡ words_at (map traits_of world.now.resources) resource 0 }
{
    size_of(world, resource)
}

/// Makes the tables for words of a buffer that an operation of a queue accesses, where there are none. Refused, some
/// may be made.
fn make_for_words(
    alloc: Global,
    touches: &mut WordTouches,
    world: &World,
    queue: u32,
    access: WordAccess,
) -> Result<(), Memory>
    requires small { AreSmall world.now }
    requires shaped { IsShapedFor world.now touches.old.resources }
    requires queue { queue < length world.now.queues }
    requires sub { access.sub ≡ 0 }
    requires inside { IsIn (map traits_of world.now.resources) (range_by access) }
    ensures tables { OnOk result (HasTablesOfQueue touches.new.resources queue access) }
    ensures ties { KeepAllTies touches.old.resources touches.new.resources }
    ensures kept { KeepTables touches.old.resources touches.new.resources }
    ensures shaped { IsShapedFor world.now touches.new.resources }
{
    let words = words_of(world, access.resource);
    touches.make_for_scope(alloc, queue, access, words)
}

/// Makes the tables for the words of a copy.
fn make_for_copy(
    alloc: Global,
    touches: &mut WordTouches,
    world: &World,
    queue: u32,
    what: Record,
) -> Result<(), Memory>
    requires small { AreSmall world.now }
    requires shaped { IsShapedFor world.now touches.old.resources }
    requires queue { queue < length world.now.queues }
    requires inside { AreIn (map traits_of world.now.resources) (command_of what) }
    ensures ready { OnOk result (IsCopyReady world.now touches.new.resources queue what) }
    ensures ties { KeepAllTies touches.old.resources touches.new.resources }
    ensures kept { KeepTables touches.old.resources touches.new.resources }
    ensures shaped { IsShapedFor world.now touches.new.resources }
{
    make_for_words(alloc, touches, world, queue, read_words(what))?;
    make_for_words(alloc, touches, world, queue, written_words(what))
}

/// Makes the tables for the words of the copies of an operation of a queue, where there are none. Refused, some may be
/// made.
pub(crate) fn make_for_copies(
    alloc: Global,
    touches: &mut WordTouches,
    world: &World,
    queue: u32,
    commands: &[Command],
) -> Result<(), Memory>
    requires small { AreSmall world.now }
    requires shaped { IsShapedFor world.now touches.old.resources }
    requires queue { queue < length world.now.queues }
    requires inside { Each (λ c. AreIn (map traits_of world.now.resources) (command_of c.what)) commands.now }
    ensures ready { OnOk result (Each (λ c. IsCopyReady world.now touches.new.resources queue c.what) commands.now) }
    ensures ties { KeepAllTies touches.old.resources touches.new.resources }
    ensures kept { KeepTables touches.old.resources touches.new.resources }
    ensures shaped { IsShapedFor world.now touches.new.resources }
{
    for command in commands {
        make_for_copy(alloc, touches, world, queue, command.what)?;
    }
    Ok(())
}
