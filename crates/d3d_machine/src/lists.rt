//! The command lists of a run, and the calls on them.

ghost use Rattle.std.specs.Prelude.{◌≡◌, ◌<◌, ◌==◌, ◌-◌, ◌++◌, map, length, slice_get, not, Some, None, IfOk, OnOk, OnErr};
ghost use Rattle.std.specs.List.{list_all, list_any};
ghost use Rattle.std.specs.Option.{option_copied};
ghost use Rattle.std.specs.Result.{result_err};
ghost use Rattle.dx_base.specs.Lists.{changed_at};
ghost use Rattle.d3d_machine.specs.declared.calls.Reply.TheVariants.{Done as done};
ghost use Rattle.d3d_machine.specs.State.{declared_list, list_of, is_recording, is_closed_state};
ghost use Rattle.d3d_machine.specs.Replies.{records_from, reply_or, same_types, is_fit as fits};
ghost use Rattle.d3d_machine.specs.Effects.{recorded, begun};
ghost use Rattle.d3d_machine.specs.Recorders.{recorder_of, released, taken};
ghost use Rattle.d3d_machine.specs.Lists.{ended, record_refusal, lists_after_record, close_refusal, lists_after_close, reset_refusal, lists_after_reset, execute_refusal, answer_or, commands_of, closed_commands};

use crate::calls::{Record, Reply};
use crate::checks::are_same_types;
use crate::events::{Command, ListState, Listed};
use crate::world::World;
use dx_base::{AllocatorId, Hresult, ListId, ListType, Memory, QueueId, Seq};
use std::alloc::Global;
use std::marker::Model;

/// All command lists, and for each allocator how many of them record from it.
#[derive(Debug, Drop)]
pub struct Lists {
    lists: Seq<Listed>,
    recorders: Seq<u32>,
}

impl Model for Lists {
    ghost use Rattle.std.specs.Prelude.{List};
    ghost use Rattle.d3d_machine.specs.declared.events.Listed.{Listed};
    ghost use Rattle.d3d_machine.specs.Recorders.{CountsRecorders};

    ghost Value = { List Listed };

    ghost view = { λ it. it.lists };

    ghost invariant = { λ it. CountsRecorders it.recorders it.lists };
}

impl Lists {
    /// The lists of a world, each as it is declared.
    #[tactic(auto, using(crate::proofs::Recorders::counts_declared))]
    pub fn new(alloc: Global, world: &World) -> Result<Lists, Memory>
        ensures { IfOk result (λ lists. lists ≡ map (λ _. declared_list) world.now.lists) }
    {
        let lists = declared_lists(alloc, world.lists.as_slice())?;
        let recorders = no_recorders(alloc, world.allocators.as_slice())?;
        Ok(Lists { lists, recorders })
    }

    /// A recording call. Refused for memory, the lists stay.
    #[tactic(auto, using(crate::proofs::Recorders::counts_recorded))]
    pub fn record(&mut self, world: &World, list: ListId, what: Record) -> Result<Reply, Memory>
        requires { list.0 < length self.old }
        ensures reply { IfOk result (λ reply. reply ≡ reply_or (record_refusal self.old list.0) done) }
        ensures lists { OnOk result (self.new ≡ lists_after_record world.now self.old list.0 what) }
        ensures same { OnErr result (self.new ≡ self.old) }
    {
        let at = list.0 as usize;
        if !takes_commands(&self.lists, at) {
            return Ok(Reply::Error(Hresult::Fail));
        }
        record_at(&mut self.lists, at, world, what)?;
        Ok(Reply::Done)
    }

    /// ID3D12GraphicsCommandList::Close. Fail: the list is not recording; else the error that it holds.
    #[tactic(auto, using(crate::proofs::Recorders::counts_ended, crate::proofs::Recorders::close_is_end))]
    pub fn close(&mut self, list: ListId) -> Result<(), Hresult>
        requires { list.0 < length self.old }
        ensures answer { result_err result ≡ close_refusal self.old list.0 }
        ensures lists { self.new ≡ lists_after_close self.old list.0 }
    {
        let at = list.0 as usize;
        if !takes_commands(&self.lists, at) {
            return Err(Hresult::Fail);
        }
        release(&mut self.recorders, recorder_at(&self.lists, at));
        end_at(&mut self.lists, at)
    }

    /// ID3D12GraphicsCommandList::Reset. Fail: the list is recording. InvalidArg: a list records from
    /// the allocator, or the allocator has another type. Takes no memory.
    #[tactic(auto, using(crate::proofs::Recorders::counts_begun))]
    pub fn reset(
        &mut self,
        world: &World,
        list: ListId,
        allocator: AllocatorId,
    ) -> Result<(), Hresult>
        requires { list.0 < length self.old }
        ensures answer { result_err result ≡ reset_refusal world.now self.old list.0 allocator.0 }
        ensures lists { self.new ≡ lists_after_reset world.now self.old list.0 allocator.0 }
    {
        let at = list.0 as usize;
        if takes_commands(&self.lists, at) {
            return Err(Hresult::Fail);
        }
        if self.has_recorder(allocator) || !has_allocators_type(world, list, allocator) {
            return Err(Hresult::InvalidArg);
        }
        take(&mut self.recorders, allocator);
        begin_at(&mut self.lists, at, allocator);
        Ok(())
    }

    /// Whether a list records from that allocator.
    #[tactic(auto, using(crate::proofs::Recorders::has_recorders))]
    pub fn has_recorder(&self, allocator: AllocatorId) -> bool
        ensures { result ≡ list_any (records_from allocator.0) self.now }
    {
        match self.recorders.get(allocator.0 as usize) {
            Some(recorders) => *recorders != 0,
            None => any_records(self.lists.as_slice(), allocator),
        }
    }

    /// How many lists there are.
    pub fn len(&self) -> usize
        ensures { result ≡ length self.now }
    {
        self.lists.len()
    }

    /// What the list is ready for.
    pub fn state(&self, list: ListId) -> ListState
        requires { list.0 < length self.now }
        ensures { result ≡ (list_of self.now list.0).state }
    {
        self.lists.at(list.0 as usize).state
    }

    /// The commands of a list; none where the list is not closed.
    pub fn closed(&self, list: ListId) -> Option<&[Command]>
        requires { list.0 < length self.now }
        ensures { option_copied result ≡ closed_commands (list_of self.now list.0) }
    {
        self.lists.at(list.0 as usize).closed()
    }

    /// The commands that an execution of the lists gives a queue, in order. Fail: a list is not closed,
    /// or has another type than the queue.
    pub fn gather(
        &self,
        alloc: Global,
        world: &World,
        queue: QueueId,
        lists: &[ListId],
    ) -> Result<Result<Seq<Command>, Hresult>, Memory>
        ensures { IfOk result (λ answer. answer ≡ answer_or (execute_refusal world.now self.now queue.0 lists.now) (commands_of self.now lists.now)) }
    {
        if !are_fit(&self.lists, world, queue, lists) {
            return Ok(Err(Hresult::Fail));
        }
        Ok(Ok(gather_all(alloc, &self.lists, lists)?))
    }
}

/// Whether the list at that place takes commands.
fn takes_commands(lists: &Seq<Listed>, at: usize) -> bool
    requires { at < length lists.now }
    ensures { result ≡ is_recording (list_of lists.now at) }
{
    lists.at(at).is_recording()
}

/// The allocator that the list at that place is recording from.
fn recorder_at(lists: &Seq<Listed>, at: usize) -> Option<AllocatorId>
    requires { at < length lists.now }
    ensures { result ≡ recorder_of (list_of lists.now at) }
{
    lists.at(at).recorder()
}

/// A recording call on the list at that place, which takes commands.
#[tactic(auto, using(dx_base::proofs::Lists::write_is_changed, dx_base::proofs::Lists::write_is_same))]
fn record_at(lists: &mut Seq<Listed>, at: usize, world: &World, what: Record) -> Result<(), Memory>
    requires { at < length lists.old }
    ensures ok { OnOk result (lists.new ≡ changed_at (recorded world.now what) at lists.old) }
    ensures same { OnErr result (lists.new ≡ lists.old) }
{
    lists.at_mut(at).record(world, what)
}

/// Ends the recording of the list at that place.
#[tactic(auto, using(dx_base::proofs::Lists::write_is_changed))]
fn end_at(lists: &mut Seq<Listed>, at: usize) -> Result<(), Hresult>
    requires { at < length lists.old }
    ensures answer { result_err result ≡ (list_of lists.old at).error }
    ensures lists { lists.new ≡ changed_at ended at lists.old }
{
    lists.at_mut(at).end()
}

/// Begins the recording of the list at that place.
#[tactic(auto, using(dx_base::proofs::Lists::write_is_changed))]
fn begin_at(lists: &mut Seq<Listed>, at: usize, allocator: AllocatorId)
    requires { at < length lists.old }
    ensures { lists.new ≡ changed_at (λ _. begun allocator.0) at lists.old }
{
    lists.at_mut(at).begin(allocator);
}

/// Whether a list records from that allocator.
fn any_records(lists: &[Listed], allocator: AllocatorId) -> bool
    ensures { result ≡ list_any (records_from allocator.0) lists.now }
{
    lists.iter().any(|list| list.records_from(allocator))
}

/// A list as it is declared for each type.
fn declared_lists(alloc: Global, types: &[ListType]) -> Result<Seq<Listed>, Memory>
    ensures { IfOk result (λ lists. lists ≡ map (λ _. declared_list) types.now) }
{
    let mut lists = Seq::new(alloc);
    for of in types {
        let _kind = *of;
        lists.push(Listed::declared(alloc))?;
    }
    Ok(lists)
}

/// 0 for each allocator.
fn no_recorders(alloc: Global, types: &[ListType]) -> Result<Seq<u32>, Memory>
    ensures { IfOk result (λ numbers. numbers ≡ map (λ _. 0) types.now) }
{
    let mut numbers = Seq::new(alloc);
    for of in types {
        let _kind = *of;
        numbers.push(0)?;
    }
    Ok(numbers)
}

/// One list less records from that allocator.
fn release(recorders: &mut Seq<u32>, allocator: Option<AllocatorId>)
    ensures { recorders.new ≡ released allocator recorders.old }
{
    match allocator {
        None => (),
        Some(allocator) => release_one(recorders, allocator.0 as usize),
    }
}

#[tactic(auto, using(dx_base::proofs::Lists::write_is_changed, dx_base::proofs::Lists::changed_past))]
fn release_one(recorders: &mut Seq<u32>, allocator: usize)
    ensures { recorders.new ≡ changed_at (λ n. n - 1) allocator recorders.old }
{
    if allocator < recorders.len() {
        let number = recorders.at_mut(allocator);
        *number = number.saturating_sub(1);
    }
}

/// One list records from that allocator.
#[tactic(auto, using(dx_base::proofs::Lists::write_is_changed, dx_base::proofs::Lists::changed_past))]
fn take(recorders: &mut Seq<u32>, allocator: AllocatorId)
    ensures { recorders.new ≡ taken allocator.0 recorders.old }
{
    let at = allocator.0 as usize;
    if at < recorders.len() {
        *recorders.at_mut(at) = 1;
    }
}

/// Whether a list has the type of an allocator.
fn has_allocators_type(world: &World, list: ListId, allocator: AllocatorId) -> bool
    ensures { result ≡ same_types (slice_get world.now.lists list.0) (slice_get world.now.allocators allocator.0) }
{
    are_same_types(
        world.lists.get(list.0 as usize),
        world.allocators.get(allocator.0 as usize),
    )
}

/// Whether a list has the type of a queue.
fn has_queues_type(world: &World, list: ListId, queue: QueueId) -> bool
    ensures { result ≡ same_types (slice_get world.now.lists list.0) (slice_get world.now.queues queue.0) }
{
    are_same_types(
        world.lists.get(list.0 as usize),
        world.queues.get(queue.0 as usize),
    )
}

/// Whether the list of that id is closed, or there is none.
fn is_closed(lists: &Seq<Listed>, list: ListId) -> bool
    ensures { result ≡ is_closed_state (list_of lists.now list.0).state }
{
    match lists.get(list.0 as usize) {
        Some(listed) => listed.is_closed(),
        None => true,
    }
}

/// Whether a list can be executed on that queue.
fn is_fit(lists: &Seq<Listed>, world: &World, queue: QueueId, list: ListId) -> bool
    ensures { result ≡ fits world.now lists.now queue.0 list.0 }
{
    is_closed(lists, list) && has_queues_type(world, list, queue)
}

/// Whether each of the lists can be executed on that queue.
fn are_fit(lists: &Seq<Listed>, world: &World, queue: QueueId, executed: &[ListId]) -> bool
    ensures { result ≡ list_all (λ l. fits world.now lists.now queue.0 l.0) executed.now }
{
    executed
        .iter()
        .all(|list| is_fit(lists, world, queue, *list))
}

/// Appends the commands of a list.
fn gather_one(lists: &Seq<Listed>, list: ListId, commands: &mut Seq<Command>) -> Result<(), Memory>
    ensures { OnOk result (commands.new ≡ commands.old ++ (list_of lists.now list.0).commands) }
{
    match lists.get(list.0 as usize) {
        Some(listed) => commands.extend_from_slice(listed.commands.as_slice()),
        None => Ok(()),
    }
}

/// The commands of the lists, in order.
fn gather_all(
    alloc: Global,
    lists: &Seq<Listed>,
    executed: &[ListId],
) -> Result<Seq<Command>, Memory>
    ensures { IfOk result (λ commands. commands ≡ commands_of lists.now executed.now) }
{
    let mut commands = Seq::new(alloc);
    for list in executed {
        gather_one(lists, *list, &mut commands)?;
    }
    Ok(commands)
}
