//! How far the commands of lanes are done without a gap.

ghost use Rattle.std.specs.Prelude.{◌≡◌, ◌<◌, length, replicate, slice_index_or, true, IfOk};
ghost use Rattle.dx_base.specs.Lists.{changed_at};
ghost use Rattle.vk_port.specs.After.{lane_after_bump};
ghost use Rattle.vk_port.specs.Fronts.{is_done_to, is_front, are_fronts, work_bits as bits_of_work, work_alike as do_work_alike, has_alike, is_unset as does_lack};

use crate::lanes::{Lane, Running};
use dx_base::{Memory, Seq};
use std::alloc::Global;
use vk_types::{Stages, VkCommand};

/// A place of a lane in front of which all commands are done: a batch, and one of its commands, both counted from 0.
#[derive(Clone, Copy, Debug, PartialEq, Eq)]
pub struct Front {
    pub batch: usize,
    pub command: usize,
}

/// The place of the first command of a batch that is not done, from a place on in front of which all are.
pub fn done_to(running: &Running, from: usize) -> usize
    requires { is_done_to from running.now ≡ true }
    ensures { is_done_to result running.now ≡ true }
{
    for i in from..running.done.len() {
        if !*running.done.at(i) {
            return i;
        }
    }
    running.done.len()
}

impl Front {
    /// Where a lane begins.
    pub const START: Front = Front {
        batch: 0,
        command: 0,
    };

    /// A place further on, up to the first command that is not done.
    pub fn advanced(self, lane: &Lane) -> Front
        requires { is_front self lane.now ≡ true }
        ensures { is_front result lane.now ≡ true }
    {
        let mut from = self.command;
        for batch in self.batch..lane.batches.len() {
            let running = lane.batches.at(batch);
            let command = done_to(running, from);
            if command < running.done.len() {
                return Front { batch, command };
            }
            from = 0;
        }
        Front {
            batch: lane.batches.len(),
            command: 0,
        }
    }

    /// The place in what is left of a lane whose first batch has ended.
    pub fn bumped(self, lane: &Lane) -> Front
        requires { is_front self lane.now ≡ true }
        ensures { is_front result (lane_after_bump lane.now) ≡ true }
    {
        let _lane = lane;
        if self.batch == 0 {
            Front::START
        } else {
            Front {
                batch: self.batch - 1,
                command: self.command,
            }
        }
    }

    /// Whether the command at this place is of the batch of a number, is not done, and works in the stage of another one.
    pub fn has_alike(self, lane: &Lane, number: u64, command: Option<VkCommand>) -> bool
        ensures { result ≡ has_alike lane.now self number command }
    {
        match lane.batches.get(self.batch) {
            None => false,
            Some(running) => {
                running.batch.number == number
                    && is_unset(running.done.get(self.command).copied())
                    && work_alike(running.batch.commands.get(self.command).copied(), command)
            }
        }
    }
}

/// Whether a mark is there, and not set.
fn is_unset(mark: Option<bool>) -> bool
    ensures { result ≡ does_lack mark }
{
    match mark {
        None => false,
        Some(mark) => !mark,
    }
}

/// The bits of the stage in which a command works; none of a barrier.
pub fn work_bits(command: VkCommand) -> u32
    ensures { result ≡ bits_of_work command }
{
    match command {
        VkCommand::Barrier { .. } => 0,
        VkCommand::Copy { .. } => Stages::COPY.whole(),
        VkCommand::CopyImage { .. } => Stages::COPY.whole(),
        VkCommand::CopyIn { .. } => Stages::COPY.whole(),
        VkCommand::CopyOut { .. } => Stages::COPY.whole(),
        VkCommand::Clear { .. } => Stages::COMPUTE_SHADER.whole(),
        VkCommand::Dispatch { .. } => Stages::COMPUTE_SHADER.whole(),
    }
}

/// Whether two commands work in one stage.
fn work_alike(one: Option<VkCommand>, other: Option<VkCommand>) -> bool
    ensures { result ≡ do_work_alike one other }
{
    match one {
        None => false,
        Some(one) => match other {
            None => false,
            Some(other) => 0 < work_bits(one) && work_bits(one) == work_bits(other),
        },
    }
}

/// The places of lanes in which nothing is done.
pub fn first_fronts(alloc: Global, queues: u32) -> Result<Seq<Front>, Memory>
    ensures { IfOk result (λ fronts. fronts ≡ replicate queues (record { batch = 0; command = 0 })) }
{
    Ok(Seq::from_vec(vec![in alloc; Front::START; queues as usize]?))
}

/// Moves the place of a queue's lane on, up to the first command that is not done.
pub fn advance(fronts: &mut Seq<Front>, lanes: &Seq<Lane>, queue: u32)
    requires queue { queue < length lanes.now }
    requires each { length fronts.old ≡ length lanes.now }
    requires fronts { are_fronts fronts.old lanes.now ≡ true }
    ensures each { length fronts.new ≡ length lanes.now }
    ensures fronts { are_fronts fronts.new lanes.now ≡ true }
{
    *fronts.at_mut(queue as usize) = fronts.at(queue as usize).advanced(lanes.at(queue as usize));
}

/// The place of a queue's lane behind the end of its first batch.
pub fn bump(fronts: &mut Seq<Front>, lanes: &Seq<Lane>, queue: u32)
    requires queue { queue < length lanes.now }
    requires each { length fronts.old ≡ length lanes.now }
    requires fronts { are_fronts fronts.old lanes.now ≡ true }
    ensures each { length fronts.new ≡ length lanes.now }
    ensures fronts { are_fronts fronts.new (changed_at lane_after_bump queue lanes.now) ≡ true }
{
    *fronts.at_mut(queue as usize) = fronts.at(queue as usize).bumped(lanes.at(queue as usize));
}
