//! The unfinished batches of all queues.

ghost use Rattle.std.specs.Prelude.{◌≡◌, ◌<◌, length, slice_index_or, replicate, true, IfOk, OnOk, OnErr};
ghost use Rattle.std.specs.List.{list_all};
ghost use Rattle.dx_base.specs.Lists.{changed_at};
ghost use Rattle.vk_port.specs.Fronts.{is_numbered};
ghost use Rattle.vk_port.specs.After.{command_at, lane_after_run, lane_after_pass, lane_after_bump, with_batch};
ghost use Rattle.vk_port.specs.VkState.{no_lane};

use crate::lanes::Lane;
use crate::tracked::Tracked;
use dx_base::{Memory, Seq};
use std::alloc::Global;
use vk_types::VkCommand;

/// The lanes of queues at first.
pub fn first_lanes(alloc: Global, queues: u32) -> Result<Seq<Lane>, Memory>
    ensures { IfOk result (λ lanes. lanes ≡ replicate queues no_lane) }
{
    let mut lanes = Seq::new(alloc);
    for queue in 0..queues {
        let _queue = queue;
        lanes.push(Lane::new(alloc))?;
    }
    Ok(lanes)
}

/// A command of a batch of a queue; its place is counted from 1.
pub fn command_of(lanes: &Seq<Lane>, queue: u32, number: u64, place: u64) -> Option<VkCommand>
    requires queue { queue < length lanes.now }
    requires numbered { list_all is_numbered lanes.now ≡ true }
    ensures { result ≡ command_at number place (slice_index_or lanes.now queue no_lane).batches }
{
    lanes.at(queue as usize).command_at(number, place)
}

/// Marks a command of a batch of a queue as done; its place is counted from 1.
pub fn mark(lanes: &mut Seq<Lane>, queue: u32, number: u64, place: u64)
    requires queue { queue < length lanes.old }
    requires numbered { list_all is_numbered lanes.old ≡ true }
    ensures { lanes.new ≡ changed_at (lane_after_run number place) queue lanes.old }
{
    lanes.at_mut(queue as usize).mark(number, place);
}

/// One more batch of a queue has passed.
pub fn pass(lanes: &mut Seq<Lane>, queue: u32)
    requires queue { queue < length lanes.old }
    requires batch { (slice_index_or lanes.old queue no_lane).passed < length (slice_index_or lanes.old queue no_lane).batches }
    ensures { lanes.new ≡ changed_at lane_after_pass queue lanes.old }
{
    lanes.at_mut(queue as usize).pass();
}

/// Ends the first batch of a queue.
pub fn bump(lanes: &mut Seq<Lane>, queue: u32)
    requires queue { queue < length lanes.old }
    requires batch { 0 < length (slice_index_or lanes.old queue no_lane).batches }
    ensures { lanes.new ≡ changed_at lane_after_bump queue lanes.old }
{
    lanes.at_mut(queue as usize).bump();
}

/// One more batch of a queue, of which nothing is done.
pub fn add(lanes: &mut Seq<Lane>, queue: u32, running: Tracked) -> Result<(), Memory>
    requires { queue < length lanes.old }
    ensures ok { OnOk result (lanes.new ≡ changed_at (with_batch running) queue lanes.old) }
    ensures same { OnErr result (lanes.new ≡ lanes.old) }
{
    lanes.at_mut(queue as usize).add(running)?;
    Ok(())
}
