//! The search for the step at a place among those that can be taken.

ghost use Rattle.std.specs.Prelude.{◌≡◌, ◌<◌, ◌+◌, ◌&&◌, ◌++◌, ◌-◌, ◌^◌, min, [], length, take, true};
ghost use Rattle.vk_port.specs.Ahead.{batch_steps, lane_steps};
ghost use Rattle.vk_port.specs.Enabled.{ready_pass, passes, lane_commands, commands, ready_bump, bumps};
ghost use Rattle.vk_port.specs.DeviceStages.{batch_of_device, lane_of_device, lanes_of_device, is_closed};
ghost use Rattle.vk_port.specs.Found.{found};
ghost use Rattle.vk_port.specs.Fronts.{is_done_to, is_front, are_fronts, ready_steps, count_of};

use crate::ahead::Ahead;
use crate::found::{Found, find_if};
use crate::fronts::Front;
use crate::lanes::Lane;
use crate::steps::Stepped;
use crate::tracked::{BLOCK, Tracked};
use dx_base::Seq;
use vk_types::are_reached;

/// Searches the pass of a lane's next batch.
fn find_pass(timelines: &Seq<u64>, queue: u32, lane: &Lane, k: usize) -> Found
    ensures { result ≡ found (ready_pass timelines.now queue lane.now) k }
{
    match lane.batches.get(lane.passed) {
        None => Found::Left(k),
        Some(next) => find_if(
            are_reached(timelines, &next.batch.waits),
            Stepped::Passed(queue, next.batch.number),
            k,
        ),
    }
}

/// Searches the passes by queue.
fn find_passes(timelines: &Seq<u64>, lanes: &Seq<Lane>, queues: u32, k: usize) -> Found
    requires { length lanes.now ≡ queues }
    ensures { result ≡ found (passes timelines.now 0 lanes.now) k }
{
    let mut left = k;
    for queue in 0..queues {
        match find_pass(timelines, queue, lanes.at(queue as usize), left) {
            Found::At(step) => return Found::At(step),
            Found::Left(rest) => left = rest,
        }
    }
    Found::Left(left)
}

/// Searches the end of a lane's first batch.
fn find_bump(queue: u32, lane: &Lane, k: usize) -> Found
    ensures { result ≡ found (ready_bump queue lane.now) k }
{
    match lane.batches.get_tracked(0) {
        None => Found::Left(k),
        Some(first) => find_if(
            0 < lane.passed && first.is_all_done(),
            Stepped::Bumped(queue, first.number()),
            k,
        ),
    }
}

/// Searches the ends of batches by queue.
fn find_bumps(lanes: &Seq<Lane>, queues: u32, k: usize) -> Found
    requires { length lanes.now ≡ queues }
    ensures { result ≡ found (bumps 0 lanes.now) k }
{
    let mut left = k;
    for queue in 0..queues {
        match find_bump(queue, lanes.at(queue as usize), left) {
            Found::At(step) => return Found::At(step),
            Found::Left(rest) => left = rest,
        }
    }
    Found::Left(left)
}

/// Whether there is no step behind commands that are not done: each command waits for a stage of the device, and a barrier
/// among them has all of them behind it.
fn is_last(of_device: bool, ahead: Ahead) -> bool
    ensures { result ≡ (of_device && is_closed ahead) }
{
    of_device && ahead.is_closed()
}

/// Searches the commands of a batch by place. Those in front of the place `from` are done. Where each command waits for a
/// stage of the device, it does not look behind a barrier that is not done and has all of them behind it.
fn find_in_batch(
    queue: u32,
    running: &Tracked,
    from: usize,
    before: Ahead,
    of_device: bool,
    k: usize,
) -> Found
    requires front { is_done_to from running.now ≡ true }
    requires stages { of_device ≡ true → batch_of_device running.now ≡ true }
    ensures { result ≡ found (batch_steps queue running.now.batch.number 1 before running.now.batch.commands running.now.done) k }
{
    let mut ahead = before;
    let mut left = k;
    let mut i = from;
    let count = running.count();
    while i < count {
        if let Some(behind) = running.behind_block(i, ahead, left) {
            i += BLOCK;
            ahead = behind.ahead;
            left = behind.left;
            continue;
        }
        if running.is_done(i) {
            i += 1;
            continue;
        }
        let command = running.command(i);
        let step = Stepped::Ran(queue, running.number(), i as u64 + 1);
        match find_if(ahead.lets(command), step, left) {
            Found::At(step) => return Found::At(step),
            Found::Left(rest) => left = rest,
        }
        ahead = ahead.with(command);
        i += 1;
        if is_last(of_device, ahead) {
            return Found::Left(left);
        }
    }
    Found::Left(left)
}

/// Searches the commands of a lane by batch, from its place on. Where each command waits for a stage of the device, it does
/// not look behind a barrier that is not done and has all of them behind it.
fn find_in_lane(queue: u32, lane: &Lane, front: Front, of_device: bool, k: usize) -> Found
    requires front { is_front front lane.now ≡ true }
    requires stages { of_device ≡ true → lane_of_device lane.now ≡ true }
    ensures { result ≡ found (lane_commands queue [] (take lane.now.passed lane.now.batches)) k }
{
    let mut ahead = Ahead::none();
    let mut left = k;
    for i in front.batch..lane.passed.min(lane.batches.len()) {
        let running = lane.batches.tracked(i);
        let from = running.front();
        match find_in_batch(queue, running, from, ahead, of_device, left) {
            Found::At(step) => return Found::At(step),
            Found::Left(rest) => left = rest,
        }
        ahead = ahead.with_undone(running, from);
        if is_last(of_device, ahead) {
            return Found::Left(left);
        }
    }
    Found::Left(left)
}

/// Searches the commands by queue. `of_device` says that each command waits for a stage of the device.
fn find_commands(
    lanes: &Seq<Lane>,
    fronts: &Seq<Front>,
    queues: u32,
    of_device: bool,
    k: usize,
) -> Found
    requires queues { length lanes.now ≡ queues }
    requires each { length fronts.now ≡ queues }
    requires fronts { are_fronts fronts.now lanes.now ≡ true }
    requires stages { of_device ≡ true → lanes_of_device lanes.now ≡ true }
    ensures { result ≡ found (commands 0 lanes.now) k }
{
    let mut left = k;
    for queue in 0..queues {
        let lane = lanes.at(queue as usize);
        let front = *fronts.at(queue as usize);
        match find_in_lane(queue, lane, front, of_device, left) {
            Found::At(step) => return Found::At(step),
            Found::Left(rest) => left = rest,
        }
    }
    Found::Left(left)
}

/// Searches the commands and the ends.
fn find_behind_passes(
    lanes: &Seq<Lane>,
    fronts: &Seq<Front>,
    queues: u32,
    of_device: bool,
    k: usize,
) -> Found
    requires queues { length lanes.now ≡ queues }
    requires each { length fronts.now ≡ queues }
    requires fronts { are_fronts fronts.now lanes.now ≡ true }
    requires stages { of_device ≡ true → lanes_of_device lanes.now ≡ true }
    ensures { result ≡ found (commands 0 lanes.now ++ bumps 0 lanes.now) k }
{
    match find_commands(lanes, fronts, queues, of_device, k) {
        Found::At(step) => Found::At(step),
        Found::Left(left) => find_bumps(lanes, queues, left),
    }
}

/// Searches the step at a place among those that can be taken.
pub fn find_step(
    timelines: &Seq<u64>,
    lanes: &Seq<Lane>,
    fronts: &Seq<Front>,
    queues: u32,
    of_device: bool,
    k: usize,
) -> Found
    requires queues { length lanes.now ≡ queues }
    requires each { length fronts.now ≡ queues }
    requires fronts { are_fronts fronts.now lanes.now ≡ true }
    requires stages { of_device ≡ true → lanes_of_device lanes.now ≡ true }
    ensures { result ≡ found (ready_steps timelines.now lanes.now) k }
{
    match find_passes(timelines, lanes, queues, k) {
        Found::At(step) => Found::At(step),
        Found::Left(left) => find_behind_passes(lanes, fronts, queues, of_device, left),
    }
}

/// How many steps can be taken; the last `usize`, where there are more.
pub fn count_steps(
    timelines: &Seq<u64>,
    lanes: &Seq<Lane>,
    fronts: &Seq<Front>,
    queues: u32,
    of_device: bool,
) -> usize
    requires queues { length lanes.now ≡ queues }
    requires each { length fronts.now ≡ queues }
    requires fronts { are_fronts fronts.now lanes.now ≡ true }
    requires stages { of_device ≡ true → lanes_of_device lanes.now ≡ true }
    ensures { result ≡ count_of (ready_steps timelines.now lanes.now) }
{
    match find_step(timelines, lanes, fronts, queues, of_device, usize::MAX) {
        Found::At(_) => usize::MAX,
        Found::Left(left) => usize::MAX - left,
    }
}

/// How many steps can be taken behind a command: one fewer than before, where one that works alike is left in front.
pub fn count_behind(
    timelines: &Seq<u64>,
    lanes: &Seq<Lane>,
    fronts: &Seq<Front>,
    queues: u32,
    of_device: bool,
    before: usize,
    alike: bool,
) -> usize
    requires queues { length lanes.now ≡ queues }
    requires each { length fronts.now ≡ queues }
    requires fronts { are_fronts fronts.now lanes.now ≡ true }
    requires stages { of_device ≡ true → lanes_of_device lanes.now ≡ true }
    requires fewer { alike ≡ true → before ≡ min (length (ready_steps timelines.now lanes.now) + 1) (2 ^ 64 - 1) }
    ensures { result ≡ count_of (ready_steps timelines.now lanes.now) }
{
    if alike && before < usize::MAX {
        before - 1
    } else {
        count_steps(timelines, lanes, fronts, queues, of_device)
    }
}
