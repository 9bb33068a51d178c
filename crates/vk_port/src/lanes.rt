//! The unfinished batches of a queue.

ghost use Rattle.std.specs.Prelude.{◌≡◌, ◌<◌, length, true, IfOk, OnOk, OnErr};
ghost use Rattle.vk_port.specs.After.{place_of, command_at, with_done, lane_after_run, lane_after_pass, lane_after_bump, started, with_batch};
ghost use Rattle.vk_port.specs.DeviceStages.{batch_of_device};
ghost use Rattle.vk_port.specs.Fronts.{is_numbered};
ghost use Rattle.vk_port.specs.VkState.{no_lane};

use crate::ahead::is_of_device;
use crate::batches::Batches;
use crate::tracked::Tracked;
use dx_base::{Memory, Seq};
use std::alloc::Global;
use vk_types::{Batch, VkCommand};

/// An unfinished batch, and for each of its commands whether it is done.
#[derive(Debug, PartialEq, Eq, Drop)]
pub struct Running {
    pub batch: Batch,
    pub done: Seq<bool>,
}

impl Running {
    /// A copy of a batch, of which no command is done.
    pub fn new(alloc: Global, batch: &Batch) -> Result<Running, Memory>
        ensures { IfOk result (λ running. running ≡ started batch.now) }
    {
        let marks = vec![in alloc; false; batch.commands.len()]?;
        Ok(Running {
            batch: batch.copied(alloc)?,
            done: Seq::from_vec(marks),
        })
    }

    /// Whether each of its commands waits for a stage of the device.
    pub fn is_of_device(&self) -> bool
        ensures { result ≡ batch_of_device self.now }
    {
        self.batch
            .commands
            .as_slice()
            .iter()
            .all(|command| is_of_device(command))
    }

    /// Marks the command of that place, counted from 1, as done.
    pub fn mark(&mut self, place: u64)
        ensures { self.new ≡ with_done place self.old }
    {
        let at = place.saturating_sub(1) as usize;
        if at < self.done.len() {
            *self.done.at_mut(at) = true;
        }
    }
}

/// A queue's unfinished batches, oldest first, and how many of them have passed.
#[derive(Debug, Drop)]
pub struct Lane {
    pub batches: Batches,
    pub passed: usize,
}

impl Lane {
    /// The lane of a queue with no unfinished batch.
    pub fn new(alloc: Global) -> Lane
        ensures { result ≡ no_lane }
    {
        Lane {
            batches: Batches::new(alloc),
            passed: 0,
        }
    }

    /// The place of the first batch of a number; how many batches there are, where there is none. They are numbered
    /// without a gap, so that none is looked at but the first.
    fn place_of(&self, number: u64) -> usize
        requires { is_numbered self.now ≡ true }
        ensures { result ≡ place_of number self.now.batches }
    {
        match self.batches.get(0) {
            None => 0,
            Some(first) => {
                if number < first.batch.number {
                    self.batches.len()
                } else {
                    self.batches
                        .len()
                        .min((number - first.batch.number) as usize)
                }
            }
        }
    }

    /// A command of the batch of a number; its place is counted from 1.
    pub fn command_at(&self, number: u64, place: u64) -> Option<VkCommand>
        requires { is_numbered self.now ≡ true }
        ensures { result ≡ command_at number place self.now.batches }
    {
        match self.batches.get(self.place_of(number)) {
            None => None,
            Some(running) => match running.batch.commands.get(place.saturating_sub(1) as usize) {
                None => None,
                Some(command) => Some(*command),
            },
        }
    }

    /// Marks a command of the batch of a number as done; its place is counted from 1.
    pub fn mark(&mut self, number: u64, place: u64)
        requires { is_numbered self.old ≡ true }
        ensures { self.new ≡ lane_after_run number place self.old }
    {
        let at = self.place_of(number);
        if at < self.batches.len() {
            self.batches.mark(at, place);
        }
    }

    /// One more batch has passed.
    pub fn pass(&mut self)
        requires { self.old.passed < length self.old.batches }
        ensures { self.new ≡ lane_after_pass self.old }
    {
        // What bounds the sum.
        let _batches = self.batches.len();
        self.passed += 1;
    }

    /// The first batch has ended.
    pub fn bump(&mut self)
        requires { 0 < length self.old.batches }
        ensures { self.new ≡ lane_after_bump self.old }
    {
        self.batches.take_first();
        self.passed = self.passed.saturating_sub(1);
    }

    /// One more batch, of which nothing is done.
    pub fn add(&mut self, running: Tracked) -> Result<(), Memory>
        ensures ok { OnOk result (self.new ≡ with_batch running self.old) }
        ensures same { OnErr result (self.new ≡ self.old) }
    {
        self.batches.push(running)
    }
}
