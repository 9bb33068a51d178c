//! The unfinished batches of a queue, from which the first one is taken without moving the others.

ghost use Rattle.std.specs.Prelude.{◌≡◌, ◌<◌, [], ◌∷◌, ◌++◌, length, drop, slice_get, Some, OnOk, OnErr};
ghost use Rattle.std.specs.Option.{option_copied};
ghost use Rattle.dx_base.specs.Lists.{changed_at};
ghost use Rattle.vk_port.specs.After.{with_done};

use crate::lanes::Running;
use crate::tracked::Tracked;
use dx_base::Memory;
use std::alloc::Global;
use std::collections::VecDeque;
use std::marker::Model;

/// Unfinished batches of a queue, oldest first. Contracts see their list.
#[derive(Debug, Drop)]
pub struct Batches {
    items: VecDeque<Tracked>,
}

impl Model for Batches {
    ghost use Rattle.std.specs.Prelude.{List};
    ghost use Rattle.vk_port.specs.declared.lanes.Running.{Running};

    ghost Value = { List Running };

    ghost view = { λ it. it.items.items };
}

impl Batches {
    /// No batches; takes no memory.
    pub fn new(alloc: Global) -> Batches
        ensures { result ≡ [] }
    {
        Batches {
            items: VecDeque::new(alloc),
        }
    }

    pub fn len(&self) -> usize
        ensures { result ≡ length self.now }
    {
        self.items.len()
    }

    pub fn get(&self, at: usize) -> Option<&Running>
        ensures { option_copied result ≡ slice_get self.now at }
    {
        match self.items.get(at) {
            None => None,
            Some(running) => Some(running.running()),
        }
    }

    /// The batch at a place.
    pub fn at(&self, at: usize) -> &Running
        requires { at < length self.now }
        ensures { slice_get self.now at ≡ Some result.now }
    {
        self.items[at].running()
    }

    /// The same, with its blocks.
    pub fn get_tracked(&self, at: usize) -> Option<&Tracked>
        ensures { option_copied result ≡ slice_get self.now at }
    {
        self.items.get(at)
    }

    /// The batch at a place, with its blocks.
    pub fn tracked(&self, at: usize) -> &Tracked
        requires { at < length self.now }
        ensures { slice_get self.now at ≡ Some result.now }
    {
        &self.items[at]
    }

    /// Marks a command of the batch at a place as done; its place among the commands is counted from 1.
    pub fn mark(&mut self, at: usize, place: u64)
        requires { at < length self.old }
        ensures { self.new ≡ changed_at (with_done place) at self.old }
    {
        self.items[at].mark(place);
    }

    /// Takes the first batch out.
    pub fn take_first(&mut self)
        requires { 0 < length self.old }
        ensures { self.new ≡ drop 1 self.old }
    {
        let _first = self.items.pop_front();
    }

    /// One more batch. Refused for memory, all stays, and the batch is let go.
    pub fn push(&mut self, running: Tracked) -> Result<(), Memory>
        ensures ok { OnOk result (self.new ≡ self.old ++ running ∷ []) }
        ensures same { OnErr result (self.new ≡ self.old) }
    {
        self.items.push_back(running)?;
        Ok(())
    }
}
