//! A list of updates, first in, first out, in which the first update that suffices is found without a walk.

ghost use Rattle.std.specs.Prelude.{◌≡◌, ◌≤◌, ◌<◌, ◌+◌, ◌-◌, [], ◌∷◌, ◌++◌, length, drop, slice_get, Some, OnOk};
ghost use Rattle.fence_timeline.specs.Sufficient.{first_sufficient};

use crate::runs::{Entry, entry_behind, first_from};
use crate::update::Update;
use dx_base::Memory;
use std::alloc::Global;
use std::collections::VecDeque;
use std::marker::Model;

/// A list of updates, and how many more it can take without asking for memory.
#[derive(Debug, Drop)]
pub(crate) struct Updates {
    entries: VecDeque<Entry>,
}

impl Model for Updates {
    ghost use Rattle.std.specs.Prelude.{◌-◌};
    ghost use Rattle.std.specs.VecDeque.{deque_len, deque_capacity};
    ghost use Rattle.dx_base.specs.Roomy.{Roomy};
    ghost use Rattle.fence_timeline.specs.declared.update.Update.{Update};

    ghost Value = { Roomy Update };

    ghost use Rattle.fence_timeline.specs.Runs.{updates_in, IsIndexed};

    ghost view = { λ it. record { items = updates_in it.entries.items; spare = deque_capacity it.entries - deque_len it.entries } };

    ghost invariant = { λ it. IsIndexed it.entries.items };
}

impl Updates {
    /// No updates; takes no memory.
    pub(crate) fn new(alloc: Global) -> Updates
        ensures { result.items ≡ [] }
    {
        Updates {
            entries: VecDeque::new(alloc),
        }
    }

    pub(crate) fn len(&self) -> usize
        ensures { result ≡ length self.now.items }
    {
        self.entries.len()
    }

    /// The update at a place.
    pub(crate) fn get(&self, at: usize) -> Option<Update>
        ensures { result ≡ slice_get self.now.items at }
    {
        if at < self.entries.len() {
            return Some(self.entries[at].update);
        }
        None
    }

    /// The last update.
    pub(crate) fn last(&self) -> Option<Update>
        ensures { result ≡ slice_get self.now.items (length self.now.items - 1) }
    {
        self.get(self.entries.len().saturating_sub(1))
    }

    /// The first update, from a place on, that suffices.
    pub(crate) fn first_from(&self, from: usize, value: u64) -> Option<Update>
        ensures { result ≡ first_sufficient value (drop from self.now.items) }
    {
        first_from(&self.entries, from, value)
    }

    /// Makes room for so many updates.
    pub(crate) fn reserve(&mut self, count: usize) -> Result<(), Memory>
        ensures room { OnOk result (count ≤ self.new.spare) }
        ensures items { self.new.items ≡ self.old.items }
        ensures kept { self.old.spare ≤ self.new.spare }
    {
        self.entries.reserve(count)?;
        Ok(())
    }

    /// Appends an update into room that `reserve` made; takes no memory.
    pub(crate) fn push_reserved(&mut self, update: Update)
        requires { 1 ≤ self.old.spare }
        ensures items { self.new.items ≡ self.old.items ++ update ∷ [] }
        ensures spare { self.new.spare + 1 ≡ self.old.spare }
    {
        let entry = entry_behind(&self.entries, update);
        self.entries.push_back_reserved(entry);
    }

    /// Takes the first update out; takes no memory.
    pub(crate) fn pop(&mut self) -> Option<Update>
        ensures first { result ≡ slice_get self.old.items 0 }
        ensures rest { self.new.items ≡ drop 1 self.old.items }
        ensures spare { self.new.spare + length self.new.items ≡ self.old.spare + length self.old.items }
    {
        match self.entries.pop_front() {
            Some(entry) => Some(entry.update),
            None => None,
        }
    }
}
