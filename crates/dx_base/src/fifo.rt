//! A queue of items, first in, first out, with room that can be taken in advance.

ghost use Rattle.std.specs.Prelude.{◌≡◌, ◌==◌, ◌<◌, ◌≤◌, ◌+◌, ◌-◌, [], ◌∷◌, ◌++◌, length, drop, slice_get, slice_index_or, IfSome, OnOk, OnErr};
ghost use Rattle.std.specs.Option.{option_copied};

use crate::hresult::Memory;
use std::alloc::Global;
use std::collections::VecDeque;
use std::marker::Model;

/// A queue of items, and how many more it can take without asking for memory.
#[derive(Debug, Drop)]
pub struct Fifo<T> {
    items: VecDeque<T>,
}

impl<T> Model for Fifo<T> {
    ghost use Rattle.std.specs.Prelude.{◌-◌};
    ghost use Rattle.std.specs.VecDeque.{deque_len, deque_capacity};
    ghost use Rattle.dx_base.specs.Roomy.{Roomy};

    ghost Value = { Roomy T };

    ghost view = { λ it. record { items = it.items.items; spare = deque_capacity it.items - deque_len it.items } };
}

impl<T> Fifo<T> {
    /// No items; takes no memory.
    pub fn new(alloc: Global) -> Fifo<T>
        ensures { result.items ≡ [] }
    {
        Fifo {
            items: VecDeque::new(alloc),
        }
    }

    pub fn len(&self) -> usize
        ensures { result ≡ length self.now.items }
    {
        self.items.len()
    }

    pub fn is_empty(&self) -> bool
        ensures { result ≡ (length self.now.items == 0) }
    {
        self.items.is_empty()
    }

    /// The oldest item.
    pub fn front(&self) -> Option<&T>
        ensures { option_copied result ≡ slice_get self.now.items 0 }
    {
        self.items.front()
    }

    /// Takes the oldest item out.
    pub fn pop(&mut self) -> Option<T>
        ensures first { result ≡ slice_get self.old.items 0 }
        ensures rest { self.new.items ≡ drop 1 self.old.items }
    {
        self.items.pop_front()
    }

    /// Makes room for one item.
    pub fn reserve(&mut self) -> Result<(), Memory>
        ensures spare { OnOk result (1 ≤ self.new.spare) }
        ensures items { self.new.items ≡ self.old.items }
    {
        self.items.reserve(1)?;
        Ok(())
    }

    /// Appends an item into room that `reserve` made; takes no memory.
    pub fn push_reserved(&mut self, item: T)
        requires { 1 ≤ self.old.spare }
        ensures { self.new.items ≡ self.old.items ++ item ∷ [] }
    {
        match self.items.push_back(item) {
            Ok(()) => (),
            Err(_) => unreachable!(),
        }
    }
}

impl<T: Drop> Fifo<T> {
    /// Appends an item. Refused for memory, the queue stays and the item is let go.
    pub fn push(&mut self, item: T) -> Result<(), Memory>
        ensures ok { OnOk result (self.new.items ≡ self.old.items ++ item ∷ []) }
        ensures same { OnErr result (self.new.items ≡ self.old.items) }
    {
        self.items.push_back(item)?;
        Ok(())
    }
}
