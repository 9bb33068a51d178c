//! A list with room taken in advance, so that an item can be appended without asking for memory.

ghost use Rattle.std.specs.Prelude.{◌≡◌, ◌≤◌, ◌<◌, ◌+◌, [], ◌∷◌, ◌++◌, length, OnOk, slice_get};

use crate::hresult::Memory;
use std::alloc::Global;
use std::marker::Model;

/// A list of items, and how many more it can take without asking for memory.
#[derive(Debug, Drop)]
pub struct Room<T> {
    items: Vec<T>,
}

impl<T> Model for Room<T> {
    ghost use Rattle.std.specs.Prelude.{◌-◌, vec_len, vec_capacity};
    ghost use Rattle.dx_base.specs.Roomy.{Roomy};

    ghost Value = { Roomy T };

    ghost view = { λ r. record { items = r.items.items; spare = vec_capacity r.items - vec_len r.items } };
}

impl<T> Room<T> {
    /// No items; takes no memory.
    pub fn new(alloc: Global) -> Room<T>
        ensures { result.items ≡ [] }
    {
        Room {
            items: Vec::new(alloc),
        }
    }

    pub fn as_slice(&self) -> &[T]
        ensures { result.now ≡ self.now.items }
    {
        self.items.as_slice()
    }

    pub fn len(&self) -> usize
        ensures { result ≡ length self.now.items }
    {
        self.items.len()
    }

    pub fn into_vec(self) -> Vec<T>
        ensures { result.items ≡ self.items }
    {
        self.items
    }

    /// Makes room for one item.
    pub fn reserve(&mut self) -> Result<(), Memory>
        ensures spare { OnOk result (1 ≤ self.new.spare) }
        ensures items { self.new.items ≡ self.old.items }
    {
        self.items.reserve(1)?;
        Ok(())
    }

    /// Appends an item into room that `reserve` made; takes no memory.
    pub fn push_reserved(&mut self, item: T)
        requires { 1 ≤ self.old.spare }
        ensures { self.new.items ≡ self.old.items ++ item ∷ [] }
    {
        match self.items.push(item) {
            Ok(()) => (),
            Err(_) => unreachable!(),
        }
    }
}
