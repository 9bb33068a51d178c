//! Descriptor sets, as a device reads them.

ghost use Rattle.std.specs.Prelude.{◌≡◌, ℕ, ◌<◌, List, [], ◌∷◌, ◌++◌, length, slice_index_or};

/// The descriptor sets that a step reads from.
pub trait Sets {
    /// The number of slots of each heap.
    ghost sizes: { Self → List ℕ };
    /// The loads so far, oldest first: a heap, a slot and the answer.
    ghost given: { Self → List (ℕ × ℕ × ℕ) };

    /// The view in a slot of a heap, plus one; 0 for a slot that is not set.
    fn load(&mut self, heap: u32, slot: u32) -> u32
        requires slot { slot < slice_index_or (sizes self.old) heap 0 }
        requires few { length (given self.old) < 4 }
        ensures given { given self.new ≡ given self.old ++ (heap, slot, result) ∷ [] }
        ensures sizes { sizes self.new ≡ sizes self.old };
}

/// Descriptor sets of no heaps.
#[derive(Clone, Copy, Debug, PartialEq, Eq)]
pub struct NoSets;

impl Sets for NoSets {
    ghost sizes = { λ _. [] };

    ghost given = { λ _. [] };

    /// No slot is set. A call that asks for a slot inside its heap can't be made, since there is no heap.
    fn load(&mut self, _heap: u32, _slot: u32) -> u32
        ensures { result ≡ 0 }
    {
        0
    }
}
