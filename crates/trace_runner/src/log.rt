//! What a run draws and takes.

ghost use Rattle.std.specs.Prelude.{◌≡◌, ◌≤◌, [], OnOk};

use dx_base::{Memory, Room, Step};
use std::alloc::Global;

/// The choices that were drawn, and the steps that were taken.
#[derive(Debug, Drop)]
pub(crate) struct Log {
    pub choices: Room<u64>,
    pub taken: Room<Step>,
}

impl Log {
    /// Nothing was drawn; takes no memory.
    pub fn new(alloc: Global) -> Log
        ensures choices { result.choices.items ≡ [] }
        ensures taken { result.taken.items ≡ [] }
    {
        Log {
            choices: Room::new(alloc),
            taken: Room::new(alloc),
        }
    }

    /// Makes room for one choice and one step.
    pub fn reserve(&mut self) -> Result<(), Memory>
        ensures choices { OnOk result (1 ≤ self.new.choices.spare) }
        ensures taken { OnOk result (1 ≤ self.new.taken.spare) }
        ensures same_choices { self.new.choices.items ≡ self.old.choices.items }
        ensures same_taken { self.new.taken.items ≡ self.old.taken.items }
    {
        self.choices.reserve()?;
        self.taken.reserve()
    }
}
