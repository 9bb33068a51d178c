//! The events that a judge was fed, which only proofs read.

ghost use Rattle.std.specs.Prelude.{◌≡◌};
ghost use Rattle.std.specs.Borrow.{ftrue};
ghost use Rattle.d3d_judge.specs.Fed.{Fed, nothing_fed, after_note};

use d3d_machine::{Event, World};
use std::marker::Model;

/// The world of a judge, and the events that it was fed. It takes no memory.
#[derive(Drop)]
pub(crate) struct Kept {
    pub ghost fed: { Fed },
}

impl Model for Kept {
    ghost also_owns = { λ _. ftrue };
}

/// Something that a judge was told.
#[derive(Clone, Copy, Drop)]
pub(crate) enum Note<'a> {
    Begin(&'a World),
    Feed(&'a Event),
}

impl Kept {
    /// Of no world.
    pub fn new() -> Kept
        ensures { result.fed ≡ nothing_fed }
    {
        Kept {}
    }

    /// After one thing more was told.
    #[inline(always)]
    pub fn then(&self, _note: &Note<'_>) -> Kept
        ensures { result.fed ≡ after_note self.now.fed _note.now }
    {
        Kept {}
    }
}
