//! The words that a command touches, piece by piece.

ghost use Rattle.std.specs.Prelude.{◌≡◌, ◌+◌, OnOk, ◌++◌};
ghost use Rattle.vk_sync_rules.specs.Pieces.{does_write, is_outside as lies_outside};

use crate::access_sets::is_some;
use crate::ranges::WordRange;
use crate::sizes::{is_there, words_in};
use vk_types::{Accesses, DevicePlan, VkLayout};

/// A row of a copy, or a register: its words, and how it reads and writes them; no accesses where it does not.
#[derive(Clone, Copy, Debug, PartialEq, Eq)]
pub(crate) struct Piece {
    pub range: WordRange,
    pub reads: Accesses,
    pub writes: Accesses,
    /// The layout that a copy names for an image.
    pub named: Option<VkLayout>,
}

impl Piece {
    /// Whether it writes.
    pub(crate) fn does_write(self) -> bool
        ensures { result ≡ does_write self }
    {
        is_some(self.writes)
    }

    /// Whether it lies beyond the end of its buffer or image, or its image lacks the subresource.
    pub(crate) fn is_outside(self, plan: &DevicePlan) -> bool
        ensures { result ≡ lies_outside plan.now self }
    {
        let end = self.range.first as u128 + self.range.count as u128;
        !is_there(plan, self.range.resource) || (words_in(plan, self.range.resource) as u128) < end
    }
}
