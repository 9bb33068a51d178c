//! The places of a queue.

ghost use Rattle.std.specs.Prelude.{◌≡◌};
ghost use Rattle.vk_sync_rules.specs.Places.{is_before, is_by, is_at};

/// A place of a queue. Places stand in the order of their batches, and in a batch in the order of its commands.
#[derive(Clone, Copy, Debug, PartialEq, Eq)]
pub struct Place {
    /// The number of the batch.
    pub number: u64,
    /// The command's place in the batch, counted from 1; 0 is the batch's start.
    pub index: u64,
}

impl Place {
    /// Whether it is before another place of its queue.
    pub fn is_before(self, other: Place) -> bool
        ensures { result ≡ is_before self other }
    {
        self.number < other.number || (self.number == other.number && self.index < other.index)
    }

    /// Whether it is another place of its queue, or before it.
    pub fn is_by(self, other: Place) -> bool
        ensures { result ≡ is_by self other }
    {
        self.number < other.number || (self.number == other.number && self.index <= other.index)
    }

    /// Whether it is that place.
    pub fn is_at(self, other: Place) -> bool
        ensures { result ≡ is_at self other }
    {
        self.number == other.number && self.index == other.index
    }
}
