//! What was done to single words, and what is known of it.

use crate::access_names::{ACCESSES, STAGES, names_access, names_stage};
use crate::words::Word;
use dx_base::{Memory, Seq};
use std::alloc::Global;
use vk_sync_rules::Place;
use vk_types::{Access, Accesses, Stage, Stages};

/// Every stage but HOST, and every access.
const DEVICE: Side = Side {
    stages: Stages::ALL_COMMANDS,
    accesses: Accesses(3),
};

/// A place of a queue.
#[derive(Clone, Copy)]
pub(crate) struct At {
    pub queue: u32,
    pub place: Place,
}

/// One side of a barrier.
#[derive(Clone, Copy)]
pub(crate) struct Side {
    pub stages: Stages,
    pub accesses: Accesses,
}

/// From a place of a queue on commands of a stage are ordered after an access.
#[derive(Clone, Copy)]
pub(crate) struct Reach {
    pub from: At,
    pub stage: Stage,
}

/// From a place of a queue on a write is visible to an access in a stage.
#[derive(Clone, Copy)]
pub(crate) struct Sight {
    pub from: At,
    pub stage: Stage,
    pub access: Access,
}

/// One access of one word.
#[derive(Drop)]
pub(crate) struct WordAccess {
    pub word: Word,
    pub writes: bool,
    /// None of the host and of a layout change.
    pub access: Option<Access>,
    /// The place of the command that made it; None of the host.
    pub maker: Option<At>,
    /// The stage in which it was made; None of the host and of a layout change.
    pub stage: Option<Stage>,
    pub reach: Seq<Reach>,
    pub visible: Seq<Sight>,
    /// The timelines and values that cover it.
    pub signalled: Seq<(u32, u64)>,
    pub available: bool,
}

/// The start of a batch.
pub(crate) fn start_of(queue: u32, number: u64) -> At {
    At {
        queue,
        place: Place { number, index: 0 },
    }
}

/// Whether a place is before another one of its queue.
fn is_before(one: Place, other: Place) -> bool {
    one.number < other.number || (one.number == other.number && one.index < other.index)
}

impl At {
    /// Whether it is on the same queue and before a place.
    pub fn is_before(self, other: At) -> bool {
        self.queue == other.queue && is_before(self.place, other.place)
    }

    /// Whether it is on the same queue, and that place or before it.
    pub fn is_by(self, other: At) -> bool {
        self.queue == other.queue && !is_before(other.place, self.place)
    }
}

impl WordAccess {
    /// An access that was just made, and of which nothing is known.
    pub fn new(alloc: Global, word: Word, writes: bool) -> WordAccess {
        WordAccess {
            word,
            writes,
            access: None,
            maker: None,
            stage: None,
            reach: Seq::new(alloc),
            visible: Seq::new(alloc),
            signalled: Seq::new(alloc),
            available: false,
        }
    }

    /// Whether commands of a stage are ordered after it at a place.
    pub fn is_reached(&self, at: At, stage: Stage) -> bool {
        for reach in self.reach.as_slice() {
            if reach.stage == stage && reach.from.is_by(at) {
                return true;
            }
        }
        false
    }

    /// Whether it is visible to an access in a stage at a place.
    pub fn is_visible(&self, at: At, stage: Stage, access: Access) -> bool {
        for sight in self.visible.as_slice() {
            if sight.stage == stage && sight.access == access && sight.from.is_by(at) {
                return true;
            }
        }
        false
    }

    /// Whether a command before a place of its queue made it in a stage of a set.
    fn is_made_before(&self, at: At, from: Stages) -> bool {
        match (self.maker, self.stage) {
            (Some(maker), Some(stage)) => maker.is_before(at) && names_stage(from, stage),
            _ => false,
        }
    }

    /// Whether it is in the first scope of a barrier.
    pub fn is_in_first_scope(&self, at: At, from: Stages) -> bool {
        if self.is_made_before(at, from) {
            return true;
        }
        for stage in STAGES {
            if names_stage(from, stage) && self.is_reached(at, stage) {
                return true;
            }
        }
        false
    }

    /// Whether a barrier makes it available.
    pub fn is_made_available(&self, at: At, from: Side) -> bool {
        match self.access {
            None => false,
            Some(access) => {
                self.is_made_before(at, from.stages) && names_access(from.accesses, access)
            }
        }
    }

    /// Commands of a side are ordered after it from a place on; where it is an available write, it is visible there.
    pub fn extend(&mut self, from: At, to: Side) -> Result<(), Memory> {
        for stage in STAGES {
            if names_stage(to.stages, stage) {
                self.reach_stage(from, stage)?;
                if self.writes && self.available {
                    self.show(from, stage, to.accesses)?;
                }
            }
        }
        Ok(())
    }

    /// Commands of a stage are ordered after it from a place on, unless they are so from an earlier place.
    fn reach_stage(&mut self, from: At, stage: Stage) -> Result<(), Memory> {
        if self.is_reached(from, stage) {
            return Ok(());
        }
        self.reach.push(Reach { from, stage })
    }

    /// It is visible to some accesses in a stage from a place on.
    fn show(&mut self, from: At, stage: Stage, seen: Accesses) -> Result<(), Memory> {
        for access in ACCESSES {
            if names_access(seen, access) && !self.is_visible(from, stage, access) {
                self.visible.push(Sight {
                    from,
                    stage,
                    access,
                })?;
            }
        }
        Ok(())
    }

    /// A barrier stands at a place.
    pub fn cross(&mut self, at: At, from: Side, to: Side) -> Result<(), Memory> {
        if self.writes && self.is_made_available(at, from) {
            self.available = true;
        }
        if self.is_in_first_scope(at, from.stages) {
            self.extend(at, to)?;
        }
        Ok(())
    }

    /// A batch passed, with these waits.
    pub fn pass(&mut self, start: At, waits: &[(u32, u64)]) -> Result<(), Memory> {
        if self.is_awaited(waits) {
            self.extend(start, DEVICE)?;
        }
        Ok(())
    }

    /// Whether a value of at most that of a wait signalled it.
    fn is_awaited(&self, waits: &[(u32, u64)]) -> bool {
        for (timeline, value) in self.signalled.as_slice() {
            for (awaited, least) in waits {
                if *timeline == *awaited && *value <= *least {
                    return true;
                }
            }
        }
        false
    }

    /// A batch finished, and set these values.
    pub fn finish(&mut self, queue: u32, number: u64, sets: &[(u32, u64)]) -> Result<(), Memory> {
        if self.is_finished(queue, number) {
            self.signalled.extend_from_slice(sets)?;
            if self.writes {
                self.available = true;
            }
        }
        Ok(())
    }

    /// Whether it was made on a queue in a batch up to a number, or commands there are ordered after it.
    fn is_finished(&self, queue: u32, number: u64) -> bool {
        if let Some(maker) = self.maker {
            if maker.queue == queue && maker.place.number <= number {
                return true;
            }
        }
        for reach in self.reach.as_slice() {
            if reach.from.queue == queue && reach.from.place.number <= number {
                return true;
            }
        }
        false
    }

    /// A batch was submitted.
    pub fn submit(&mut self, start: At) -> Result<(), Memory> {
        if self.maker.is_none() {
            self.extend(start, DEVICE)?;
        }
        Ok(())
    }

    /// Whether a host access is ordered after it.
    pub fn is_ordered_for_host(&self) -> bool {
        self.maker.is_none() || !self.signalled.is_empty()
    }
}
