//! How far the work of queues has come, as the Vulkan machine and a device both keep it.

ghost use Rattle.std.specs.Prelude.{◌≡◌, [], ◌∷◌, ◌++◌, replicate, IfOk, OnOk};
ghost use Rattle.vk_sync_rules.specs.Progress.{has_room, journal_of, value_in};
ghost use Rattle.vk_types.specs.Timelines.{reached};

use dx_base::{Memory, Room, Seq};
use std::alloc::Global;
use vk_types::{Batch, are_reached, timeline_value};

/// The values of timelines, all batches that were submitted, oldest first, and what is kept of each queue.
#[derive(Drop)]
pub struct Progress<L> {
    pub timelines: Seq<u64>,
    pub journal: Room<Batch>,
    pub lanes: Seq<L>,
}

impl<L: Drop> Progress<L> {
    /// No timelines, no batches and no queues; takes no memory.
    pub fn empty(alloc: Global) -> Progress<L>
        ensures timelines { result.timelines ≡ [] }
        ensures journal { journal_of result ≡ [] }
        ensures lanes { result.lanes ≡ [] }
    {
        Progress {
            timelines: Seq::new(alloc),
            journal: Room::new(alloc),
            lanes: Seq::new(alloc),
        }
    }

    /// So many timelines, each of value 0, and what is kept of each queue at first. No batch was submitted.
    pub fn new(alloc: Global, timelines: u32, lanes: Seq<L>) -> Result<Progress<L>, Memory>
        ensures timelines { IfOk result (λ progress. progress.timelines ≡ replicate timelines 0) }
        ensures journal { IfOk result (λ progress. journal_of progress ≡ []) }
        ensures lanes { IfOk result (λ progress. progress.lanes ≡ lanes) }
    {
        Ok(Progress {
            timelines: Seq::from_vec(vec![in alloc; 0; timelines as usize]?),
            journal: Room::new(alloc),
            lanes,
        })
    }

    /// The value of a timeline; 0 where it is not there.
    pub fn value(&self, timeline: u32) -> u64
        ensures { result ≡ value_in self.now timeline }
    {
        timeline_value(&self.timelines, timeline)
    }

    /// Whether each wait has its value reached (Vulkan 1.3, 7.4.2).
    pub fn reaches(&self, waits: &Seq<(u32, u64)>) -> bool
        ensures { result ≡ reached self.now.timelines waits.now }
    {
        are_reached(&self.timelines, waits)
    }

    /// All batches that were submitted, oldest first.
    pub fn batches(&self) -> &[Batch]
        ensures { result.now ≡ journal_of self.now }
    {
        self.journal.as_slice()
    }

    /// Makes room for one batch.
    pub fn reserve(&mut self) -> Result<(), Memory>
        ensures room { OnOk result (has_room self.new) }
        ensures timelines { self.new.timelines ≡ self.old.timelines }
        ensures journal { journal_of self.new ≡ journal_of self.old }
        ensures lanes { self.new.lanes ≡ self.old.lanes }
    {
        self.journal.reserve()
    }

    /// Takes a batch, into room that `reserve` made; takes no memory (Vulkan 1.3, 6.5).
    pub fn submit(&mut self, batch: Batch)
        requires { has_room self.old }
        ensures journal { journal_of self.new ≡ journal_of self.old ++ batch ∷ [] }
        ensures timelines { self.new.timelines ≡ self.old.timelines }
        ensures lanes { self.new.lanes ≡ self.old.lanes }
    {
        self.journal.push_reserved(batch);
    }
}
