//! The slow machine: it keeps each access of each single word, with lists of all that was said of it, and finds everything by
//! walks.

use crate::batches::SlowBatch;
use crate::word_accesses::WordAccess;
use crate::words::{Extent, Word, extents_of, layouts_of, words_of};
use dx_base::{Memory, Seq};
use std::alloc::Global;
use vk_sync_rules::{VkResource, VkRule};
use vk_types::{DevicePlan, PlanView, VkLayout};

/// The slow machine.
#[derive(Drop)]
pub struct SlowMachine {
    pub(crate) alloc: Global,
    pub(crate) extents: Seq<Extent>,
    pub(crate) views: Seq<PlanView>,
    /// Each word with its number, where it is known.
    pub(crate) words: Seq<(Word, Option<u32>)>,
    /// Each subresource with its layout.
    pub(crate) layouts: Seq<(VkResource, VkLayout)>,
    pub(crate) timelines: Seq<u64>,
    pub(crate) batches: Seq<SlowBatch>,
    /// What was done, in order.
    pub(crate) accesses: Seq<WordAccess>,
    pub(crate) broken: Option<VkRule>,
    pub(crate) serial: bool,
}

impl SlowMachine {
    /// The machine of a device that was just created.
    pub fn new(alloc: Global, plan: &DevicePlan) -> Result<SlowMachine, Memory> {
        let extents = extents_of(alloc, plan)?;
        let words = words_of(alloc, extents.as_slice())?;
        let layouts = layouts_of(alloc, extents.as_slice())?;
        Ok(SlowMachine {
            alloc,
            extents,
            views: Seq::from_slice(alloc, plan.views.as_slice())?,
            words,
            layouts,
            timelines: Seq::from_vec(vec![in alloc; 0; plan.timelines as usize]?),
            batches: Seq::new(alloc),
            accesses: Seq::new(alloc),
            broken: None,
            serial: true,
        })
    }

    /// The extent of a resource, if it is there.
    pub(crate) fn extent_of(&self, resource: VkResource) -> Option<Extent> {
        for extent in self.extents.as_slice() {
            if extent.resource == resource {
                return Some(*extent);
            }
        }
        None
    }

    /// How many words a resource has, if it is there.
    pub(crate) fn size_of(&self, resource: VkResource) -> Option<u64> {
        Some(self.extent_of(resource)?.count())
    }

    /// The number of a word, where it is known.
    pub(crate) fn number_of(&self, word: Word) -> Option<u32> {
        for (one, number) in self.words.as_slice() {
            if *one == word {
                return *number;
            }
        }
        None
    }

    /// Sets the number of a word; None leaves any.
    pub(crate) fn set_number(&mut self, word: Word, number: Option<u32>) {
        for pair in self.words.as_mut_slice().iter_mut() {
            if pair.0 == word {
                pair.1 = number;
            }
        }
    }

    /// The layout of a subresource.
    pub(crate) fn layout_of(&self, resource: VkResource) -> VkLayout {
        for (one, layout) in self.layouts.as_slice() {
            if *one == resource {
                return *layout;
            }
        }
        VkLayout::Undefined
    }

    /// Sets the layout of a subresource.
    pub(crate) fn set_layout(&mut self, resource: VkResource, layout: VkLayout) {
        for pair in self.layouts.as_mut_slice().iter_mut() {
            if pair.0 == resource {
                pair.1 = layout;
            }
        }
    }

    /// The value of a timeline; 0 for one that is not there.
    pub(crate) fn value_of(&self, timeline: u32) -> u64 {
        self.timelines.get(timeline as usize).copied().unwrap_or(0)
    }

    /// The last write of a word, if there is one.
    pub(crate) fn last_write(&self, word: Word) -> Option<&WordAccess> {
        let mut last = None;
        for access in self.accesses.as_slice() {
            if access.writes && access.word == word {
                last = Some(access);
            }
        }
        last
    }
}
