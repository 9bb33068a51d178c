//! The last change of each subresource by a list.

ghost use Rattle.std.specs.Prelude.{◌≡◌, ℕ, None, OnOk, IfOk};
ghost use Rattle.barrier_lowering.specs.ImageChanges.{last_in, last_given, IsChanged, Adds};

use dx_base::Memory;
use std::alloc::Global;
use std::collections::BTreeMap;
use vk_types::{Change, VkLayout};

/// The last changes of an image's subresources: the last one of all, and behind it the last of each that
/// was changed alone.
#[derive(Debug, Drop)]
pub(crate) struct SubChanges {
    all: Option<VkLayout>,
    subs: BTreeMap<u32, VkLayout>,
}

/// The last changes of images, by their numbers.
#[derive(Debug, Drop)]
pub(crate) struct ImageChanges {
    images: BTreeMap<u32, SubChanges>,
}

impl SubChanges {
    /// No changes.
    fn new(alloc: Global) -> SubChanges
        ensures { (sub : ℕ) → last_in result sub ≡ None }
    {
        SubChanges {
            all: None,
            subs: BTreeMap::new(alloc),
        }
    }

    /// These changes, and behind them one of a subresource or of all.
    fn with(self, alloc: Global, sub: Option<u32>, new: VkLayout) -> Result<SubChanges, Memory>
        ensures { IfOk result (λ changes. IsChanged sub new self changes) }
    {
        let mut changes = self;
        match sub {
            None => {
                changes.all = Some(new);
                changes.subs = BTreeMap::new(alloc);
            }
            Some(sub) => {
                changes.subs.insert(sub, new)?;
            }
        }
        Ok(changes)
    }

    /// The layout that a subresource was given last, if any.
    fn last(&self, sub: u32) -> Option<VkLayout>
        ensures { result ≡ last_in self.now sub }
    {
        match self.subs.get(&sub) {
            Some(layout) => Some(*layout),
            None => self.all,
        }
    }
}

impl ImageChanges {
    /// No changes.
    pub(crate) fn new(alloc: Global) -> ImageChanges
        ensures { (image sub : ℕ) → last_given result image sub ≡ None }
    {
        ImageChanges {
            images: BTreeMap::new(alloc),
        }
    }

    /// Adds a change behind these.
    pub(crate) fn add(&mut self, alloc: Global, change: Change) -> Result<(), Memory>
        ensures { OnOk result (Adds change self.old self.new) }
    {
        let before = match self.images.remove(&change.image) {
            Some(changes) => changes,
            None => SubChanges::new(alloc),
        };
        let after = before.with(alloc, change.sub, change.new)?;
        self.images.insert(change.image, after)?;
        Ok(())
    }

    /// The layout that a subresource of an image was given last, if any.
    pub(crate) fn last(&self, image: u32, sub: u32) -> Option<VkLayout>
        ensures { result ≡ last_given self.now image sub }
    {
        match self.images.get(&image) {
            Some(changes) => changes.last(sub),
            None => None,
        }
    }
}
