//! What the Vulkan machine tells of its state.

ghost use Rattle.std.specs.Prelude.{◌≡◌, [], None, slice_index_or};
ghost use Rattle.vk_sync_rules.specs.Machines.{state_of};
ghost use Rattle.vk_sync_rules.specs.Numbers.{numbers_in};
ghost use Rattle.vk_types.specs.declared.layouts.VkLayout.TheVariants.{Undefined};

use crate::layouts::layout_at;
use crate::machine::VkMachine;
use crate::ranges::VkResource;
use crate::rules::VkRule;
use vk_types::VkLayout;

/// The number at a place of some words; None where there is none.
fn number_at(words: &[Option<u32>], word: usize) -> Option<u32>
    ensures { result ≡ slice_index_or words.now word None }
{
    if word < words.len() {
        words[word]
    } else {
        None
    }
}

impl VkMachine {
    /// The number that stands in a word of a buffer or a subresource; None where any number may stand, and where the word is
    /// not there.
    pub fn number(&self, resource: VkResource, word: u64) -> Option<u32>
        ensures { result ≡ slice_index_or (numbers_in (state_of self.now).numbers resource) word None }
    {
        number_at(self.numbers.words_of(resource), word as usize)
    }

    /// The current layout of a subresource; UNDEFINED where it is not there.
    pub fn layout(&self, image: u32, sub: u32) -> VkLayout
        ensures { result ≡ slice_index_or (slice_index_or (state_of self.now).layouts image []) sub Undefined }
    {
        layout_at(&self.layouts, image, sub)
    }

    /// The value of a timeline; 0 where it is not there.
    pub fn value(&self, timeline: u32) -> u64
        ensures { result ≡ slice_index_or (state_of self.now).timelines timeline 0 }
    {
        self.progress.value(timeline)
    }

    /// The least rule that the first step broke that broke one.
    pub fn broken(&self) -> Option<VkRule>
        ensures { result ≡ (state_of self.now).broken }
    {
        self.broken
    }

    /// Whether no batch passed so far while another one that had passed was unfinished.
    pub fn is_serial(&self) -> bool
        ensures { result ≡ (state_of self.now).serial }
    {
        self.serial
    }
}
