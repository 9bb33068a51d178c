//! The words that commands and the host touch.

ghost use Rattle.std.specs.Prelude.{◌≡◌, ◌+◌};
ghost use Rattle.vk_sync_rules.specs.Ranges.{same_resource, overlap, has_word as has_that_word};

/// What has words: a buffer, or a subresource of an image. Both are named by their place in the plan.
#[derive(Clone, Copy, Debug, PartialEq, Eq)]
pub enum VkResource {
    Buffer(u32),
    /// An image and its subresource, which is mip plus layer times the number of mips.
    Image(u32, u32),
}

/// Some words of 32 bits of a buffer or a subresource, `count` of them from the word `first` on.
#[derive(Clone, Copy, Debug, PartialEq, Eq)]
pub struct WordRange {
    pub resource: VkResource,
    pub first: u64,
    pub count: u64,
}

impl VkResource {
    /// Whether it is that one.
    pub fn is_same(self, other: VkResource) -> bool
        ensures { result ≡ same_resource self other }
    {
        match (self, other) {
            (VkResource::Buffer(a), VkResource::Buffer(b)) => a == b,
            (VkResource::Buffer(_), VkResource::Image(_, _)) => false,
            (VkResource::Image(_, _), VkResource::Buffer(_)) => false,
            (VkResource::Image(image, sub), VkResource::Image(other_image, other_sub)) => {
                image == other_image && sub == other_sub
            }
        }
    }
}

impl WordRange {
    /// The word behind the last one.
    fn end(self) -> u128
        ensures { result ≡ self.first + self.count }
    {
        self.first as u128 + self.count as u128
    }

    /// Whether a word of one is a word of the other, too.
    pub fn overlaps(self, other: WordRange) -> bool
        ensures { result ≡ overlap self other }
    {
        self.resource.is_same(other.resource)
            && (self.first.max(other.first) as u128) < self.end().min(other.end())
    }

    /// Whether it has a word of a buffer or a subresource.
    pub fn has_word(self, resource: VkResource, word: u128) -> bool
        ensures { result ≡ has_that_word resource word self }
    {
        resource.is_same(self.resource) && (self.first as u128 <= word && word < self.end())
    }
}
