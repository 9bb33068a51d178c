//! The rules of Vulkan.

/// A rule of Vulkan that a step may break.
#[derive(Clone, Copy, Debug, PartialEq, Eq)]
pub enum VkRule {
    /// An access is not ordered after an earlier one of its words, one of the two writing, or does not see the last write.
    V1,
    /// The layout of an image does not allow an access, or is not the one that a copy names.
    V2,
    /// The old layout of a layout change is neither UNDEFINED nor the current one.
    V3,
    /// A value set is not above the timeline's value and those still to be set.
    V4,
    /// A value set or waited for is too far from the timeline's value or from one still to be set or waited for.
    V5,
    /// A descriptor is updated that an unfinished command names.
    V6,
    /// A command or the host passes the end of a buffer or an image.
    V7,
    /// A barrier names an access that none of its stages supports.
    V8,
    /// The number of a batch is not the next of its queue.
    V9,
    /// The host reads words that are not ordered, or not visible to it.
    V10,
}
