//! The commands of a device.

use crate::accesses::Accesses;
use crate::layouts::{Change, VkLayout};
use crate::registers::{Count, Register};
use crate::stages::Stages;
use dx_base::Routine;

/// A command of a command buffer. A buffer and an image are named by their place in the plan, a `sub` is
/// mip plus layer times the number of mips, and each `first`, `pitch` and length is in words of 32 bits.
#[derive(Clone, Copy, Debug, PartialEq, Eq)]
pub enum VkCommand {
    /// A memory dependency (VkMemoryBarrier2): what was `made` in the stages `from` comes before what
    /// is `seen` in the stages `to`. A layout change comes between the two (VkImageMemoryBarrier2).
    Barrier {
        from: Stages,
        made: Accesses,
        to: Stages,
        seen: Accesses,
        change: Option<Change>,
    },
    /// Copies words of one buffer into another (vkCmdCopyBuffer2).
    Copy {
        to: u32,
        to_first: u32,
        from: u32,
        from_first: u32,
        words: u32,
    },
    /// Copies a subresource into another (vkCmdCopyImage2).
    CopyImage {
        to: u32,
        to_sub: u32,
        to_layout: VkLayout,
        from: u32,
        from_sub: u32,
        from_layout: VkLayout,
    },
    /// Copies rows of a buffer into a subresource (vkCmdCopyBufferToImage2).
    CopyIn {
        image: u32,
        sub: u32,
        layout: VkLayout,
        buffer: u32,
        first: u32,
        pitch: u32,
    },
    /// Copies a subresource into rows of a buffer (vkCmdCopyImageToBuffer2).
    CopyOut {
        buffer: u32,
        first: u32,
        pitch: u32,
        image: u32,
        sub: u32,
        layout: VkLayout,
    },
    /// Writes one word over all words of a view.
    Clear {
        target: Register,
        word: u32,
    },
    /// Runs a routine (vkCmdDispatch).
    Dispatch {
        routine: Routine,
        count: Count,
        t0: Register,
        t1: Register,
        u0: Register,
        b0: Register,
    },
}
