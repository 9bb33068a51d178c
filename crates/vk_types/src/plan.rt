//! The objects that a device is to make.

use dx_base::{Class, Home, Seq};

/// A buffer of so many words of 32 bits.
#[derive(Clone, Copy, Debug, PartialEq, Eq)]
pub struct PlanBuffer {
    pub words: u32,
    pub home: Home,
}

/// An image whose texels are words of 32 bits. A mip has half the width and the height of the one before
/// it, and at least 1.
#[derive(Clone, Copy, Debug, PartialEq, Eq)]
pub struct PlanImage {
    pub width: u32,
    pub height: u32,
    pub mips: u32,
    pub layers: u32,
}

/// A view of words of a buffer, or of a subresource of an image. Both are named by their place in the
/// plan, and `first` and `words` are in words of 32 bits.
#[derive(Clone, Copy, Debug, PartialEq, Eq)]
pub enum PlanView {
    Buffer {
        class: Class,
        buffer: u32,
        first: u32,
        words: u32,
    },
    Image {
        class: Class,
        image: u32,
        sub: u32,
    },
}

/// The objects of a device. Each is named by its place, counted from 0.
#[derive(Debug, PartialEq, Eq, Drop)]
pub struct DevicePlan {
    pub buffers: Seq<PlanBuffer>,
    pub images: Seq<PlanImage>,
    /// The number of slots of each heap.
    pub heaps: Seq<u32>,
    pub views: Seq<PlanView>,
    /// How many queues there are.
    pub queues: u32,
    /// How many timeline semaphores there are.
    pub timelines: u32,
}
