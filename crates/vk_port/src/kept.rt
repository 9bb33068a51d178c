//! The state of the Vulkan machine, which only proofs read.

ghost use Rattle.std.specs.Prelude.{◌≡◌};
ghost use Rattle.std.specs.Borrow.{ftrue};
ghost use Rattle.vk_port.specs.Seen.{Seen, nothing_seen, after_note};

use crate::steps::Stepped;
use std::marker::Model;
use vk_types::{Batch, DevicePlan};

/// What the Vulkan machine has seen of a device. It takes no memory.
#[derive(Drop)]
pub struct Kept {
    pub ghost seen: { Seen },
}

impl Model for Kept {
    ghost also_owns = { λ _. ftrue };
}

/// Something that was done with a device.
#[derive(Clone, Copy, Drop)]
pub enum Note<'a> {
    /// The objects of a plan were made.
    Create(&'a DevicePlan),
    /// A batch was submitted.
    Submit(&'a Batch),
    /// A step, and what the slots gave that it loaded.
    Step(Stepped, &'a [u32]),
    /// A buffer, the first of its words, and what was written.
    HostWrite(u32, u32, &'a [u32]),
    /// A buffer, the first of its words, and what was read.
    HostRead(u32, u32, &'a [u32]),
}

impl Kept {
    /// Of a new device.
    pub fn new() -> Kept
        ensures { result.seen ≡ nothing_seen }
    {
        Kept {}
    }

    /// After one more thing was done.
    #[inline(always)]
    pub fn then(&self, _note: &Note<'_>) -> Kept
        ensures { result.seen ≡ after_note self.now.seen _note.now }
    {
        Kept {}
    }
}
