//! The single words of a device, and the buffers and subresources that have them.

use dx_base::{Memory, Seq};
use std::alloc::Global;
use vk_sync_rules::VkResource;
use vk_types::{DevicePlan, PlanImage, VkLayout};

/// A word of a buffer or a subresource.
#[derive(Clone, Copy, PartialEq, Eq)]
pub(crate) struct Word {
    pub resource: VkResource,
    pub at: u64,
}

/// A buffer or a subresource: how many words a row has, and how many rows there are. A buffer is one row.
#[derive(Clone, Copy)]
pub(crate) struct Extent {
    pub resource: VkResource,
    pub width: u64,
    pub rows: u64,
}

impl Extent {
    /// How many words it has.
    pub fn count(self) -> u64 {
        self.width.saturating_mul(self.rows)
    }
}

/// An extent at a mip: halved for each mip before it, and at least 1.
fn halved(extent: u32, mip: u32) -> u64 {
    let mut left = extent;
    for _before in 0..mip {
        left = left / 2;
    }
    (left as u64).max(1)
}

/// Appends the subresources of an image: the mips of each layer in turn.
fn push_subs(extents: &mut Seq<Extent>, image: u32, of: &PlanImage) -> Result<(), Memory> {
    let mut sub = 0u32;
    for _layer in 0..of.layers {
        for mip in 0..of.mips {
            extents.push(Extent {
                resource: VkResource::Image(image, sub),
                width: halved(of.width, mip),
                rows: halved(of.height, mip),
            })?;
            sub = sub.saturating_add(1);
        }
    }
    Ok(())
}

/// Appends the buffers of a plan.
fn push_buffers(extents: &mut Seq<Extent>, plan: &DevicePlan) -> Result<(), Memory> {
    let mut buffer = 0u32;
    for of in plan.buffers.as_slice() {
        extents.push(Extent {
            resource: VkResource::Buffer(buffer),
            width: of.words as u64,
            rows: 1,
        })?;
        buffer = buffer.saturating_add(1);
    }
    Ok(())
}

/// Appends the subresources of the images of a plan.
fn push_images(extents: &mut Seq<Extent>, plan: &DevicePlan) -> Result<(), Memory> {
    let mut image = 0u32;
    for of in plan.images.as_slice() {
        push_subs(extents, image, of)?;
        image = image.saturating_add(1);
    }
    Ok(())
}

/// The buffers and subresources of a plan.
pub(crate) fn extents_of(alloc: Global, plan: &DevicePlan) -> Result<Seq<Extent>, Memory> {
    let mut extents = Seq::new(alloc);
    push_buffers(&mut extents, plan)?;
    push_images(&mut extents, plan)?;
    Ok(extents)
}

/// All words of some resources; at first each is 0.
pub(crate) fn words_of(
    alloc: Global,
    extents: &[Extent],
) -> Result<Seq<(Word, Option<u32>)>, Memory> {
    let mut words = Seq::new(alloc);
    for extent in extents {
        for at in 0..extent.count() {
            let word = Word {
                resource: extent.resource,
                at,
            };
            words.push((word, Some(0)))?;
        }
    }
    Ok(words)
}

/// The layouts of the subresources; at first each is UNDEFINED.
pub(crate) fn layouts_of(
    alloc: Global,
    extents: &[Extent],
) -> Result<Seq<(VkResource, VkLayout)>, Memory> {
    let mut layouts = Seq::new(alloc);
    for extent in extents {
        if let VkResource::Image(_, _) = extent.resource {
            layouts.push((extent.resource, VkLayout::Undefined))?;
        }
    }
    Ok(layouts)
}
