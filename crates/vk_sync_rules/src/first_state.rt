//! The Vulkan machine of a device that was just created.

ghost use Rattle.std.specs.Prelude.{◌≡◌, Some, IfOk, map, replicate};
ghost use Rattle.vk_sync_rules.specs.Machines.{state_of, zeros_of_buffer, first_layouts_of};
ghost use Rattle.vk_sync_rules.specs.Sizes.{each_word};
ghost use Rattle.vk_sync_rules.specs.VkState.{first_state, first_queues as queues_at_first};

use crate::counts::Counts;
use crate::machine::VkMachine;
use crate::numbers::NumberTable;
use crate::progress::Progress;
use crate::sizes::{row_count, row_words, sub_count};
use dx_base::{Memory, Seq};
use std::alloc::Global;
use vk_types::{DevicePlan, PlanImage, VkLayout};

/// The counts of a queue whose first batch has that number.
fn first_counts(number: u64) -> Counts
    ensures { result ≡ record { submitted = number; passed = number; ended = number } }
{
    Counts {
        submitted: number,
        passed: number,
        ended: number,
    }
}

/// The counts of queues at first.
#[tactic(auto, using(crate::proofs::FirstLists::queues_are))]
fn first_queues(alloc: Global, queues: u32) -> Result<Seq<Counts>, Memory>
    ensures { IfOk result (λ counts. counts ≡ queues_at_first queues) }
{
    let mut counts = Seq::new(alloc);
    if queues == 0 {
        return Ok(counts);
    }
    counts.push(first_counts(0))?;
    let others = vec![in alloc; first_counts(1); (queues - 1) as usize]?;
    counts.extend_from_slice(others.as_slice())?;
    Ok(counts)
}

/// So many words of zeros.
fn zeros(alloc: Global, words: usize) -> Result<Seq<Option<u32>>, Memory>
    ensures { IfOk result (λ zeros. zeros ≡ replicate words (Some 0)) }
{
    Ok(Seq::from_vec(vec![in alloc; Some(0); words]?))
}

/// The numbers of buffers at first.
fn first_buffers(alloc: Global, plan: &DevicePlan) -> Result<Seq<Seq<Option<u32>>>, Memory>
    ensures { IfOk result (λ buffers. buffers ≡ map zeros_of_buffer plan.now.buffers) }
{
    let mut buffers = Seq::new(alloc);
    for buffer in plan.buffers.as_slice() {
        buffers.push(zeros(alloc, buffer.words as usize)?)?;
    }
    Ok(buffers)
}

/// The numbers of the subresources of an image at first.
#[tactic(auto, using(crate::proofs::FirstLists::map_up_to_more))]
fn first_subs(alloc: Global, image: &PlanImage) -> Result<Seq<Seq<Option<u32>>>, Memory>
    ensures { IfOk result (λ subs. subs ≡ each_word (Some 0) image.now) }
{
    let mut subs = Seq::new(alloc);
    for sub in 0..sub_count(image) {
        let words = row_words(image, sub) as usize * row_count(image, sub) as usize;
        subs.push(zeros(alloc, words)?)?;
    }
    Ok(subs)
}

/// The numbers of images at first.
fn first_images(alloc: Global, plan: &DevicePlan) -> Result<Seq<Seq<Seq<Option<u32>>>>, Memory>
    ensures { IfOk result (λ images. images ≡ map (each_word (Some 0)) plan.now.images) }
{
    let mut images = Seq::new(alloc);
    for image in plan.images.as_slice() {
        images.push(first_subs(alloc, image)?)?;
    }
    Ok(images)
}

/// The layouts of the subresources of an image at first.
fn first_layouts_of_image(alloc: Global, image: &PlanImage) -> Result<Seq<VkLayout>, Memory>
    ensures { IfOk result (λ layouts. layouts ≡ first_layouts_of image.now) }
{
    Ok(Seq::from_vec(vec![in alloc; VkLayout::Undefined; sub_count(image) as usize]?))
}

/// The layouts of images at first.
fn first_layouts(alloc: Global, plan: &DevicePlan) -> Result<Seq<Seq<VkLayout>>, Memory>
    ensures { IfOk result (λ layouts. layouts ≡ map first_layouts_of plan.now.images) }
{
    let mut layouts = Seq::new(alloc);
    for image in plan.images.as_slice() {
        layouts.push(first_layouts_of_image(alloc, image)?)?;
    }
    Ok(layouts)
}

/// A copy of a plan.
fn copy_of(alloc: Global, plan: &DevicePlan) -> Result<DevicePlan, Memory>
    ensures { IfOk result (λ copy. copy ≡ plan.now) }
{
    Ok(DevicePlan {
        buffers: Seq::from_slice(alloc, plan.buffers.as_slice())?,
        images: Seq::from_slice(alloc, plan.images.as_slice())?,
        heaps: Seq::from_slice(alloc, plan.heaps.as_slice())?,
        views: Seq::from_slice(alloc, plan.views.as_slice())?,
        queues: plan.queues,
        timelines: plan.timelines,
    })
}

impl VkMachine {
    /// The machine of a device that was just created: words are zeros, images are UNDEFINED, and nothing was submitted.
    pub fn new(alloc: Global, plan: &DevicePlan) -> Result<VkMachine, Memory>
        ensures { IfOk result (λ machine. state_of machine ≡ first_state plan.now) }
    {
        Ok(VkMachine {
            alloc,
            plan: copy_of(alloc, plan)?,
            numbers: NumberTable {
                buffers: first_buffers(alloc, plan)?,
                images: first_images(alloc, plan)?,
            },
            layouts: first_layouts(alloc, plan)?,
            progress: Progress::new(alloc, plan.timelines, first_queues(alloc, plan.queues)?)?,
            done: Seq::new(alloc),
            accesses: Seq::new(alloc),
            broken: None,
            serial: true,
        })
    }
}
