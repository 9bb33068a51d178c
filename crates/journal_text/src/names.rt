//! Which objects of a device a line names.

ghost use Rattle.std.specs.Prelude.{◌≡◌, slice_get};
ghost use Rattle.journal_text.specs.Names.{has_answers, has_buffer, has_image, has_queue, has_slot, has_timelines, has_view, is_in_image, is_large as is_item_large, is_large_image, is_large_view, is_named as is_item_named, is_named_batch, is_named_change, is_named_command, is_named_count, is_named_register, is_named_step, is_named_view};

use crate::item::Item;
use vk_types::{
    Batch, Change, Count, DevicePlan, PlanImage, PlanView, Register, VkCommand, VkStep,
};

/// A buffer is there.
fn has_buffer(plan: &DevicePlan, buffer: u32) -> bool
    ensures { result ≡ has_buffer plan.now buffer }
{
    (buffer as usize) < plan.buffers.len()
}

/// An image is there.
fn has_image(plan: &DevicePlan, image: u32) -> bool
    ensures { result ≡ has_image plan.now image }
{
    (image as usize) < plan.images.len()
}

/// A view is there.
fn has_view(plan: &DevicePlan, view: u32) -> bool
    ensures { result ≡ has_view plan.now view }
{
    (view as usize) < plan.views.len()
}

/// A slot is inside its heap.
fn has_slot(plan: &DevicePlan, heap: u32, slot: u32) -> bool
    ensures { result ≡ has_slot plan.now heap slot }
{
    match plan.heaps.get(heap as usize) {
        None => false,
        Some(slots) => slot < *slots,
    }
}

/// The timelines of waits or sets are there.
fn has_timelines(plan: &DevicePlan, pairs: &[(u32, u64)]) -> bool
    ensures { result ≡ has_timelines plan.now pairs.now }
{
    pairs.iter().all(|pair| pair.0 < plan.timelines)
}

/// The views that slots gave are there; an answer is one more than the view's number, or 0.
fn has_answers(plan: &DevicePlan, loaded: &[u32]) -> bool
    ensures { result ≡ has_answers plan.now loaded.now }
{
    loaded
        .iter()
        .all(|answer| *answer as usize <= plan.views.len())
}

/// A subresource is one of its image.
fn has_sub(plan: &DevicePlan, image: u32, sub: u32) -> bool
    ensures { result ≡ is_in_image (slice_get plan.now.images image) sub }
{
    match plan.images.get(image as usize) {
        None => false,
        Some(image) => (sub as u64) < image.mips as u64 * image.layers as u64,
    }
}

/// The buffer of a view, or the subresource of its image, is there.
fn is_named_view(plan: &DevicePlan, view: PlanView) -> bool
    ensures { result ≡ is_named_view plan.now view }
{
    match view {
        PlanView::Buffer { buffer, .. } => has_buffer(plan, buffer),
        PlanView::Image { image, sub, .. } => has_sub(plan, image, sub),
    }
}

/// What a register names is there.
fn is_named_register(plan: &DevicePlan, register: Register) -> bool
    ensures { result ≡ is_named_register plan.now register }
{
    match register {
        Register::Unbound => true,
        Register::Constant(_) => true,
        Register::Root { buffer, .. } => has_buffer(plan, buffer),
        Register::Fixed(view) => has_view(plan, view),
        Register::Slot { heap, slot } => has_slot(plan, heap, slot),
    }
}

/// The buffer of a count is there.
fn is_named_count(plan: &DevicePlan, count: Count) -> bool
    ensures { result ≡ is_named_count plan.now count }
{
    match count {
        Count::Number(_) => true,
        Count::Word { buffer, .. } => has_buffer(plan, buffer),
    }
}

/// The image of a change is there.
fn is_named_change(plan: &DevicePlan, change: Option<Change>) -> bool
    ensures { result ≡ is_named_change plan.now change }
{
    match change {
        None => true,
        Some(change) => has_image(plan, change.image),
    }
}

/// What a command names is there.
pub(crate) fn is_named_command(plan: &DevicePlan, command: VkCommand) -> bool
    ensures { result ≡ is_named_command plan.now command }
{
    match command {
        VkCommand::Barrier { change, .. } => is_named_change(plan, change),
        VkCommand::Copy { to, from, .. } => has_buffer(plan, to) && has_buffer(plan, from),
        VkCommand::CopyImage { to, from, .. } => has_image(plan, to) && has_image(plan, from),
        VkCommand::CopyIn { image, buffer, .. } => {
            has_image(plan, image) && has_buffer(plan, buffer)
        }
        VkCommand::CopyOut { buffer, image, .. } => {
            has_buffer(plan, buffer) && has_image(plan, image)
        }
        VkCommand::Clear { target, .. } => is_named_register(plan, target),
        VkCommand::Dispatch {
            count,
            t0,
            t1,
            u0,
            b0,
            ..
        } => {
            is_named_count(plan, count)
                && (is_named_register(plan, t0)
                    && (is_named_register(plan, t1)
                        && (is_named_register(plan, u0) && is_named_register(plan, b0))))
        }
    }
}

/// The queue and the timelines of a batch are there.
fn is_named_batch(plan: &DevicePlan, batch: &Batch) -> bool
    ensures { result ≡ is_named_batch plan.now batch.now }
{
    batch.queue < plan.queues
        && (has_timelines(plan, batch.waits.as_slice())
            && has_timelines(plan, batch.sets.as_slice()))
}

/// What a step names is there, those of a batch's commands left out.
pub(crate) fn is_named_step(plan: &DevicePlan, step: &VkStep) -> bool
    ensures { result ≡ is_named_step plan.now step.now }
{
    match step {
        VkStep::Submit(batch) => is_named_batch(plan, batch),
        VkStep::Pass { queue, .. } => *queue < plan.queues,
        VkStep::Command { queue, loaded, .. } => {
            *queue < plan.queues && has_answers(plan, loaded.as_slice())
        }
        VkStep::Bump { queue, .. } => *queue < plan.queues,
        VkStep::HostWrite { buffer, .. } => has_buffer(plan, *buffer),
        VkStep::HostRead { buffer, .. } => has_buffer(plan, *buffer),
        VkStep::Update { heap, slot } => has_slot(plan, *heap, *slot),
    }
}

/// Each object that a line names is there.
pub(crate) fn is_named(plan: &DevicePlan, item: &Item) -> bool
    ensures { result ≡ is_item_named plan.now item.now }
{
    match item {
        Item::Header => true,
        Item::Buffer(_) => true,
        Item::Image(_) => true,
        Item::Heap(_) => true,
        Item::View(view) => is_named_view(plan, *view),
        Item::Queues(_, _) => true,
        Item::Submit(batch, _) => is_named_batch(plan, batch),
        Item::Step(step) => is_named_step(plan, step),
        Item::Command(command) => is_named_command(plan, *command),
        Item::End => true,
    }
}

/// The texels of an image's first mip pass 32 bits.
fn is_large_image(image: PlanImage) -> bool
    ensures { result ≡ is_large_image image }
{
    image.width as u64 * image.height as u64 >= 4_294_967_296
}

/// The word behind a view passes 32 bits.
fn is_large_view(view: PlanView) -> bool
    ensures { result ≡ is_large_view view }
{
    match view {
        PlanView::Buffer { first, words, .. } => first as u64 + words as u64 >= 4_294_967_296,
        PlanView::Image { .. } => false,
    }
}

/// A number that follows from a line's passes 32 bits.
pub(crate) fn is_large(item: &Item) -> bool
    ensures { result ≡ is_item_large item.now }
{
    match item {
        Item::Header => false,
        Item::Buffer(_) => false,
        Item::Image(image) => is_large_image(*image),
        Item::Heap(_) => false,
        Item::View(view) => is_large_view(*view),
        Item::Queues(_, _) => false,
        Item::Submit(_, _) => false,
        Item::Step(_) => false,
        Item::Command(_) => false,
        Item::End => false,
    }
}
