//! The words of buffers, and of the subresources of images.

ghost use Rattle.std.specs.Prelude.{◌≡◌, ◌%◌};
ghost use Rattle.vk_sync_rules.specs.Sizes.{extent_of as extent_in_mip, row_words as words_of_row, row_count as count_of_rows, sub_count as count_of_subs, row_words_of as words_of_rows, row_count_of as rows_of, words_of_image, words_in as count_of_words, subs_in as count_of_subs_in, is_there as is_in};

use crate::ranges::VkResource;
use vk_types::{DevicePlan, PlanImage};

/// An extent of a mip, where the image's is given.
#[tactic(auto, using(crate::proofs::Extents::past_all_bits))]
fn extent_of(extent: u32, mip: u64) -> u32
    ensures { result ≡ extent_in_mip extent mip }
{
    if mip < 32 {
        (extent >> (mip as u32)).max(1)
    } else {
        1
    }
}

/// The mip of a subresource.
fn mip_of(image: &PlanImage, sub: u64) -> u64
    ensures { result ≡ sub % image.now.mips }
{
    if image.mips == 0 {
        sub
    } else {
        sub % (image.mips as u64)
    }
}

/// The words in a row of a subresource.
pub(crate) fn row_words(image: &PlanImage, sub: u64) -> u32
    ensures { result ≡ words_of_row image.now sub }
{
    extent_of(image.width, mip_of(image, sub))
}

/// The rows of a subresource.
pub(crate) fn row_count(image: &PlanImage, sub: u64) -> u32
    ensures { result ≡ count_of_rows image.now sub }
{
    extent_of(image.height, mip_of(image, sub))
}

/// How many subresources an image has.
pub(crate) fn sub_count(image: &PlanImage) -> u64
    ensures { result ≡ count_of_subs image.now }
{
    image.mips as u64 * image.layers as u64
}

/// The words of a subresource, if the image has it.
fn sub_words(image: &PlanImage, sub: u32) -> u64
    ensures { result ≡ words_of_image (Some image.now) sub }
{
    if (sub as u64) < sub_count(image) {
        row_words(image, sub as u64) as u64 * row_count(image, sub as u64) as u64
    } else {
        0
    }
}

/// How many words a buffer or a subresource has; none where it is not there.
pub(crate) fn words_in(plan: &DevicePlan, resource: VkResource) -> u64
    ensures { result ≡ count_of_words plan.now resource }
{
    match resource {
        VkResource::Buffer(buffer) => match plan.buffers.get(buffer as usize) {
            None => 0,
            Some(buffer) => buffer.words as u64,
        },
        VkResource::Image(image, sub) => match plan.images.get(image as usize) {
            None => 0,
            Some(image) => sub_words(image, sub),
        },
    }
}

/// How many subresources an image of a plan has.
pub(crate) fn subs_in(plan: &DevicePlan, image: u32) -> u64
    ensures { result ≡ count_of_subs_in plan.now image }
{
    match plan.images.get(image as usize) {
        None => 0,
        Some(image) => sub_count(image),
    }
}

/// Whether a buffer or a subresource is there.
pub(crate) fn is_there(plan: &DevicePlan, resource: VkResource) -> bool
    ensures { result ≡ is_in plan.now resource }
{
    match resource {
        VkResource::Buffer(buffer) => (buffer as usize) < plan.buffers.len(),
        VkResource::Image(image, sub) => (sub as u64) < subs_in(plan, image),
    }
}

/// The words in a row of a subresource of an image of a plan.
pub(crate) fn row_words_of(plan: &DevicePlan, image: u32, sub: u32) -> u32
    ensures { result ≡ words_of_rows plan.now image sub }
{
    match plan.images.get(image as usize) {
        None => 0,
        Some(image) => row_words(image, sub as u64),
    }
}

/// The rows of a subresource of an image of a plan.
pub(crate) fn row_count_of(plan: &DevicePlan, image: u32, sub: u32) -> u32
    ensures { result ≡ rows_of plan.now image sub }
{
    match plan.images.get(image as usize) {
        None => 0,
        Some(image) => row_count(image, sub as u64),
    }
}
