//! The rows that copies copy.

ghost use Rattle.std.specs.Prelude.{◌≡◌, ◌++◌, IfOk, OnOk};
ghost use Rattle.vk_sync_rules.specs.Copies.{copied_rows as rows_of, row_of_buffer as buffer_row, row_of_image as image_row, sides_of};
ghost use Rattle.vk_sync_rules.specs.declared.ranges.VkResource.TheVariants.{Buffer, Image};
ghost use Rattle.vk_types.specs.declared.commands.VkCommand.TheVariants.{CopyIn, CopyOut};

use crate::pieces::Piece;
use crate::ranges::{VkResource, WordRange};
use crate::sizes::{row_count_of, row_words_of, words_in};
use dx_base::{Memory, Seq};
use std::alloc::Global;
use vk_types::{Accesses, DevicePlan, VkCommand, VkLayout};

/// A row of a copy: its words on both sides, and the layouts that the copy names for images.
#[derive(Clone, Copy, Debug, PartialEq, Eq)]
pub(crate) struct CopiedRow {
    pub from: WordRange,
    pub from_layout: Option<VkLayout>,
    pub to: WordRange,
    pub to_layout: Option<VkLayout>,
}

/// One row of a buffer whose rows begin at a word and lie a pitch apart.
fn row_of_buffer(buffer: u32, first: u32, pitch: u32, width: u32, row: u32) -> WordRange
    ensures { result ≡ buffer_row buffer first pitch width row }
{
    WordRange {
        resource: VkResource::Buffer(buffer),
        first: first as u64 + row as u64 * pitch as u64,
        count: width as u64,
    }
}

/// One row of a subresource.
fn row_of_image(image: u32, sub: u32, width: u32, row: u32) -> WordRange
    ensures { result ≡ image_row image sub width row }
{
    WordRange {
        resource: VkResource::Image(image, sub),
        first: row as u64 * width as u64,
        count: width as u64,
    }
}

/// The rows of a copy from a buffer into a subresource.
#[tactic(auto, using(crate::proofs::FirstLists::map_up_to_more))]
fn rows_in(
    alloc: Global,
    plan: &DevicePlan,
    image: u32,
    sub: u32,
    layout: VkLayout,
    buffer: u32,
    first: u32,
    pitch: u32,
) -> Result<Seq<CopiedRow>, Memory>
    ensures { IfOk result (λ rows. rows ≡ rows_of plan.now (CopyIn image sub layout buffer first pitch)) }
{
    let width = row_words_of(plan, image, sub);
    let mut rows = Seq::new(alloc);
    for row in 0..row_count_of(plan, image, sub) {
        rows.push(CopiedRow {
            from: row_of_buffer(buffer, first, pitch, width, row),
            from_layout: None,
            to: row_of_image(image, sub, width, row),
            to_layout: Some(layout),
        })?;
    }
    Ok(rows)
}

/// The rows of a copy from a subresource into a buffer.
#[tactic(auto, using(crate::proofs::FirstLists::map_up_to_more))]
fn rows_out(
    alloc: Global,
    plan: &DevicePlan,
    buffer: u32,
    first: u32,
    pitch: u32,
    image: u32,
    sub: u32,
    layout: VkLayout,
) -> Result<Seq<CopiedRow>, Memory>
    ensures { IfOk result (λ rows. rows ≡ rows_of plan.now (CopyOut buffer first pitch image sub layout)) }
{
    let width = row_words_of(plan, image, sub);
    let mut rows = Seq::new(alloc);
    for row in 0..row_count_of(plan, image, sub) {
        rows.push(CopiedRow {
            from: row_of_image(image, sub, width, row),
            from_layout: Some(layout),
            to: row_of_buffer(buffer, first, pitch, width, row),
            to_layout: None,
        })?;
    }
    Ok(rows)
}

/// Some words of a buffer.
fn words_of_buffer(buffer: u32, first: u32, words: u32) -> WordRange
    ensures { result ≡ record { resource = Buffer buffer; first = first; count = words } }
{
    WordRange {
        resource: VkResource::Buffer(buffer),
        first: first as u64,
        count: words as u64,
    }
}

/// So many words of a subresource, from the first on.
fn words_of_sub(image: u32, sub: u32, count: u64) -> WordRange
    ensures { result ≡ record { resource = Image image sub; first = 0; count = count } }
{
    WordRange {
        resource: VkResource::Image(image, sub),
        first: 0,
        count,
    }
}

/// The rows that a command copies.
pub(crate) fn copied_rows(
    alloc: Global,
    plan: &DevicePlan,
    command: VkCommand,
) -> Result<Seq<CopiedRow>, Memory>
    ensures { IfOk result (λ rows. rows ≡ rows_of plan.now command) }
{
    let mut rows = Seq::new(alloc);
    match command {
        VkCommand::Barrier { .. } => {}
        VkCommand::Copy {
            to,
            to_first,
            from,
            from_first,
            words,
        } => {
            rows.push(CopiedRow {
                from: words_of_buffer(from, from_first, words),
                from_layout: None,
                to: words_of_buffer(to, to_first, words),
                to_layout: None,
            })?;
        }
        VkCommand::CopyImage {
            to,
            to_sub,
            to_layout,
            from,
            from_sub,
            from_layout,
        } => {
            let count = words_in(plan, VkResource::Image(from, from_sub));
            rows.push(CopiedRow {
                from: words_of_sub(from, from_sub, count),
                from_layout: Some(from_layout),
                to: words_of_sub(to, to_sub, count),
                to_layout: Some(to_layout),
            })?;
        }
        VkCommand::CopyIn {
            image,
            sub,
            layout,
            buffer,
            first,
            pitch,
        } => {
            return rows_in(alloc, plan, image, sub, layout, buffer, first, pitch);
        }
        VkCommand::CopyOut {
            buffer,
            first,
            pitch,
            image,
            sub,
            layout,
        } => {
            return rows_out(alloc, plan, buffer, first, pitch, image, sub, layout);
        }
        VkCommand::Clear { .. } => {}
        VkCommand::Dispatch { .. } => {}
    }
    Ok(rows)
}

/// Appends the two sides of a row.
pub(crate) fn push_sides(pieces: &mut Seq<Piece>, row: CopiedRow) -> Result<(), Memory>
    ensures { OnOk result (pieces.new ≡ pieces.old ++ sides_of row) }
{
    let sides = [
        Piece {
            range: row.from,
            reads: Accesses::TRANSFER_READ,
            writes: Accesses(0),
            named: row.from_layout,
        },
        Piece {
            range: row.to,
            reads: Accesses(0),
            writes: Accesses::TRANSFER_WRITE,
            named: row.to_layout,
        },
    ];
    pieces.extend_from_slice(&sides)
}
