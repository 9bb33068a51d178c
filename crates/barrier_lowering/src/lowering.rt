//! Recorded lists become lowered ones.

ghost use Rattle.std.specs.Prelude.{◌≡◌, ◌++◌, [], ◌∷◌, true, IfOk, OnOk};
ghost use Rattle.barrier_lowering.specs.Numbers.{AreNumbersOf};
ghost use Rattle.barrier_lowering.specs.ImageChanges.{last_given, AddsSome};
ghost use Rattle.barrier_lowering.specs.Layouts.{change_in};
ghost use Rattle.barrier_lowering.specs.Lowering.{is_there, has_sub, is_small, is_recorded, are_recorded};
ghost use Rattle.barrier_lowering.specs.Lowered.{copied_buffer, placed_record, placed_sub, rows_of, IsLowered, change_placed};
ghost use Rattle.barrier_lowering.specs.declared.records.Record.TheVariants.{Copy};

use crate::barriers::lowered_barrier;
use crate::image_changes::ImageChanges;
use crate::lowered::{Lowered, Placed, PlacedSub, Rows};
use crate::numbers::Numbers;
use crate::records::Record;
use d3d_resources::Resource;
use dx_base::{Memory, ResourceId, Seq};
use std::alloc::Global;
use vk_types::VkCommand;

/// What stands before a command of a list: the resources and their numbers, and the changes of layouts that
/// the list has made so far.
#[derive(Clone, Copy)]
struct Before<'a> {
    resources: &'a [Option<Resource>],
    numbers: &'a Numbers,
    changes: &'a ImageChanges,
}

/// A recorded list in Vulkan's words. Of a copy of a subresource it knows the layout where a barrier before
/// it in the list changed it; each other layout is left open, for `fill`.
pub fn lower(
    alloc: Global,
    resources: &[Option<Resource>],
    numbers: &Numbers,
    commands: &[Record],
) -> Result<Lowered, Memory>
    requires numbers { AreNumbersOf resources.now numbers.now }
    requires recorded { are_recorded resources.now commands.now ≡ true }
    ensures { IfOk result (λ lowered. IsLowered resources.now commands.now lowered) }
{
    let mut changes = ImageChanges::new(alloc);
    let mut lowered = Seq::new(alloc);
    for command in commands {
        let before = Before {
            resources,
            numbers,
            changes: &changes,
        };
        let placed = before.placed(command);
        add_change(alloc, &mut changes, &placed)?;
        lowered.push(placed)?;
    }
    Ok(Lowered { commands: lowered })
}

/// Adds the change of layout that a command makes, if it makes one.
fn add_change(alloc: Global, changes: &mut ImageChanges, placed: &Placed) -> Result<(), Memory>
    ensures { OnOk result (AddsSome (change_placed placed.now) changes.old changes.new) }
{
    match placed.change() {
        Some(change) => changes.add(alloc, change),
        None => Ok(()),
    }
}

impl Before<'_> {
    /// A recorded command with places for the layouts that are not known.
    fn placed(self, command: &Record) -> Placed
        requires numbers { AreNumbersOf self.resources.now self.numbers.now }
        requires recorded { is_recorded self.resources.now command.now ≡ true }
        ensures { result ≡ placed_record self.entry.resources.now (last_given self.entry.changes.now) command.now }
    {
        match *command {
            Record::Copy {
                to,
                to_offset,
                from,
                from_offset,
                bytes,
            } => Placed::Whole(self.copied(to, to_offset, from, from_offset, bytes)),
            Record::CopyTexture {
                to,
                to_sub,
                from,
                from_sub,
            } => Placed::CopyImage(self.sub(to, to_sub), self.sub(from, from_sub)),
            Record::CopyIn {
                to,
                sub,
                from,
                offset,
                pitch,
            } => Placed::CopyIn(self.sub(to, sub), self.rows(from, offset, pitch)),
            Record::CopyOut {
                to,
                offset,
                pitch,
                from,
                sub,
            } => Placed::CopyOut(self.rows(to, offset, pitch), self.sub(from, sub)),
            Record::Barrier(barrier) => {
                Placed::Whole(lowered_barrier(self.resources, self.numbers, &barrier))
            }
        }
    }

    /// A copy between buffers in words.
    fn copied(
        self,
        to: ResourceId,
        to_offset: u64,
        from: ResourceId,
        from_offset: u64,
        bytes: u64,
    ) -> VkCommand
        requires numbers { AreNumbersOf self.resources.now self.numbers.now }
        requires recorded { is_recorded self.resources.now (Copy to to_offset from from_offset bytes) ≡ true }
        ensures { result ≡ copied_buffer self.entry.resources.now to.0 to_offset from.0 from_offset bytes }
    {
        VkCommand::Copy {
            to: self.numbers.buffer(self.resources, to),
            to_first: (to_offset / 4) as u32,
            from: self.numbers.buffer(self.resources, from),
            from_first: (from_offset / 4) as u32,
            words: (bytes / 4) as u32,
        }
    }

    /// A subresource of a texture.
    fn sub(self, id: ResourceId, sub: u64) -> PlacedSub
        requires numbers { AreNumbersOf self.resources.now self.numbers.now }
        requires there { has_sub self.resources.now id.0 sub ≡ true }
        ensures { result ≡ placed_sub self.entry.resources.now (last_given self.entry.changes.now) id.0 sub }
    {
        let image = self.numbers.image(self.resources, id);
        let sub = sub as u32;
        PlacedSub {
            image,
            sub,
            layout: self.changes.last(image, sub),
        }
    }

    /// Rows of a buffer from a byte on, with so many bytes from one to the next.
    fn rows(self, id: ResourceId, offset: u64, pitch: u64) -> Rows
        requires numbers { AreNumbersOf self.resources.now self.numbers.now }
        requires there { is_there self.resources.now id.0 ≡ true }
        requires offset { is_small offset ≡ true }
        requires pitch { is_small pitch ≡ true }
        ensures { result ≡ rows_of self.entry.resources.now id.0 offset pitch }
    {
        Rows {
            buffer: self.numbers.buffer(self.resources, id),
            first: (offset / 4) as u32,
            pitch: (pitch / 4) as u32,
        }
    }
}
