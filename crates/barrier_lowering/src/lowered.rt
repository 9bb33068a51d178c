//! Lowered lists: commands of a device with places for layouts that are not known yet.

ghost use Rattle.std.specs.Prelude.{◌≡◌, map, IfOk};
ghost use Rattle.barrier_lowering.specs.Layouts.{change_in};
ghost use Rattle.barrier_lowering.specs.Lowered.{filled_layout, filled_command, filled, change_placed, advanced, advanced_by};

use crate::layouts::Layouts;
use dx_base::{Memory, Seq};
use std::alloc::Global;
use vk_types::{Change, VkCommand, VkLayout};

/// A subresource of an image that a command copies. Its layout is given, or None: the one that the
/// subresource has before the list.
#[derive(Clone, Copy, Debug, PartialEq, Eq)]
pub(crate) struct PlacedSub {
    pub(crate) image: u32,
    pub(crate) sub: u32,
    pub(crate) layout: Option<VkLayout>,
}

/// Rows of a buffer that a command copies. Its first word and its pitch are in words.
#[derive(Clone, Copy, Debug, PartialEq, Eq)]
pub(crate) struct Rows {
    pub(crate) buffer: u32,
    pub(crate) first: u32,
    pub(crate) pitch: u32,
}

/// A command of the device, with places for layouts. A copy goes to the first, from the second.
#[derive(Clone, Copy, Debug, PartialEq, Eq)]
pub(crate) enum Placed {
    /// A command that names no layout of a subresource.
    Whole(VkCommand),
    CopyImage(PlacedSub, PlacedSub),
    CopyIn(PlacedSub, Rows),
    CopyOut(Rows, PlacedSub),
}

/// A list of commands of the device, with a place for each layout that the list does not itself decide.
#[derive(Debug, PartialEq, Eq, Drop)]
pub struct Lowered {
    pub(crate) commands: Seq<Placed>,
}

impl Lowered {
    /// The commands of the list where it begins in these layouts.
    pub fn fill(&self, alloc: Global, layouts: &Layouts) -> Result<Seq<VkCommand>, Memory>
        ensures { IfOk result (λ commands. commands ≡ filled layouts.now.images self.now) }
    {
        let mut commands = Seq::new(alloc);
        for command in self.commands.as_slice() {
            commands.push(command.filled(layouts))?;
        }
        Ok(commands)
    }

    /// Makes the layouts those after the list.
    pub fn advance(&self, layouts: &mut Layouts)
        ensures { layouts.new.images ≡ advanced layouts.old.images self.now }
    {
        for command in self.commands.as_slice() {
            command.advance(layouts);
        }
    }
}

impl Placed {
    /// The command where its list begins in these layouts.
    fn filled(&self, layouts: &Layouts) -> VkCommand
        ensures { result ≡ filled_command layouts.now.images self.now }
    {
        match *self {
            Placed::Whole(command) => command,
            Placed::CopyImage(to, from) => VkCommand::CopyImage {
                to: to.image,
                to_sub: to.sub,
                to_layout: to.filled(layouts),
                from: from.image,
                from_sub: from.sub,
                from_layout: from.filled(layouts),
            },
            Placed::CopyIn(to, from) => VkCommand::CopyIn {
                image: to.image,
                sub: to.sub,
                layout: to.filled(layouts),
                buffer: from.buffer,
                first: from.first,
                pitch: from.pitch,
            },
            Placed::CopyOut(to, from) => VkCommand::CopyOut {
                buffer: to.buffer,
                first: to.first,
                pitch: to.pitch,
                image: from.image,
                sub: from.sub,
                layout: from.filled(layouts),
            },
        }
    }

    /// The change of layout that the command makes, if it makes one.
    pub(crate) fn change(&self) -> Option<Change>
        ensures { result ≡ change_placed self.now }
    {
        match *self {
            Placed::Whole(command) => change_made(command),
            Placed::CopyImage(_, _) | Placed::CopyIn(_, _) | Placed::CopyOut(_, _) => None,
        }
    }

    /// Makes the layouts those after the command.
    fn advance(&self, layouts: &mut Layouts)
        ensures { layouts.new.images ≡ advanced_by self.now layouts.old.images }
    {
        if let Some(change) = self.change() {
            layouts.change(change);
        }
    }
}

impl PlacedSub {
    /// The layout of the subresource at the command, where the list begins in these layouts.
    fn filled(self, layouts: &Layouts) -> VkLayout
        ensures { result ≡ filled_layout layouts.now.images self }
    {
        match self.layout {
            Some(layout) => layout,
            None => layouts.at(self.image, self.sub),
        }
    }
}

/// The change of layout that a command of the device makes: only a barrier makes one.
fn change_made(command: VkCommand) -> Option<Change>
    ensures { result ≡ change_in command }
{
    match command {
        VkCommand::Barrier { change, .. } => change,
        VkCommand::Copy { .. }
        | VkCommand::CopyImage { .. }
        | VkCommand::CopyIn { .. }
        | VkCommand::CopyOut { .. }
        | VkCommand::Clear { .. }
        | VkCommand::Dispatch { .. } => None,
    }
}
