//! Lines of commands.

ghost use Rattle.std.specs.Prelude.{◌≡◌};
ghost use Rattle.journal_text.specs.Items.{barrier_next, change_next, change_or_none, clear_next, copy_image_next, copy_in_next, copy_next, copy_out_next, dispatch_next};
ghost use Rattle.journal_words.specs.LineWords.{left_in};

use journal_words::LineWords;
use vk_types::{Change, VkCommand};

/// A change of layout: `I SUB OLD NEW`.
fn read_change(line: &mut LineWords) -> Change
    ensures value { result ≡ (change_next (left_in line.old)).0 }
    ensures left { left_in line.new ≡ (change_next (left_in line.old)).1 }
{
    Change {
        image: line.number(),
        sub: line.all_or_number(),
        old: line.layout(),
        new: line.layout(),
    }
}

/// A change of layout, where a word is left.
fn read_change_or_none(line: &mut LineWords) -> Option<Change>
    ensures value { result ≡ (change_or_none (left_in line.old)).0 }
    ensures left { left_in line.new ≡ (change_or_none (left_in line.old)).1 }
{
    if line.is_over() {
        None
    } else {
        Some(read_change(line))
    }
}

/// A barrier, with a change of layout or without.
pub(crate) fn read_barrier(line: &mut LineWords) -> VkCommand
    ensures value { result ≡ (barrier_next (left_in line.old)).0 }
    ensures left { left_in line.new ≡ (barrier_next (left_in line.old)).1 }
{
    VkCommand::Barrier {
        from: line.stages(),
        made: line.accesses(),
        to: line.stages(),
        seen: line.accesses(),
        change: read_change_or_none(line),
    }
}

/// A copy between buffers.
pub(crate) fn read_copy(line: &mut LineWords) -> VkCommand
    ensures value { result ≡ (copy_next (left_in line.old)).0 }
    ensures left { left_in line.new ≡ (copy_next (left_in line.old)).1 }
{
    VkCommand::Copy {
        to: line.number(),
        to_first: line.number(),
        from: line.number(),
        from_first: line.number(),
        words: line.number(),
    }
}

/// A copy between images.
pub(crate) fn read_copy_image(line: &mut LineWords) -> VkCommand
    ensures value { result ≡ (copy_image_next (left_in line.old)).0 }
    ensures left { left_in line.new ≡ (copy_image_next (left_in line.old)).1 }
{
    VkCommand::CopyImage {
        to: line.number(),
        to_sub: line.number(),
        to_layout: line.layout(),
        from: line.number(),
        from_sub: line.number(),
        from_layout: line.layout(),
    }
}

/// A copy of a buffer into an image.
pub(crate) fn read_copy_in(line: &mut LineWords) -> VkCommand
    ensures value { result ≡ (copy_in_next (left_in line.old)).0 }
    ensures left { left_in line.new ≡ (copy_in_next (left_in line.old)).1 }
{
    VkCommand::CopyIn {
        image: line.number(),
        sub: line.number(),
        layout: line.layout(),
        buffer: line.number(),
        first: line.number(),
        pitch: line.number(),
    }
}

/// A copy of an image into a buffer.
pub(crate) fn read_copy_out(line: &mut LineWords) -> VkCommand
    ensures value { result ≡ (copy_out_next (left_in line.old)).0 }
    ensures left { left_in line.new ≡ (copy_out_next (left_in line.old)).1 }
{
    VkCommand::CopyOut {
        buffer: line.number(),
        first: line.number(),
        pitch: line.number(),
        image: line.number(),
        sub: line.number(),
        layout: line.layout(),
    }
}

/// A clear.
pub(crate) fn read_clear(line: &mut LineWords) -> VkCommand
    ensures value { result ≡ (clear_next (left_in line.old)).0 }
    ensures left { left_in line.new ≡ (clear_next (left_in line.old)).1 }
{
    VkCommand::Clear {
        target: line.register(),
        word: line.data(),
    }
}

/// A dispatch.
pub(crate) fn read_dispatch(line: &mut LineWords) -> VkCommand
    ensures value { result ≡ (dispatch_next (left_in line.old)).0 }
    ensures left { left_in line.new ≡ (dispatch_next (left_in line.old)).1 }
{
    VkCommand::Dispatch {
        routine: line.routine(),
        count: line.count(),
        t0: line.register(),
        t1: line.register(),
        u0: line.register(),
        b0: line.register(),
    }
}
