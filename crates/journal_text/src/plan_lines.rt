//! Lines of the objects of a device.

ghost use Rattle.std.specs.Prelude.{◌≡◌};
ghost use Rattle.journal_text.specs.Items.{buffer_next, buffer_view_next, heap_next, image_next, image_view_next, queues_next, view_next};
ghost use Rattle.journal_words.specs.LineWords.{left_in};

use crate::item::Item;
use dx_base::Class;
use journal_words::LineWords;
use vk_types::{PlanBuffer, PlanImage, PlanView};

/// A buffer.
pub(crate) fn read_buffer(line: &mut LineWords) -> Item
    ensures value { result ≡ (buffer_next (left_in line.old)).0 }
    ensures left { left_in line.new ≡ (buffer_next (left_in line.old)).1 }
{
    Item::Buffer(PlanBuffer {
        words: line.number(),
        home: line.home(),
    })
}

/// An image.
pub(crate) fn read_image(line: &mut LineWords) -> Item
    ensures value { result ≡ (image_next (left_in line.old)).0 }
    ensures left { left_in line.new ≡ (image_next (left_in line.old)).1 }
{
    Item::Image(PlanImage {
        width: line.number(),
        height: line.number(),
        mips: line.number(),
        layers: line.number(),
    })
}

/// A heap.
pub(crate) fn read_heap(line: &mut LineWords) -> Item
    ensures value { result ≡ (heap_next (left_in line.old)).0 }
    ensures left { left_in line.new ≡ (heap_next (left_in line.old)).1 }
{
    Item::Heap(line.number())
}

/// A view of a buffer, behind its class.
fn read_buffer_view(line: &mut LineWords, class: Class) -> PlanView
    ensures value { result ≡ (buffer_view_next class (left_in line.old)).0 }
    ensures left { left_in line.new ≡ (buffer_view_next class (left_in line.old)).1 }
{
    PlanView::Buffer {
        class,
        buffer: line.number(),
        first: line.number(),
        words: line.number(),
    }
}

/// A view of an image, behind its class.
fn read_image_view(line: &mut LineWords, class: Class) -> PlanView
    ensures value { result ≡ (image_view_next class (left_in line.old)).0 }
    ensures left { left_in line.new ≡ (image_view_next class (left_in line.old)).1 }
{
    PlanView::Image {
        class,
        image: line.number(),
        sub: line.number(),
    }
}

/// A view.
pub(crate) fn read_view(line: &mut LineWords) -> PlanView
    ensures value { result ≡ (view_next (left_in line.old)).0 }
    ensures left { left_in line.new ≡ (view_next (left_in line.old)).1 }
{
    let class = line.class();
    if line.viewed() {
        read_image_view(line, class)
    } else {
        read_buffer_view(line, class)
    }
}

/// The numbers of queues and timelines.
pub(crate) fn read_queues(line: &mut LineWords) -> Item
    ensures value { result ≡ (queues_next (left_in line.old)).0 }
    ensures left { left_in line.new ≡ (queues_next (left_in line.old)).1 }
{
    let queues = line.number();
    line.literal("timelines");
    Item::Queues(queues, line.number())
}
