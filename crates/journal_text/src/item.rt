//! What a line says.

use vk_types::{Batch, PlanBuffer, PlanImage, PlanView, VkCommand, VkStep};

/// What a line says.
#[derive(Debug, Drop)]
pub(crate) enum Item {
    Header,
    Buffer(PlanBuffer),
    Image(PlanImage),
    /// A heap of so many slots.
    Heap(u32),
    View(PlanView),
    /// How many queues and timelines there are.
    Queues(u32, u32),
    /// A batch without its commands, and how many lines of commands follow.
    Submit(Batch, u32),
    /// Any other step.
    Step(VkStep),
    Command(VkCommand),
    End,
}
