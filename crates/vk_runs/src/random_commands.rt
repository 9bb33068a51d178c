//! Commands by chance, for the device of `plan`.

use crate::dice::Dice;
use dx_base::{Class, Home, Memory, Routine, Seq};
use std::alloc::Global;
use vk_types::{
    Accesses, Change, Count, DevicePlan, PlanBuffer, PlanImage, PlanView, Register, Stages,
    VkCommand, VkLayout,
};

/// The buffers.
const BUFFERS: [PlanBuffer; 2] = [
    PlanBuffer {
        words: 4,
        home: Home::Enhanced,
    },
    PlanBuffer {
        words: 6,
        home: Home::Enhanced,
    },
];

/// The image.
const IMAGE: PlanImage = PlanImage {
    width: 2,
    height: 2,
    mips: 2,
    layers: 1,
};

/// A view of a buffer.
macro_rules! words {
    ($class:ident, $buffer:expr, $first:expr, $words:expr) => {
        PlanView::Buffer { class: Class::$class, buffer: $buffer, first: $first, words: $words }
    };
}

/// A view of a subresource of the image.
macro_rules! texels {
    ($class:ident, $sub:expr) => {
        PlanView::Image { class: Class::$class, image: 0, sub: $sub }
    };
}

/// The views, two of which pass the end of their buffer.
const VIEWS: [PlanView; 12] = [
    words!(Srv, 0, 0, 2),
    words!(Srv, 1, 2, 3),
    words!(Srv, 0, 2, 4),
    words!(Uav, 0, 1, 2),
    words!(Uav, 1, 0, 4),
    words!(Uav, 1, 4, 4),
    words!(Uav, 0, 3, 1),
    words!(Cbv, 0, 3, 1),
    words!(Cbv, 1, 5, 1),
    texels!(Srv, 0),
    texels!(Uav, 0),
    texels!(Uav, 1),
];

/// Buffers of four and six words, an image of two by two texels with two mips, a heap of four slots, two queues and two
/// timelines.
pub fn plan(alloc: Global) -> Result<DevicePlan, Memory> {
    Ok(DevicePlan {
        buffers: Seq::from_slice(alloc, &BUFFERS)?,
        images: Seq::from_slice(alloc, &[IMAGE])?,
        heaps: Seq::from_slice(alloc, &[4])?,
        views: Seq::from_slice(alloc, &VIEWS)?,
        queues: 2,
        timelines: 2,
    })
}

/// A set of stages.
fn some_stages(dice: &mut Dice) -> Stages {
    match dice.roll(8) {
        0 | 1 => Stages::ALL_COMMANDS,
        2 => Stages::COMPUTE_SHADER,
        3 | 4 => Stages::COPY,
        5 => Stages::HOST,
        6 => Stages(6),
        _ => Stages(9),
    }
}

/// A set of accesses.
fn some_accesses(dice: &mut Dice) -> Accesses {
    match dice.roll(12) {
        0 => Accesses(0),
        1 => Accesses::MEMORY_READ,
        2 => Accesses::MEMORY_WRITE,
        3 | 4 => Accesses(3),
        5 => Accesses::TRANSFER_READ,
        6 => Accesses::TRANSFER_WRITE,
        7 => Accesses(192),
        8 => Accesses(12),
        9 => Accesses::SHADER_STORAGE_WRITE,
        10 => Accesses::SHADER_READ,
        _ => Accesses::HOST_READ,
    }
}

/// A layout, most often GENERAL.
fn some_layout(dice: &mut Dice) -> VkLayout {
    match dice.roll(8) {
        0 => VkLayout::Undefined,
        1 => VkLayout::ShaderReadOnlyOptimal,
        2 => VkLayout::TransferSrcOptimal,
        3 => VkLayout::TransferDstOptimal,
        _ => VkLayout::General,
    }
}

/// A routine.
fn some_routine(dice: &mut Dice) -> Routine {
    match dice.roll(8) {
        0 => Routine::Fill,
        1 => Routine::Move,
        2 => Routine::Add,
        3 => Routine::Mul,
        4 => Routine::Gather,
        5 => Routine::Scatter,
        6 => Routine::Sums,
        _ => Routine::Histogram,
    }
}

/// A register.
fn some_register(dice: &mut Dice) -> Register {
    match dice.roll(8) {
        0 => Register::Unbound,
        1 => Register::Constant(dice.roll(4)),
        2 => Register::Root {
            buffer: dice.roll(2),
            first: dice.roll(7),
        },
        3 => Register::Slot {
            heap: 0,
            slot: dice.roll(4),
        },
        _ => Register::Fixed(dice.roll(12)),
    }
}

/// A subresource, at times one that is not there; None is all.
fn some_sub(dice: &mut Dice) -> Option<u32> {
    match dice.roll(8) {
        0 => Some(2),
        1 | 2 => Some(0),
        3 | 4 => Some(1),
        _ => None,
    }
}

/// A layout change, of a barrier where one of three chances comes.
fn some_change(dice: &mut Dice) -> Option<Change> {
    if !dice.hits(3) {
        return None;
    }
    let sub = some_sub(dice);
    let old = if dice.hits(2) {
        VkLayout::Undefined
    } else {
        some_layout(dice)
    };
    Some(Change {
        image: 0,
        sub,
        old,
        new: some_layout(dice),
    })
}

/// A barrier: every other one is of all stages and accesses of the device.
fn some_barrier(dice: &mut Dice) -> VkCommand {
    if dice.hits(2) {
        return VkCommand::Barrier {
            from: Stages::ALL_COMMANDS,
            made: Accesses(3),
            to: Stages::ALL_COMMANDS,
            seen: Accesses(3),
            change: some_change(dice),
        };
    }
    VkCommand::Barrier {
        from: some_stages(dice),
        made: some_accesses(dice),
        to: some_stages(dice),
        seen: some_accesses(dice),
        change: some_change(dice),
    }
}

/// A copy between buffers.
fn some_copy(dice: &mut Dice) -> VkCommand {
    VkCommand::Copy {
        to: dice.roll(2),
        to_first: dice.roll(4),
        from: dice.roll(2),
        from_first: dice.roll(4),
        words: dice.roll(4),
    }
}

/// A copy between subresources.
fn some_image_copy(dice: &mut Dice) -> VkCommand {
    VkCommand::CopyImage {
        to: 0,
        to_sub: dice.roll(3),
        to_layout: some_layout(dice),
        from: 0,
        from_sub: dice.roll(3),
        from_layout: some_layout(dice),
    }
}

/// A copy of rows, into a subresource or out of it.
fn some_copy_of_rows(dice: &mut Dice) -> VkCommand {
    let into = dice.hits(2);
    let (buffer, first, pitch) = (dice.roll(2), dice.roll(3), dice.roll(4));
    let (image, sub, layout) = (0, dice.roll(2), some_layout(dice));
    if into {
        VkCommand::CopyIn {
            image,
            sub,
            layout,
            buffer,
            first,
            pitch,
        }
    } else {
        VkCommand::CopyOut {
            buffer,
            first,
            pitch,
            image,
            sub,
            layout,
        }
    }
}

/// How many invocations a dispatch has: at times a word says it.
fn some_count(dice: &mut Dice) -> Count {
    if dice.hits(4) {
        Count::Word {
            buffer: dice.roll(2),
            word: dice.roll(5),
            most: dice.roll(4),
        }
    } else {
        Count::Number(dice.roll(5))
    }
}

/// A dispatch.
fn some_dispatch(dice: &mut Dice) -> VkCommand {
    VkCommand::Dispatch {
        routine: some_routine(dice),
        count: some_count(dice),
        t0: some_register(dice),
        t1: some_register(dice),
        u0: some_register(dice),
        b0: some_register(dice),
    }
}

/// A clear.
fn some_clear(dice: &mut Dice) -> VkCommand {
    VkCommand::Clear {
        target: some_register(dice),
        word: dice.roll(9),
    }
}

/// A command.
pub(crate) fn some_command(dice: &mut Dice) -> VkCommand {
    match dice.roll(12) {
        0 | 1 | 2 | 3 | 4 => some_barrier(dice),
        5 | 6 => some_copy(dice),
        7 => some_image_copy(dice),
        8 => some_copy_of_rows(dice),
        9 => some_clear(dice),
        _ => some_dispatch(dice),
    }
}
