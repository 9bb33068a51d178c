//! The device, and the batches of the two cases.

use crate::cases::Case;
use dx_base::{Home, Memory, Seq};
use std::alloc::Global;
use vk_types::{Accesses, Batch, DevicePlan, PlanBuffer, Stages, VkCommand};

/// Two buffers of sixteen words, one queue and one timeline.
pub(crate) fn plan(alloc: Global) -> Result<DevicePlan, Memory> {
    let buffer = PlanBuffer {
        words: 16,
        home: Home::Enhanced,
    };
    Ok(DevicePlan {
        buffers: Seq::from_vec(vec![in alloc; buffer; 2]?),
        images: Seq::new(alloc),
        heaps: Seq::new(alloc),
        views: Seq::new(alloc),
        queues: 1,
        timelines: 1,
    })
}

/// A barrier over all that the device does.
const BETWEEN: VkCommand = VkCommand::Barrier {
    from: Stages::ALL_COMMANDS,
    made: Accesses::MEMORY_WRITE,
    to: Stages::ALL_COMMANDS,
    seen: Accesses(3),
    change: None,
};

/// A barrier to reads of the host.
const TO_HOST: VkCommand = VkCommand::Barrier {
    from: Stages::ALL_COMMANDS,
    made: Accesses::MEMORY_WRITE,
    to: Stages::HOST,
    seen: Accesses::HOST_READ,
    change: None,
};

/// A copy of one word of the first buffer into the second.
fn copy(word: u32) -> VkCommand {
    VkCommand::Copy {
        to: 1,
        to_first: word,
        from: 0,
        from_first: word,
        words: 1,
    }
}

/// The command at a place of a batch, counted from 0. The first is a barrier, and the last of sixteen one to the host. Between
/// them stand copies: each of a word of its own, or all of the first word, with a barrier before each.
fn command(case: Case, place: u32) -> VkCommand {
    if place == 0 {
        return BETWEEN;
    }
    if place == 15 {
        return TO_HOST;
    }
    match case {
        Case::Apart => copy(place),
        Case::Behind => { if place % 2 == 0 { BETWEEN } else { copy(0) } }
    }
}

/// The first commands of a batch, so many.
fn commands(alloc: Global, case: Case, count: u32) -> Result<Seq<VkCommand>, Memory> {
    let mut commands = Seq::new(alloc);
    for place in 0..count {
        commands.push(command(case, place))?;
    }
    Ok(commands)
}

/// A batch with the first commands, so many. It sets the timeline to one more than its number.
pub(crate) fn batch(alloc: Global, case: Case, number: u32, count: u32) -> Result<Batch, Memory> {
    Ok(Batch {
        queue: 0,
        number: number as u64,
        waits: Seq::new(alloc),
        commands: commands(alloc, case, count)?,
        sets: Seq::from_vec(vec![in alloc; (0, number as u64 + 1); 1]?),
    })
}
