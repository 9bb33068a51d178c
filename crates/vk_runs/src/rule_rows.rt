//! Worked rows of the Vulkan machine, through `feed`: steps that break a rule or just keep it, and what they leave.

/// A barrier: the stages and accesses before it, and those behind it.
macro_rules! barrier {
    ($from:expr, $made:expr, $to:expr, $seen:expr) => {
        VkCommand::Barrier { from: $from, made: $made, to: $to, seen: $seen, change: None }
    };
}

/// A barrier that changes the layout of the whole image: its stages and accesses before, the old layout and the new one.
macro_rules! change {
    ($from:expr, $made:expr, $old:ident, $new:ident) => {
        VkCommand::Barrier {
            from: $from,
            made: $made,
            to: ALL_COMMANDS,
            seen: ALL,
            change: Some(Change { image: 0, sub: None, old: VkLayout::$old, new: VkLayout::$new }),
        }
    };
}

/// A copy between buffers, its fields in their order.
macro_rules! copy {
    ($to:expr, $to_first:expr, $from:expr, $from_first:expr, $words:expr) => {
        VkCommand::Copy { to: $to, to_first: $to_first, from: $from, from_first: $from_first, words: $words }
    };
}

/// A copy into a subresource of the image, from a subresource: both with the layouts that it names.
macro_rules! copy_image {
    ($to_sub:expr, $to:ident, $from_sub:expr, $from:ident) => {
        VkCommand::CopyImage {
            to: 0,
            to_sub: $to_sub,
            to_layout: VkLayout::$to,
            from: 0,
            from_sub: $from_sub,
            from_layout: VkLayout::$from,
        }
    };
}

/// A copy of rows of a buffer into subresource 0 of the image, in GENERAL.
macro_rules! copy_in {
    ($buffer:expr, $first:expr, $pitch:expr) => {
        VkCommand::CopyIn { image: 0, sub: 0, layout: VkLayout::General, buffer: $buffer, first: $first, pitch: $pitch }
    };
}

/// A copy of subresource 0 of the image, in GENERAL, into rows of a buffer.
macro_rules! copy_out {
    ($buffer:expr, $first:expr, $pitch:expr) => {
        VkCommand::CopyOut { buffer: $buffer, first: $first, pitch: $pitch, image: 0, sub: 0, layout: VkLayout::General }
    };
}

/// A clear of what a register views.
macro_rules! clear {
    ($target:expr, $word:expr) => {
        VkCommand::Clear { target: $target, word: $word }
    };
}

/// A dispatch with so many invocations, and with t0, u0 and b0.
macro_rules! dispatch {
    ($routine:ident, $n:expr, $t0:expr, $u0:expr, $b0:expr) => {
        VkCommand::Dispatch {
            routine: Routine::$routine,
            count: $n,
            t0: $t0,
            t1: Register::Unbound,
            u0: $u0,
            b0: $b0,
        }
    };
}

mod commands;
mod effects;
mod hosts;
mod layouts;
mod numbers;
mod order;
mod steps;
mod submissions;
mod waits;

use dx_base::{Class, Home, Memory, Routine, Seq};
use std::alloc::Global;
use std::process::Abort;
use vk_sync_rules::{VkMachine, VkRule, VkVerdict};
use vk_types::{
    Accesses, Batch, Change, Count, DevicePlan, PlanBuffer, PlanImage, PlanView, Register, Stages,
    VkCommand, VkLayout, VkStep,
};

/// Timelines and values.
type Pairs = &'static [(u32, u64)];

/// A step of a run.
#[derive(Clone, Copy, Debug)]
enum Turn {
    /// Batch `.1` of queue `.0`, with its waits, commands and sets.
    Submit(u32, u64, Pairs, &'static [VkCommand], Pairs),
    Pass(u32, u64),
    /// Command `.2` of batch `.1` of queue `.0`, with what its slots gave.
    Run(u32, u64, u64, &'static [u32]),
    Bump(u32, u64),
    /// The host writes words into buffer `.0`, from word `.1` on.
    Write(u32, u32, &'static [u32]),
    /// The host reads `.2` words of buffer `.0`, from word `.1` on.
    Read(u32, u32, u16),
    Update(u32, u32),
}

/// Turns; the commands of the first batch, which is then submitted, passes and does them in order; turns behind that; and
/// the rule that the last step breaks, and no step before.
type Row = (
    &'static [Turn],
    &'static [VkCommand],
    &'static [Turn],
    Option<VkRule>,
);

/// The stages and accesses of the rows.
const ALL_COMMANDS: Stages = Stages::ALL_COMMANDS;

const COMPUTE: Stages = Stages::COMPUTE_SHADER;

const COPYING: Stages = Stages::COPY;

const HOST: Stages = Stages::HOST;

const NONE: Accesses = Accesses(0);

const ALL: Accesses = Accesses(3);

const EVERY_WRITE: Accesses = Accesses::MEMORY_WRITE;

const COPY_READ: Accesses = Accesses::TRANSFER_READ;

const COPY_WRITE: Accesses = Accesses::TRANSFER_WRITE;

const SHADER_READ: Accesses = Accesses::SHADER_READ;

const STORAGE_WRITE: Accesses = Accesses::SHADER_STORAGE_WRITE;

const HOST_READ: Accesses = Accesses::HOST_READ;

/// A barrier over all that the device does.
const LEADING: VkCommand = barrier!(ALL_COMMANDS, EVERY_WRITE, ALL_COMMANDS, ALL);

/// A barrier to reads of the host.
const TRAILING: VkCommand = barrier!(ALL_COMMANDS, EVERY_WRITE, HOST, HOST_READ);

/// A barrier between writes of copies.
const BETWEEN: VkCommand = barrier!(COPYING, COPY_WRITE, COPYING, COPY_WRITE);

/// The change of the image from UNDEFINED to GENERAL.
const TO_GENERAL: VkCommand = change!(ALL_COMMANDS, NONE, Undefined, General);

/// A copy of all words of buffer 0 into buffer 1.
const COPY: VkCommand = copy!(1, 0, 0, 0, 4);

/// The host writes buffer 0.
const WROTE: Turn = Turn::Write(0, 0, &[5, 6, 7, 8]);

/// Two buffers of four words, an image of two by one texels with two layers, a heap of four slots, two queues and two
/// timelines.
fn small_plan(alloc: Global) -> Result<DevicePlan, Memory> {
    let buffer = PlanBuffer {
        words: 4,
        home: Home::Enhanced,
    };
    let image = PlanImage {
        width: 2,
        height: 1,
        mips: 1,
        layers: 2,
    };
    Ok(DevicePlan {
        buffers: Seq::from_vec(vec![in alloc; buffer; 2]?),
        images: Seq::from_vec(vec![in alloc; image; 1]?),
        heaps: Seq::from_vec(vec![in alloc; 4; 1]?),
        views: Seq::from_slice(alloc, &VIEWS)?,
        queues: 2,
        timelines: 2,
    })
}

/// The views of the small plan.
const VIEWS: [PlanView; 7] = [
    PlanView::Buffer {
        class: Class::Srv,
        buffer: 0,
        first: 0,
        words: 2,
    },
    PlanView::Buffer {
        class: Class::Uav,
        buffer: 0,
        first: 1,
        words: 2,
    },
    PlanView::Buffer {
        class: Class::Uav,
        buffer: 0,
        first: 2,
        words: 2,
    },
    PlanView::Buffer {
        class: Class::Uav,
        buffer: 1,
        first: 0,
        words: 4,
    },
    PlanView::Image {
        class: Class::Srv,
        image: 0,
        sub: 0,
    },
    PlanView::Image {
        class: Class::Uav,
        image: 0,
        sub: 1,
    },
    PlanView::Buffer {
        class: Class::Uav,
        buffer: 1,
        first: 2,
        words: 4,
    },
];

/// A buffer of eight words, and an image of two by two texels with two mips; one queue and one timeline.
fn wide_plan(alloc: Global) -> Result<DevicePlan, Memory> {
    let buffer = PlanBuffer {
        words: 8,
        home: Home::Enhanced,
    };
    let image = PlanImage {
        width: 2,
        height: 2,
        mips: 2,
        layers: 1,
    };
    Ok(DevicePlan {
        buffers: Seq::from_vec(vec![in alloc; buffer; 1]?),
        images: Seq::from_vec(vec![in alloc; image; 1]?),
        heaps: Seq::new(alloc),
        views: Seq::new(alloc),
        queues: 1,
        timelines: 1,
    })
}

/// A batch.
fn batch_of(
    alloc: Global,
    queue: u32,
    number: u64,
    waits: &[(u32, u64)],
    commands: &[VkCommand],
    sets: &[(u32, u64)],
) -> Result<Batch, Memory> {
    Ok(Batch {
        queue,
        number,
        waits: Seq::from_slice(alloc, waits)?,
        commands: Seq::from_slice(alloc, commands)?,
        sets: Seq::from_slice(alloc, sets)?,
    })
}

/// The step of a turn.
fn step_of(alloc: Global, turn: Turn) -> Result<VkStep, Memory> {
    Ok(match turn {
        Turn::Submit(queue, number, waits, commands, sets) => {
            VkStep::Submit(batch_of(alloc, queue, number, waits, commands, sets)?)
        }
        Turn::Pass(queue, number) => VkStep::Pass { queue, number },
        Turn::Run(queue, number, place, loaded) => VkStep::Command {
            queue,
            number,
            place,
            loaded: Seq::from_slice(alloc, loaded)?,
        },
        Turn::Bump(queue, number) => VkStep::Bump { queue, number },
        Turn::Write(buffer, first, words) => VkStep::HostWrite {
            buffer,
            first,
            words: Seq::from_slice(alloc, words)?,
        },
        Turn::Read(buffer, first, count) => VkStep::HostRead {
            buffer,
            first,
            words: Seq::from_vec(vec![in alloc; 0; count as usize]?),
        },
        Turn::Update(heap, slot) => VkStep::Update { heap, slot },
    })
}

/// The verdict on a turn.
fn verdict_on(alloc: Global, machine: &mut VkMachine, turn: Turn) -> Result<VkVerdict, Memory> {
    let step = step_of(alloc, turn)?;
    let verdict = machine.feed(&step);
    drop(step);
    verdict
}

/// Takes turns: the verdict on the last one, or `last` where there is none.
fn go(
    alloc: Global,
    machine: &mut VkMachine,
    last: VkVerdict,
    turns: &[Turn],
) -> Result<VkVerdict, Memory> {
    let mut last = last;
    for turn in turns {
        last = verdict_on(alloc, machine, *turn)?;
    }
    Ok(last)
}

/// Submits the first batch with some commands, passes it and does them in order: the verdict on the last one, or `last` where
/// there is none.
fn go_batch(
    alloc: Global,
    machine: &mut VkMachine,
    last: VkVerdict,
    commands: &'static [VkCommand],
) -> Result<VkVerdict, Memory> {
    if commands.is_empty() {
        return Ok(last);
    }
    let begin = [
        Turn::Submit(0, 0, &[], commands, &[(0, 1)]),
        Turn::Pass(0, 0),
    ];
    let mut last = go(alloc, machine, last, &begin)?;
    for k in 0..commands.len() {
        last = verdict_on(alloc, machine, Turn::Run(0, 0, k as u64 + 1, &[]))?;
    }
    Ok(last)
}

/// Takes turns, the commands of the first batch, and turns: the verdict on the last step.
fn go_row(
    alloc: Global,
    machine: &mut VkMachine,
    before: &[Turn],
    commands: &'static [VkCommand],
    behind: &[Turn],
) -> Result<VkVerdict, Memory> {
    let last = go(alloc, machine, VkVerdict::Clean, before)?;
    let last = go_batch(alloc, machine, last, commands)?;
    go(alloc, machine, last, behind)
}

/// A machine of a plan.
fn machine_of(alloc: Global, plan: DevicePlan) -> Result<VkMachine, Memory> {
    let machine = VkMachine::new(alloc, &plan);
    drop(plan);
    machine
}

/// The verdict that a rule is broken, or none.
fn verdict_of(rule: Option<VkRule>) -> VkVerdict {
    match rule {
        None => VkVerdict::Clean,
        Some(rule) => VkVerdict::Broken(rule),
    }
}

/// Whether the last step of a row breaks its rule on a new machine, and no step before it breaks another one.
fn breaks(alloc: Global, machine: &mut VkMachine, row: &Row) -> Result<bool, Memory> {
    let last = go_row(alloc, machine, row.0, row.1, row.2)?;
    Ok(last == verdict_of(row.3) && machine.broken() == row.3)
}

/// The same on a new machine of the small plan.
fn breaks_small(alloc: Global, row: &Row) -> Result<bool, Memory> {
    let mut machine = machine_of(alloc, small_plan(alloc)?)?;
    let is = breaks(alloc, &mut machine, row);
    drop(machine);
    is
}

/// The same on a new machine of the wide plan.
fn breaks_wide(alloc: Global, row: &Row) -> Result<bool, Memory> {
    let mut machine = machine_of(alloc, wide_plan(alloc)?)?;
    let is = breaks(alloc, &mut machine, row);
    drop(machine);
    is
}

/// The last step of each row breaks its rule, on the small plan.
fn break_their_rules(rt: &impl Abort, alloc: Global, rows: &[Row]) -> Result<(), Memory> {
    for k in 0..rows.len() {
        let is = breaks_small(alloc, &rows[k])?;
        assert!(rt; is, "row {k}");
    }
    Ok(())
}

/// The last step of each row breaks its rule, on the wide plan.
fn break_their_rules_wide(rt: &impl Abort, alloc: Global, rows: &[Row]) -> Result<(), Memory> {
    for k in 0..rows.len() {
        let is = breaks_wide(alloc, &rows[k])?;
        assert!(rt; is, "row {k}");
    }
    Ok(())
}
