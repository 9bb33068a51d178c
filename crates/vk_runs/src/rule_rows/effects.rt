//! What routines leave, and such whose registers share words.

use super::{Row, break_their_rules, machine_of};
use dx_base::{Home, Memory, Routine, Seq};
use std::alloc::Global;
use std::process::Abort;
use std::test::Fail;
use vk_sync_rules::{VkMachine, VkResource, VkRule, VkVerdict};
use vk_types::{Batch, Count, DevicePlan, PlanBuffer, Register, VkCommand, VkStep};

/// A routine and its invocations; the words of t0, t1 and u0, which is unbound where it has none, and the constant at b0;
/// and the words of u0 behind it.
type Effect = (Routine, u32, [&'static [u32]; 3], u32, &'static [u32]);

/// Rows worked out by hand.
const WORKED: [Effect; 4] = [
    (
        Routine::Sums,
        65,
        [&[1; 65], &[], &[0, 0, 9]],
        0,
        &[64, 1, 9],
    ),
    (
        Routine::Histogram,
        4,
        [&[0, 5, 2, 5], &[], &[0, 0, 0]],
        0,
        &[1, 0, 3],
    ),
    (
        Routine::Gather,
        3,
        [&[7, 8], &[1, 9, 0], &[0, 0, 0]],
        0,
        &[8, 0, 7],
    ),
    (
        Routine::Scatter,
        3,
        [&[5, 6, 7], &[2, 2, 9], &[0, 0, 0]],
        0,
        &[0, 0, 6],
    ),
];

/// No invocation, one, as many as the views have words, and one more.
const INVOCATIONS: [Effect; 32] = [
    (Routine::Fill, 0, [&[], &[], &[9, 9, 9]], 7, &[9, 9, 9]),
    (Routine::Fill, 1, [&[], &[], &[9, 9, 9]], 7, &[7, 9, 9]),
    (Routine::Fill, 3, [&[], &[], &[9, 9, 9]], 7, &[7, 7, 7]),
    (Routine::Fill, 4, [&[], &[], &[9, 9, 9]], 7, &[7, 7, 7]),
    (
        Routine::Move,
        0,
        [&[1, 2, 3], &[], &[9, 9, 9]],
        0,
        &[9, 9, 9],
    ),
    (
        Routine::Move,
        1,
        [&[1, 2, 3], &[], &[9, 9, 9]],
        0,
        &[1, 9, 9],
    ),
    (
        Routine::Move,
        3,
        [&[1, 2, 3], &[], &[9, 9, 9]],
        0,
        &[1, 2, 3],
    ),
    (
        Routine::Move,
        4,
        [&[1, 2, 3], &[], &[9, 9, 9]],
        0,
        &[1, 2, 3],
    ),
    (
        Routine::Add,
        0,
        [&[1, 2, 3], &[4, 5, 6], &[9, 9, 9]],
        0,
        &[9, 9, 9],
    ),
    (
        Routine::Add,
        1,
        [&[1, 2, 3], &[4, 5, 6], &[9, 9, 9]],
        0,
        &[5, 9, 9],
    ),
    (
        Routine::Add,
        3,
        [&[1, 2, 3], &[4, 5, 6], &[9, 9, 9]],
        0,
        &[5, 7, 9],
    ),
    (
        Routine::Add,
        4,
        [&[1, 2, 3], &[4, 5, 6], &[9, 9, 9]],
        0,
        &[5, 7, 9],
    ),
    (
        Routine::Mul,
        0,
        [&[1, 2, 3], &[], &[9, 9, 9]],
        7,
        &[9, 9, 9],
    ),
    (
        Routine::Mul,
        1,
        [&[1, 2, 3], &[], &[9, 9, 9]],
        7,
        &[7, 9, 9],
    ),
    (
        Routine::Mul,
        3,
        [&[1, 2, 3], &[], &[9, 9, 9]],
        7,
        &[7, 14, 21],
    ),
    (
        Routine::Mul,
        4,
        [&[1, 2, 3], &[], &[9, 9, 9]],
        7,
        &[7, 14, 21],
    ),
    (
        Routine::Gather,
        0,
        [&[1, 2, 3], &[2, 0, 3], &[9, 9, 9]],
        0,
        &[9, 9, 9],
    ),
    (
        Routine::Gather,
        1,
        [&[1, 2, 3], &[2, 0, 3], &[9, 9, 9]],
        0,
        &[3, 9, 9],
    ),
    (
        Routine::Gather,
        3,
        [&[1, 2, 3], &[2, 0, 3], &[9, 9, 9]],
        0,
        &[3, 1, 0],
    ),
    (
        Routine::Gather,
        4,
        [&[1, 2, 3], &[2, 0, 3], &[9, 9, 9]],
        0,
        &[3, 1, 0],
    ),
    (
        Routine::Scatter,
        0,
        [&[1, 2, 3], &[2, 0, 3], &[9, 9, 9]],
        0,
        &[9, 9, 9],
    ),
    (
        Routine::Scatter,
        1,
        [&[1, 2, 3], &[2, 0, 3], &[9, 9, 9]],
        0,
        &[9, 9, 1],
    ),
    (
        Routine::Scatter,
        3,
        [&[1, 2, 3], &[2, 0, 3], &[9, 9, 9]],
        0,
        &[2, 9, 1],
    ),
    (
        Routine::Scatter,
        4,
        [&[1, 2, 3], &[2, 0, 3], &[9, 9, 9]],
        0,
        &[0, 9, 1],
    ),
    (
        Routine::Sums,
        0,
        [&[1, 2, 3], &[], &[9, 9, 9]],
        0,
        &[9, 9, 9],
    ),
    (
        Routine::Sums,
        1,
        [&[1, 2, 3], &[], &[9, 9, 9]],
        0,
        &[1, 9, 9],
    ),
    (
        Routine::Sums,
        3,
        [&[1, 2, 3], &[], &[9, 9, 9]],
        0,
        &[6, 9, 9],
    ),
    (
        Routine::Sums,
        4,
        [&[1, 2, 3], &[], &[9, 9, 9]],
        0,
        &[6, 9, 9],
    ),
    (
        Routine::Histogram,
        0,
        [&[1, 2, 3], &[], &[9, 9, 9]],
        0,
        &[9, 9, 9],
    ),
    (
        Routine::Histogram,
        1,
        [&[1, 2, 3], &[], &[9, 9, 9]],
        0,
        &[9, 10, 9],
    ),
    (
        Routine::Histogram,
        3,
        [&[1, 2, 3], &[], &[9, 9, 9]],
        0,
        &[10, 10, 10],
    ),
    (
        Routine::Histogram,
        4,
        [&[1, 2, 3], &[], &[9, 9, 9]],
        0,
        &[11, 10, 10],
    ),
];

/// Registers that are unbound, and numbers that wrap.
const EDGES: [Effect; 8] = [
    (Routine::Move, 2, [&[], &[], &[9, 9, 9]], 0, &[0, 0, 9]),
    (Routine::Add, 2, [&[1, 2], &[], &[9, 9, 9]], 0, &[1, 2, 9]),
    (
        Routine::Gather,
        2,
        [&[1, 2], &[], &[9, 9, 9]],
        0,
        &[1, 1, 9],
    ),
    (
        Routine::Scatter,
        2,
        [&[], &[2, 0], &[9, 9, 9]],
        0,
        &[0, 9, 0],
    ),
    (Routine::Fill, 2, [&[], &[], &[]], 7, &[]),
    (Routine::Histogram, 2, [&[1, 2], &[], &[]], 0, &[]),
    (Routine::Add, 1, [&[4294967295], &[2], &[9]], 0, &[1]),
    (Routine::Mul, 1, [&[2147483649], &[], &[9]], 2, &[2]),
];

/// A routine whose t0, t1, u0 and b0 are these.
macro_rules! add {
    ($t0:expr, $t1:expr, $u0:expr, $b0:expr) => {
        VkCommand::Dispatch {
            routine: Routine::Add,
            count: Count::Number(2),
            t0: $t0,
            t1: $t1,
            u0: $u0,
            b0: $b0,
        }
    };
}

/// The same with a constant in place of t1.
macro_rules! mul {
    ($t0:expr, $u0:expr, $b0:expr) => {
        VkCommand::Dispatch {
            routine: Routine::Mul,
            count: Count::Number(2),
            t0: $t0,
            t1: Register::Unbound,
            u0: $u0,
            b0: $b0,
        }
    };
}

/// Registers that share words.
const SHARED: [Row; 5] = [
    // two reads
    (
        &[],
        &[add!(
            Register::Fixed(0),
            Register::Root {
                buffer: 0,
                first: 0
            },
            Register::Fixed(3),
            Register::Unbound
        )],
        &[],
        None,
    ),
    // a read and a write
    (
        &[],
        &[add!(
            Register::Fixed(0),
            Register::Root {
                buffer: 1,
                first: 0
            },
            Register::Fixed(3),
            Register::Unbound
        )],
        &[],
        Some(VkRule::V1),
    ),
    (
        &[],
        &[mul!(
            Register::Fixed(0),
            Register::Fixed(3),
            Register::Root {
                buffer: 1,
                first: 0
            }
        )],
        &[],
        Some(VkRule::V1),
    ),
    (
        &[],
        &[mul!(
            Register::Fixed(0),
            Register::Fixed(3),
            Register::Root {
                buffer: 1,
                first: 2
            }
        )],
        &[],
        None,
    ),
    // b0 is not used by the routine
    (
        &[],
        &[add!(
            Register::Fixed(0),
            Register::Fixed(0),
            Register::Fixed(3),
            Register::Root {
                buffer: 1,
                first: 0
            }
        )],
        &[],
        None,
    ),
];

/// A buffer for each of three registers.
fn plan_of(alloc: Global, words: &[&'static [u32]; 3]) -> Result<DevicePlan, Memory> {
    let mut buffers = Seq::new(alloc);
    for register in words {
        buffers.push(PlanBuffer {
            words: register.len().min(100) as u32,
            home: Home::Enhanced,
        })?;
    }
    Ok(DevicePlan {
        buffers,
        images: Seq::new(alloc),
        heaps: Seq::new(alloc),
        views: Seq::new(alloc),
        queues: 1,
        timelines: 1,
    })
}

/// The register that views a whole buffer; unbound where it has no words.
fn register_of(buffer: u32, words: &[u32]) -> Register {
    if words.is_empty() {
        Register::Unbound
    } else {
        Register::Root { buffer, first: 0 }
    }
}

/// The command of a row.
fn command_of(row: &Effect) -> VkCommand {
    VkCommand::Dispatch {
        routine: row.0,
        count: Count::Number(row.1),
        t0: register_of(0, row.2[0]),
        t1: register_of(1, row.2[1]),
        u0: register_of(2, row.2[2]),
        b0: Register::Constant(row.3),
    }
}

/// The verdict on a step.
fn fed(machine: &mut VkMachine, step: VkStep) -> Result<VkVerdict, Memory> {
    let verdict = machine.feed(&step);
    drop(step);
    verdict
}

/// A write of the first words of a buffer by the host.
fn write_of(alloc: Global, buffer: u32, words: &[u32]) -> Result<VkStep, Memory> {
    Ok(VkStep::HostWrite {
        buffer,
        first: 0,
        words: Seq::from_slice(alloc, words)?,
    })
}

/// The submission of one command.
fn submission_of(alloc: Global, command: VkCommand) -> Result<VkStep, Memory> {
    Ok(VkStep::Submit(Batch {
        queue: 0,
        number: 0,
        waits: Seq::new(alloc),
        commands: Seq::from_slice(alloc, &[command])?,
        sets: Seq::new(alloc),
    }))
}

/// The verdict on one command of a new machine, behind writes of the host.
fn run(alloc: Global, machine: &mut VkMachine, row: &Effect) -> Result<VkVerdict, Memory> {
    fed(machine, write_of(alloc, 0, row.2[0])?)?;
    fed(machine, write_of(alloc, 1, row.2[1])?)?;
    fed(machine, write_of(alloc, 2, row.2[2])?)?;
    fed(machine, submission_of(alloc, command_of(row))?)?;
    fed(
        machine,
        VkStep::Pass {
            queue: 0,
            number: 0,
        },
    )?;
    let loaded = Seq::new(alloc);
    let command = VkStep::Command {
        queue: 0,
        number: 0,
        place: 1,
        loaded,
    };
    fed(machine, command)
}

/// Whether the words of a buffer are known to be these.
fn are_known(machine: &VkMachine, buffer: u32, expected: &[u32]) -> bool {
    let resource = VkResource::Buffer(buffer);
    for k in 0..expected.len() {
        if machine.number(resource, k as u64) != Some(expected[k]) {
            return false;
        }
    }
    machine.number(resource, expected.len() as u64).is_none()
}

/// Whether the command of a row breaks no rule and leaves its words in u0.
fn leaves(alloc: Global, machine: &mut VkMachine, row: &Effect) -> Result<bool, Memory> {
    let verdict = run(alloc, machine, row)?;
    Ok(verdict == VkVerdict::Clean && are_known(machine, 2, row.4))
}

/// The same on a new machine.
fn leaves_anew(alloc: Global, row: &Effect) -> Result<bool, Memory> {
    let mut machine = machine_of(alloc, plan_of(alloc, &row.2)?)?;
    let is = leaves(alloc, &mut machine, row);
    drop(machine);
    is
}

/// Each row leaves its words.
fn leave_their_words(rt: &impl Abort, alloc: Global, rows: &[Effect]) -> Result<(), Memory> {
    for k in 0..rows.len() {
        let is = leaves_anew(alloc, &rows[k])?;
        assert!(rt; is, "row {k}");
    }
    Ok(())
}

#[test]
fn routines_store_what_they_are_to(rt: HostRuntime) -> Result<(), Fail> {
    leave_their_words(&rt, rt.alloc(), &WORKED)?;
    Ok(())
}

#[test]
fn routines_stop_at_the_ends_of_their_views(rt: HostRuntime) -> Result<(), Fail> {
    leave_their_words(&rt, rt.alloc(), &INVOCATIONS)?;
    Ok(())
}

#[test]
fn unbound_registers_read_zeros_and_drop_stores(rt: HostRuntime) -> Result<(), Fail> {
    leave_their_words(&rt, rt.alloc(), &EDGES)?;
    Ok(())
}

#[test]
fn registers_share_no_word_that_is_written(rt: HostRuntime) -> Result<(), Fail> {
    break_their_rules(&rt, rt.alloc(), &SHARED)?;
    Ok(())
}
