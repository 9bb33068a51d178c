//! The numbers that the image has behind commands, as far as they are known.

use super::{Outcome, take_both};
use crate::random_commands::plan;
use crate::slow_machine::SlowMachine;
use dx_base::{Memory, Seq};
use std::alloc::Global;
use std::process::Abort;
use std::test::Fail;
use vk_sync_rules::{VkMachine, VkResource};
use vk_types::{
    Accesses, Batch, Change, DevicePlan, Register, Stages, VkCommand, VkLayout, VkStep,
};

/// A barrier over all that the device does, with a layout change or with none.
macro_rules! barrier {
    ($change:expr) => {
        VkCommand::Barrier {
            from: Stages::ALL_COMMANDS,
            made: Accesses(3),
            to: Stages::ALL_COMMANDS,
            seen: Accesses(3),
            change: $change,
        }
    };
}

/// A layout change of the whole image.
macro_rules! change {
    ($old:ident, $new:ident) => {
        barrier!(Some(Change { image: 0, sub: None, old: VkLayout::$old, new: VkLayout::$new }))
    };
}

/// A copy of four words of buffer 0 into subresource 0.
const UPLOAD: VkCommand = VkCommand::CopyIn {
    image: 0,
    sub: 0,
    layout: VkLayout::General,
    buffer: 0,
    first: 0,
    pitch: 2,
};

/// A clear of subresource 1, which is one word.
const CLEAR: VkCommand = VkCommand::Clear {
    target: Register::Fixed(11),
    word: 9,
};

/// A copy of subresource 1 into the first word of buffer 0.
const DOWNLOAD: VkCommand = VkCommand::CopyOut {
    buffer: 0,
    first: 0,
    pitch: 1,
    image: 0,
    sub: 1,
    layout: VkLayout::General,
};

/// The numbers of subresource 0, which has four words, and of subresource 1, which has one.
type Numbers = [Option<u32>; 5];

/// The numbers that the machine has for the image.
fn numbers_of(machine: &VkMachine) -> Numbers {
    let first = VkResource::Image(0, 0);
    [
        machine.number(first, 0),
        machine.number(first, 1),
        machine.number(first, 2),
        machine.number(first, 3),
        machine.number(VkResource::Image(0, 1), 0),
    ]
}

/// A write of the host into all words of buffer 0.
fn host_write(alloc: Global) -> Result<VkStep, Memory> {
    Ok(VkStep::HostWrite {
        buffer: 0,
        first: 0,
        words: Seq::from_slice(alloc, &[5, 6, 7, 8])?,
    })
}

/// The submission of the first batch, with these commands.
fn submission(alloc: Global, commands: &[VkCommand]) -> Result<VkStep, Memory> {
    Ok(VkStep::Submit(Batch {
        queue: 0,
        number: 0,
        waits: Seq::new(alloc),
        commands: Seq::from_slice(alloc, commands)?,
        sets: Seq::new(alloc),
    }))
}

/// Takes a step in both machines; whether they take it alike.
fn take(machine: &mut VkMachine, slow: &mut SlowMachine, step: VkStep) -> Result<bool, Memory> {
    let outcome = take_both(machine, slow, &step, false);
    drop(step);
    Ok(outcome? == Outcome::Alike)
}

/// Takes a host write, and the commands of the first batch in order; whether each step is taken alike, and breaks no rule.
fn take_commands(
    alloc: Global,
    machine: &mut VkMachine,
    slow: &mut SlowMachine,
    commands: &[VkCommand],
) -> Result<bool, Memory> {
    let (queue, number) = (0, 0);
    let mut alike = take(machine, slow, host_write(alloc)?)?
        && take(machine, slow, submission(alloc, commands)?)?
        && take(machine, slow, VkStep::Pass { queue, number })?;
    let mut place = 0u64;
    for _command in commands {
        place = place.saturating_add(1);
        let loaded = Seq::new(alloc);
        let step = VkStep::Command {
            queue,
            number,
            place,
            loaded,
        };
        alike = alike && take(machine, slow, step)?;
    }
    Ok(alike && machine.broken().is_none())
}

/// The numbers of the image behind commands on two machines; None where they are not taken alike, or break a rule.
fn numbers_behind(
    alloc: Global,
    plan: &DevicePlan,
    slow: &mut SlowMachine,
    commands: &[VkCommand],
) -> Result<Option<Numbers>, Memory> {
    let mut machine = VkMachine::new(alloc, plan)?;
    let taken = take_commands(alloc, &mut machine, slow, commands);
    let numbers = numbers_of(&machine);
    drop(machine);
    Ok(if taken? { Some(numbers) } else { None })
}

/// The same on a new slow machine.
fn numbers_anew(
    alloc: Global,
    plan: &DevicePlan,
    commands: &[VkCommand],
) -> Result<Option<Numbers>, Memory> {
    let mut slow = SlowMachine::new(alloc, plan)?;
    let numbers = numbers_behind(alloc, plan, &mut slow, commands);
    drop(slow);
    numbers
}

/// Commands leave these numbers in the image.
fn leave(
    rt: &impl Abort,
    alloc: Global,
    commands: &[VkCommand],
    numbers: Numbers,
) -> Result<(), Memory> {
    let plan = plan(alloc)?;
    let left = numbers_anew(alloc, &plan, commands);
    drop(plan);
    assert!(rt; left? == Some(numbers));
    Ok(())
}

#[test]
fn a_change_from_undefined_leaves_any_numbers(rt: HostRuntime) -> Result<(), Fail> {
    let commands = [change!(Undefined, General)];
    leave(&rt, rt.alloc(), &commands, [None; 5])?;
    let commands = [
        change!(Undefined, General),
        UPLOAD,
        change!(Undefined, TransferSrcOptimal),
    ];
    leave(&rt, rt.alloc(), &commands, [None; 5])?;
    Ok(())
}

#[test]
fn a_copy_into_an_image_makes_its_numbers_known(rt: HostRuntime) -> Result<(), Fail> {
    let commands = [change!(Undefined, General), UPLOAD];
    let numbers = [Some(5), Some(6), Some(7), Some(8), None];
    leave(&rt, rt.alloc(), &commands, numbers)?;
    Ok(())
}

#[test]
fn a_change_from_another_layout_keeps_numbers(rt: HostRuntime) -> Result<(), Fail> {
    let commands = [
        change!(Undefined, General),
        CLEAR,
        UPLOAD,
        change!(General, TransferSrcOptimal),
    ];
    let numbers = [Some(5), Some(6), Some(7), Some(8), Some(9)];
    leave(&rt, rt.alloc(), &commands, numbers)?;
    Ok(())
}

#[test]
fn a_number_goes_from_one_subresource_to_the_other(rt: HostRuntime) -> Result<(), Fail> {
    let commands = [
        change!(Undefined, General),
        CLEAR,
        barrier!(None),
        DOWNLOAD,
        barrier!(None),
        UPLOAD,
    ];
    let numbers = [Some(9), Some(6), Some(7), Some(8), Some(9)];
    leave(&rt, rt.alloc(), &commands, numbers)?;
    Ok(())
}
