//! Runs written by hand.

ghost use Rattle.std.specs.Prelude.{◌≡◌, [], ◌∷◌, map, length, IfOk, IsSome, IfSome};
ghost use Rattle.vk_port.specs.Examples.{two_buffers, one_copy};
ghost use Rattle.vk_port.specs.DeviceView.{no_view};

use dx_base::{Home, Memory, Seq};
use std::alloc::Global;
use std::process::Abort;
use std::test::Fail;
use vk_port::{DeviceFault, NoSets, PlainDevice, Stepped, VkDevice};
use vk_types::{Accesses, Batch, DevicePlan, PlanBuffer, Stages, VkCommand};

/// Two buffers of four words, with so many queues, and a timeline for each.
fn plan_of(alloc: Global, queues: u32) -> Result<DevicePlan, Memory>
    ensures { IfOk result (λ plan. plan ≡ two_buffers queues) }
{
    let upload = PlanBuffer {
        words: 4,
        home: Home::Upload,
    };
    let readback = PlanBuffer {
        words: 4,
        home: Home::Readback,
    };
    Ok(DevicePlan {
        buffers: Seq::from_vec(vec![in alloc; upload, readback]?),
        images: Seq::new(alloc),
        heaps: Seq::new(alloc),
        views: Seq::new(alloc),
        queues,
        timelines: queues,
    })
}

/// A copy of two words of buffer 0 into buffer 1 between two barriers, to be awaited on the queue's timeline.
fn copy_of(alloc: Global, queue: u32, number: u64, first: u32) -> Result<Batch, Memory>
    ensures { IfOk result (λ batch. batch ≡ one_copy queue number first) }
{
    let leading = VkCommand::Barrier {
        from: Stages::ALL_COMMANDS,
        made: Accesses::MEMORY_WRITE,
        to: Stages::COPY,
        seen: Accesses::TRANSFER_READ,
        change: None,
    };
    let copy = VkCommand::Copy {
        to: 1,
        to_first: first,
        from: 0,
        from_first: first,
        words: 2,
    };
    let trailing = VkCommand::Barrier {
        from: Stages::COPY,
        made: Accesses::TRANSFER_WRITE,
        to: Stages::HOST,
        seen: Accesses::HOST_READ,
        change: None,
    };
    Ok(Batch {
        queue,
        number,
        waits: Seq::new(alloc),
        commands: Seq::from_vec(vec![in alloc; leading, copy, trailing]?),
        sets: Seq::from_vec(vec![in alloc; (queue, 1)]?),
    })
}

/// Takes the step of that place, if there is one. The sizes of the buffers stay.
#[tactic(auto, using(vk_port::proofs::MachineSizes::step_sizes))]
fn take<D: VkDevice>(device: &mut D, k: usize) -> Result<Stepped, DeviceFault>
    requires plan { IsSome (D.view_of device.old).plan }
    requires heaps { IfSome (D.view_of device.old).plan (λ plan. plan.heaps ≡ []) }
    requires sizes { map length (D.view_of device.old).state.numbers.buffers ≡ 4 ∷ 4 ∷ [] }
    ensures plan { (D.view_of device.new).plan ≡ (D.view_of device.old).plan }
    ensures sizes { map length (D.view_of device.new).state.numbers.buffers ≡ 4 ∷ 4 ∷ [] }
{
    if k < device.enabled() {
        let step = device.step(k, &mut NoSets)?;
        Ok(step)
    } else {
        Ok(Stepped::Free)
    }
}

/// Takes the steps of these places, one after another.
fn run<D: VkDevice>(
    alloc: Global,
    device: &mut D,
    choices: &[usize],
) -> Result<Seq<Stepped>, DeviceFault>
    requires plan { IsSome (D.view_of device.old).plan }
    requires heaps { IfSome (D.view_of device.old).plan (λ plan. plan.heaps ≡ []) }
    requires sizes { map length (D.view_of device.old).state.numbers.buffers ≡ 4 ∷ 4 ∷ [] }
    ensures plan { (D.view_of device.new).plan ≡ (D.view_of device.old).plan }
    ensures sizes { map length (D.view_of device.new).state.numbers.buffers ≡ 4 ∷ 4 ∷ [] }
{
    let mut taken = Seq::new(alloc);
    for choice in choices {
        let step = take(device, *choice)?;
        taken.push(step)?;
    }
    Ok(taken)
}

/// The words that the host writes into buffer 0.
const WRITTEN: [u32; 4] = [11, 12, 13, 14];

/// What the steps of one copy answer, which are taken at place 0 each.
const STEPS_OF_ONE: [Stepped; 5] = [
    Stepped::Passed(0, 0),
    Stepped::Ran(0, 0, 1),
    Stepped::Ran(0, 0, 2),
    Stepped::Ran(0, 0, 3),
    Stepped::Bumped(0, 0),
];

/// What the steps of two copies on two queues answer, which are taken at the places `PLACES_OF_TWO`.
const STEPS_OF_TWO: [Stepped; 7] = [
    Stepped::Passed(1, 1),
    Stepped::Ran(1, 1, 1),
    Stepped::Passed(0, 0),
    Stepped::Ran(1, 1, 2),
    Stepped::Ran(0, 0, 1),
    Stepped::Ran(1, 1, 3),
    Stepped::Bumped(1, 1),
];

/// The places of these steps.
const PLACES_OF_TWO: [usize; 7] = [1, 1, 0, 1, 0, 1, 1];

/// Takes the steps of these places, and compares what they answer.
fn takes<D: VkDevice>(
    rt: &impl Abort,
    alloc: Global,
    device: &mut D,
    places: &[usize],
    steps: &[Stepped],
) -> Result<(), DeviceFault>
    requires plan { IsSome (D.view_of device.old).plan }
    requires heaps { IfSome (D.view_of device.old).plan (λ plan. plan.heaps ≡ []) }
    requires sizes { map length (D.view_of device.old).state.numbers.buffers ≡ 4 ∷ 4 ∷ [] }
    ensures plan { (D.view_of device.new).plan ≡ (D.view_of device.old).plan }
    ensures sizes { map length (D.view_of device.new).state.numbers.buffers ≡ 4 ∷ 4 ∷ [] }
{
    let taken = run(alloc, device, places)?;
    assert_eq!(rt; taken.as_slice(), steps);
    Ok(())
}

/// Submits one copy to a new device, and takes its steps.
#[tactic(auto, using(vk_port::proofs::Examples::all_inside, vk_port::proofs::Examples::sizes_written))]
fn one_copy_runs(
    rt: &impl Abort,
    alloc: Global,
    device: &mut PlainDevice,
    plan: &DevicePlan,
) -> Result<(), DeviceFault>
    requires new { ⟦<PlainDevice as VkDevice>⟧.view_of device.old ≡ no_view }
    requires plan { plan.now ≡ two_buffers 1 }
{
    device.create(plan)?;
    device.host_write(0, 0, WRITTEN.as_slice())?;
    let batch = copy_of(alloc, 0, 0, 1)?;
    device.submit(batch)?;
    takes(
        rt,
        alloc,
        device,
        [0, 0, 0, 0, 0].as_slice(),
        STEPS_OF_ONE.as_slice(),
    )?;
    let words = device.host_read(1, 0, 4)?;
    assert_eq!(rt; words.as_slice(), [0, 12, 13, 0].as_slice());
    Ok(())
}

/// Submits two copies to two queues of a new device, and takes steps of both.
#[tactic(auto, using(vk_port::proofs::Examples::all_inside, vk_port::proofs::Examples::sizes_written))]
fn two_copies_overlap(
    rt: &impl Abort,
    alloc: Global,
    device: &mut PlainDevice,
    plan: &DevicePlan,
) -> Result<(), DeviceFault>
    requires new { ⟦<PlainDevice as VkDevice>⟧.view_of device.old ≡ no_view }
    requires plan { plan.now ≡ two_buffers 2 }
{
    device.create(plan)?;
    device.host_write(0, 0, WRITTEN.as_slice())?;
    let one = copy_of(alloc, 0, 0, 0)?;
    device.submit(one)?;
    let other = copy_of(alloc, 1, 1, 2)?;
    device.submit(other)?;
    takes(
        rt,
        alloc,
        device,
        PLACES_OF_TWO.as_slice(),
        STEPS_OF_TWO.as_slice(),
    )?;
    let words = device.host_read(1, 0, 4)?;
    assert_eq!(rt; words.as_slice(), [0, 0, 13, 14].as_slice());
    Ok(())
}

/// The run of one copy on a device of its own.
fn one_copy_on(rt: &impl Abort, alloc: Global, plan: &DevicePlan) -> Result<(), DeviceFault>
    requires { plan.now ≡ two_buffers 1 }
{
    let mut device = PlainDevice::new(alloc, Vec::new(alloc));
    let ran = one_copy_runs(rt, alloc, &mut device, plan);
    drop(device);
    ran
}

/// The run of two copies on a device of its own.
fn two_copies_on(rt: &impl Abort, alloc: Global, plan: &DevicePlan) -> Result<(), DeviceFault>
    requires { plan.now ≡ two_buffers 2 }
{
    let mut device = PlainDevice::new(alloc, Vec::new(alloc));
    let ran = two_copies_overlap(rt, alloc, &mut device, plan);
    drop(device);
    ran
}

#[test]
fn a_copy_runs_between_its_barriers(rt: HostRuntime) -> Result<(), Fail> {
    let alloc = rt.alloc();
    let plan = plan_of(alloc, 1)?;
    let ran = one_copy_on(&rt, alloc, &plan);
    drop(plan);
    ran?;
    Ok(())
}

#[test]
fn batches_of_two_queues_overlap(rt: HostRuntime) -> Result<(), Fail> {
    let alloc = rt.alloc();
    let plan = plan_of(alloc, 2)?;
    let ran = two_copies_on(&rt, alloc, &plan);
    drop(plan);
    ran?;
    Ok(())
}

/// The number of the first of five calls on a new device that answers `Lost`; 0, where none does.
#[tactic(auto, using(vk_port::proofs::Examples::all_inside, vk_port::proofs::Examples::sizes_written))]
fn first_lost(
    alloc: Global,
    device: &mut PlainDevice,
    plan: &DevicePlan,
) -> Result<u64, DeviceFault>
    requires new { ⟦<PlainDevice as VkDevice>⟧.view_of device.old ≡ no_view }
    requires plan { plan.now ≡ two_buffers 1 }
{
    if device.create(plan).is_err() {
        return Ok(1);
    }
    if device.host_write(0, 0, [1].as_slice()).is_err() {
        return Ok(2);
    }
    let batch = copy_of(alloc, 0, 0, 0)?;
    if device.submit(batch).is_err() {
        return Ok(3);
    }
    if take(device, 0).is_err() {
        return Ok(4);
    }
    if device.host_read(1, 0, 4).is_err() {
        return Ok(5);
    }
    Ok(0)
}

/// That number on a device that loses one call.
fn lost_on(alloc: Global, fails: Vec<u64>, plan: &DevicePlan) -> Result<u64, DeviceFault>
    requires { plan.now ≡ two_buffers 1 }
{
    let mut device = PlainDevice::new(alloc, fails);
    let lost = first_lost(alloc, &mut device, plan);
    drop(device);
    lost
}

/// The number of the first call that answers `Lost`, of five calls of a device that loses one; 0, where none does.
fn lost_call(alloc: Global, fail: u64) -> Result<u64, DeviceFault> {
    let fails = vec![in alloc; fail].map_err(|_| DeviceFault::Memory)?;
    let plan = plan_of(alloc, 1)?;
    let lost = lost_on(alloc, fails, &plan);
    drop(plan);
    lost
}

#[test]
fn each_call_is_lost_by_its_number(rt: HostRuntime) -> Result<(), Fail> {
    for number in 1..6 {
        assert_eq!(rt; lost_call(rt.alloc(), number)?, number);
    }
    assert_eq!(rt; lost_call(rt.alloc(), 6)?, 0);
    Ok(())
}
