//! The check of steps on worked journals. What is expected follows from Vulkan 1.3, chapter 7.

use dx_base::{Home, Memory, Seq};
use std::alloc::Global;
use std::process::Abort;
use std::test::Fail;
use vk_journal_check::{StepCheck, check_steps};
use vk_sync_rules::VkRule;
use vk_types::{Accesses, Batch, DevicePlan, PlanBuffer, Stages, VkCommand, VkStep};

/// Timelines and values.
type Pairs = &'static [(u32, u64)];

/// A step.
#[derive(Clone, Copy, Debug)]
enum Turn {
    /// Batch `.0` of queue 0, with its waits, commands and sets.
    Submit(u64, Pairs, &'static [VkCommand], Pairs),
    Pass(u64),
    /// Command `.1` of batch `.0`.
    Run(u64, u64),
    Bump(u64),
    /// The host writes words into buffer 0.
    Write(&'static [u32]),
    /// The host reads words of buffer `.0`.
    Read(u32, &'static [u32]),
}

/// Steps, and what they are.
type Row = (&'static [Turn], StepCheck);

/// A copy of all words of buffer 0 into buffer 1.
const COPY: VkCommand = VkCommand::Copy {
    to: 1,
    to_first: 0,
    from: 0,
    from_first: 0,
    words: 4,
};

/// A barrier to reads of the host.
const TO_HOST: VkCommand = VkCommand::Barrier {
    from: Stages::ALL_COMMANDS,
    made: Accesses::MEMORY_WRITE,
    to: Stages::HOST,
    seen: Accesses::HOST_READ,
    change: None,
};

const ZEROS: [u32; 4] = [0; 4];

/// Journals without faults, and those with one.
const ROWS: [Row; 14] = [
    (&[], StepCheck::Clean),
    // the copy has no barrier to the host
    (
        &[
            Turn::Submit(0, &[], &[], &[(1, 1)]),
            Turn::Pass(0),
            Turn::Bump(0),
            Turn::Submit(1, &[(1, 1)], &[COPY], &[(0, 1)]),
            Turn::Pass(1),
            Turn::Run(1, 1),
            Turn::Bump(1),
            Turn::Read(1, &ZEROS),
        ],
        StepCheck::Broken(VkRule::V10, 8),
    ),
    // it has one
    (
        &[
            Turn::Submit(0, &[], &[], &[(1, 1)]),
            Turn::Pass(0),
            Turn::Bump(0),
            Turn::Submit(1, &[(1, 1)], &[COPY, TO_HOST], &[(0, 1)]),
            Turn::Pass(1),
            Turn::Run(1, 1),
            Turn::Run(1, 2),
            Turn::Bump(1),
            Turn::Read(1, &ZEROS),
        ],
        StepCheck::Clean,
    ),
    // the value that the second batch waits for is not reached
    (
        &[
            Turn::Submit(0, &[], &[], &[(1, 1)]),
            Turn::Pass(0),
            Turn::Submit(1, &[(1, 1)], &[COPY], &[(0, 1)]),
            Turn::Pass(1),
            Turn::Run(1, 1),
            Turn::Bump(1),
            Turn::Read(1, &ZEROS),
        ],
        StepCheck::Impossible(4),
    ),
    // a command before the barrier that it waits for, and one after it
    (
        &[
            Turn::Submit(0, &[], &[TO_HOST, COPY, TO_HOST], &[(0, 1)]),
            Turn::Pass(0),
            Turn::Run(0, 3),
        ],
        StepCheck::Impossible(3),
    ),
    (
        &[
            Turn::Submit(0, &[], &[TO_HOST, COPY, TO_HOST], &[(0, 1)]),
            Turn::Pass(0),
            Turn::Run(0, 2),
            Turn::Run(0, 1),
            Turn::Run(0, 3),
            Turn::Bump(0),
        ],
        StepCheck::Clean,
    ),
    // a command twice, an end before the commands, a command that is not there
    (
        &[
            Turn::Submit(0, &[], &[TO_HOST], &[(0, 1)]),
            Turn::Pass(0),
            Turn::Run(0, 1),
            Turn::Run(0, 1),
        ],
        StepCheck::Impossible(4),
    ),
    (
        &[
            Turn::Submit(0, &[], &[TO_HOST], &[(0, 1)]),
            Turn::Pass(0),
            Turn::Bump(0),
        ],
        StepCheck::Impossible(3),
    ),
    (
        &[
            Turn::Submit(0, &[], &[TO_HOST], &[(0, 1)]),
            Turn::Pass(0),
            Turn::Run(0, 2),
        ],
        StepCheck::Impossible(3),
    ),
    // words of the host are known, and first words are zeros
    (
        &[Turn::Write(&[5, 6]), Turn::Read(0, &[5, 6, 0])],
        StepCheck::Clean,
    ),
    (
        &[Turn::Write(&[5, 6]), Turn::Read(0, &[5, 7])],
        StepCheck::Impossible(2),
    ),
    (&[Turn::Read(1, &[0, 1])], StepCheck::Impossible(1)),
    // past the end, which is told before the words are looked at; and the first fault alone is told
    (
        &[Turn::Read(1, &[1, 0, 0, 0, 0]), Turn::Pass(7)],
        StepCheck::Broken(VkRule::V7, 1),
    ),
    (
        &[Turn::Pass(7), Turn::Read(1, &[1, 0, 0, 0, 0])],
        StepCheck::Impossible(1),
    ),
];

/// Two buffers of four words, one queue and two timelines.
fn plan_of(alloc: Global) -> Result<DevicePlan, Memory> {
    let buffer = PlanBuffer {
        words: 4,
        home: Home::Upload,
    };
    Ok(DevicePlan {
        buffers: Seq::from_vec(vec![in alloc; buffer; 2]?),
        images: Seq::new(alloc),
        heaps: Seq::new(alloc),
        views: Seq::new(alloc),
        queues: 1,
        timelines: 2,
    })
}

/// A batch.
fn batch_of(
    alloc: Global,
    number: u64,
    waits: &[(u32, u64)],
    commands: &[VkCommand],
    sets: &[(u32, u64)],
) -> Result<Batch, Memory> {
    Ok(Batch {
        queue: 0,
        number,
        waits: Seq::from_slice(alloc, waits)?,
        commands: Seq::from_slice(alloc, commands)?,
        sets: Seq::from_slice(alloc, sets)?,
    })
}

/// The step of a turn.
fn step_of(alloc: Global, turn: Turn) -> Result<VkStep, Memory> {
    let queue = 0;
    let first = 0;
    Ok(match turn {
        Turn::Submit(number, waits, commands, sets) => {
            VkStep::Submit(batch_of(alloc, number, waits, commands, sets)?)
        }
        Turn::Pass(number) => VkStep::Pass { queue, number },
        Turn::Run(number, place) => VkStep::Command {
            queue,
            number,
            place,
            loaded: Seq::new(alloc),
        },
        Turn::Bump(number) => VkStep::Bump { queue, number },
        Turn::Write(words) => VkStep::HostWrite {
            buffer: 0,
            first,
            words: Seq::from_slice(alloc, words)?,
        },
        Turn::Read(buffer, words) => VkStep::HostRead {
            buffer,
            first,
            words: Seq::from_slice(alloc, words)?,
        },
    })
}

/// The steps of turns.
fn steps_of(alloc: Global, turns: &[Turn]) -> Result<Seq<VkStep>, Memory> {
    let mut steps = Seq::new(alloc);
    for turn in turns {
        steps.push(step_of(alloc, *turn)?)?;
    }
    Ok(steps)
}

/// What the turns of a row are, on a plan.
fn check_on(alloc: Global, plan: &DevicePlan, turns: &[Turn]) -> Result<StepCheck, Memory> {
    let steps = steps_of(alloc, turns)?;
    let check = check_steps(alloc, plan, steps.as_slice());
    drop(steps);
    check
}

/// Each row is what it is said to be.
fn are_told(rt: &impl Abort, alloc: Global, plan: &DevicePlan) -> Result<(), Memory> {
    for k in 0..ROWS.len() {
        let (turns, expected) = ROWS[k];
        let check = check_on(alloc, plan, turns)?;
        assert_eq!(rt; check, expected, "row {k}");
    }
    Ok(())
}

#[test]
fn the_first_fault_is_told(rt: HostRuntime) -> Result<(), Fail> {
    let plan = plan_of(rt.alloc())?;
    let told = are_told(&rt, rt.alloc(), &plan);
    drop(plan);
    told?;
    Ok(())
}
