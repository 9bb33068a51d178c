//! Tests of the calls on lists, with answers worked out by hand from what the calls promise.

use d3d_machine::{
    Call, Command, ListState, Lists, Record, Reply, Resource, World, argument_error, read_refusal,
    write_refusal,
};
use dx_base::{
    AllocatorId, FenceId, Home, Hresult, LIST_COMMANDS, ListId, ListType, Memory, QueueId,
    ResourceId, Seq,
};
use std::alloc::Global;
use std::process::Abort;
use std::test::Fail;

/// A step of a table: a call on lists, with small numbers.
#[derive(Clone, Copy, Debug)]
enum Step {
    /// Records a copy of so many bytes into that list.
    Copy(u32, u64),
    Close(u32),
    Reset(u32, u32),
    Execute(u32),
}

/// One queue, two allocators, three lists; an upload and a readback buffer of four words, and a dead one.
fn small_world(alloc: Global) -> Result<World, Memory> {
    let direct = ListType::Direct;
    let upload = Resource::Buffer {
        home: Home::Upload,
        words: 4,
    };
    let readback = Resource::Buffer {
        home: Home::Readback,
        words: 4,
    };
    Ok(World {
        queues: Seq::from_slice(alloc, &[direct])?,
        fences: Seq::new(alloc),
        resources: Seq::from_slice(alloc, &[Some(upload), Some(readback), None])?,
        allocators: Seq::from_slice(alloc, &[direct, direct])?,
        lists: Seq::from_slice(alloc, &[direct, direct, direct])?,
        scripts: Seq::new(alloc),
    })
}

/// A copy from the upload buffer's first word on to the readback buffer's first word on.
fn copy_of(bytes: u64) -> Record {
    Record::Copy {
        to: ResourceId(1),
        to_offset: 0,
        from: ResourceId(0),
        from_offset: 0,
        bytes,
    }
}

/// The error of a step, where it has one.
fn error_of(
    rt: &impl Abort,
    alloc: Global,
    world: &World,
    lists: &mut Lists,
    step: Step,
) -> Result<Option<Hresult>, Memory> {
    assert!(rt; lists.len() == 3);
    match step {
        Step::Copy(list, bytes) => {
            assert!(rt; list < 3);
            match lists.record(world, ListId(list), copy_of(bytes))? {
                Reply::Error(error) => Ok(Some(error)),
                _ => Ok(None),
            }
        }
        Step::Close(list) => {
            assert!(rt; list < 3);
            Ok(lists.close(ListId(list)).err())
        }
        Step::Reset(list, allocator) => {
            assert!(rt; list < 3);
            Ok(
                lists
                    .reset(world, ListId(list), AllocatorId(allocator))
                    .err(),
            )
        }
        Step::Execute(list) => Ok(
            lists
                .gather(alloc, world, QueueId(0), &[ListId(list)])?
                .err(),
        ),
    }
}

/// Makes the steps of a table, each of which has the error beside it.
fn expect(
    rt: &impl Abort,
    alloc: Global,
    world: &World,
    lists: &mut Lists,
    rows: &[(Step, Option<Hresult>)],
) -> Result<(), Memory> {
    for (step, want) in rows {
        let answer = error_of(rt, alloc, world, lists, *step)?;
        assert!(rt; answer == *want, "at {step:?}");
    }
    Ok(())
}

/// Records as many commands into the first list as a list can hold.
fn fill(rt: &impl Abort, alloc: Global, world: &World, lists: &mut Lists) -> Result<(), Memory> {
    for _number in 0..LIST_COMMANDS {
        error_of(rt, alloc, world, lists, Step::Copy(0, 4))?;
    }
    Ok(())
}

const FAIL: Option<Hresult> = Some(Hresult::Fail);

const INVALID: Option<Hresult> = Some(Hresult::InvalidArg);

const REFUSALS: [(Step, Option<Hresult>); 21] = [
    (Step::Copy(0, 4), FAIL),
    (Step::Close(0), FAIL),
    (Step::Execute(0), None),
    (Step::Reset(0, 0), None),
    (Step::Reset(0, 1), FAIL),
    (Step::Reset(1, 0), INVALID),
    (Step::Reset(1, 1), None),
    (Step::Reset(2, 7), INVALID),
    (Step::Copy(0, 4), None),
    (Step::Execute(0), FAIL),
    (Step::Close(0), None),
    (Step::Execute(0), None),
    (Step::Reset(2, 0), None),
    (Step::Copy(1, 20), None),
    (Step::Copy(1, 4), None),
    (Step::Close(1), INVALID),
    (Step::Close(1), FAIL),
    (Step::Execute(1), FAIL),
    (Step::Reset(1, 1), None),
    (Step::Close(1), None),
    (Step::Execute(9), FAIL),
];

/// Makes the steps of a table on the lists of a world.
fn refuses(
    rt: &impl Abort,
    alloc: Global,
    world: &World,
    rows: &[(Step, Option<Hresult>)],
) -> Result<(), Memory> {
    let mut lists = Lists::new(alloc, world)?;
    let made = expect(rt, alloc, world, &mut lists, rows);
    drop(lists);
    made
}

/// Makes the steps of a table on the lists of a small world.
fn refused(rt: &impl Abort, alloc: Global, rows: &[(Step, Option<Hresult>)]) -> Result<(), Memory> {
    let world = small_world(alloc)?;
    let made = refuses(rt, alloc, &world, rows);
    drop(world);
    made
}

#[test]
fn calls_on_lists_are_refused_in_the_order_of_the_table(rt: HostRuntime) -> Result<(), Fail> {
    refused(&rt, rt.alloc(), &REFUSALS)?;
    Ok(())
}

/// Fills the first list, and records one command more.
fn overfill(
    rt: &impl Abort,
    alloc: Global,
    world: &World,
    lists: &mut Lists,
) -> Result<(), Memory> {
    expect(rt, alloc, world, lists, &[(Step::Reset(0, 0), None)])?;
    fill(rt, alloc, world, lists)?;
    let again = [(Step::Close(0), None), (Step::Reset(0, 0), None)];
    expect(rt, alloc, world, lists, &again)?;
    fill(rt, alloc, world, lists)?;
    let past = [(Step::Copy(0, 20), None), (Step::Close(0), FAIL)];
    expect(rt, alloc, world, lists, &past)?;
    assert!(rt; lists.len() == 3);
    assert!(rt;
        lists.state(ListId(0)) == ListState::Failed,
        "a full list comes before a bad argument"
    );
    Ok(())
}

fn overfills(rt: &impl Abort, alloc: Global, world: &World) -> Result<(), Memory> {
    let mut lists = Lists::new(alloc, world)?;
    let filled = overfill(rt, alloc, world, &mut lists);
    drop(lists);
    filled
}

fn overfilled(rt: &impl Abort, alloc: Global) -> Result<(), Memory> {
    let world = small_world(alloc)?;
    let filled = overfills(rt, alloc, &world);
    drop(world);
    filled
}

#[test]
fn a_list_takes_1024_commands_and_no_more(rt: HostRuntime) -> Result<(), Fail> {
    overfilled(&rt, rt.alloc())?;
    Ok(())
}

const RECORDINGS: [(Step, Option<Hresult>); 7] = [
    (Step::Reset(0, 0), None),
    (Step::Copy(0, 4), None),
    (Step::Copy(0, 8), None),
    (Step::Close(0), None),
    (Step::Reset(1, 0), None),
    (Step::Copy(1, 12), None),
    (Step::Close(1), None),
];

/// Records commands into two lists, and gathers three.
fn gather(rt: &impl Abort, alloc: Global, world: &World, lists: &mut Lists) -> Result<(), Memory> {
    expect(rt, alloc, world, lists, &RECORDINGS)?;
    let order = [ListId(1), ListId(2), ListId(0)];
    let want = [
        Command { what: copy_of(12) },
        Command { what: copy_of(4) },
        Command { what: copy_of(8) },
    ];
    match lists.gather(alloc, world, QueueId(0), &order)? {
        Ok(commands) => assert!(rt; commands.as_slice() == want.as_slice()),
        Err(error) => assert!(rt; false, "refused: {error:?}"),
    }
    assert!(rt; lists.len() == 3);
    assert!(rt; lists.closed(ListId(1)).is_some());
    Ok(())
}

fn gathers(rt: &impl Abort, alloc: Global, world: &World) -> Result<(), Memory> {
    let mut lists = Lists::new(alloc, world)?;
    let made = gather(rt, alloc, world, &mut lists);
    drop(lists);
    made
}

fn gathered(rt: &impl Abort, alloc: Global) -> Result<(), Memory> {
    let world = small_world(alloc)?;
    let made = gathers(rt, alloc, &world);
    drop(world);
    made
}

#[test]
fn lists_are_gathered_in_the_order_of_the_call(rt: HostRuntime) -> Result<(), Fail> {
    gathered(&rt, rt.alloc())?;
    Ok(())
}

#[test]
fn arguments_of_copies_are_checked(rt: HostRuntime) -> Result<(), Fail> {
    let world = small_world(rt.alloc())?;
    let rows = [
        (1, 0, 0, 0, 16, true),
        (1, 12, 0, 0, 4, true),
        (0, 0, 0, 8, 8, true),
        (1, 0, 0, 0, 0, false),
        (1, 2, 0, 0, 4, false),
        (1, 0, 0, 2, 4, false),
        (1, 0, 0, 0, 6, false),
        (1, 4, 0, 0, 16, false),
        (1, 0, 0, 4, 16, false),
        (0, 0, 0, 4, 8, false),
        (0, 4, 0, 0, 8, false),
        (2, 0, 0, 0, 4, false),
        (1, 0, 2, 0, 4, false),
        (1, u64::MAX - 3, 0, 0, 4, false),
    ];
    for (to, to_offset, from, from_offset, bytes, good) in rows {
        let what = Record::Copy {
            to: ResourceId(to),
            to_offset,
            from: ResourceId(from),
            from_offset,
            bytes,
        };
        let want = if good {
            None
        } else {
            Some(Hresult::InvalidArg)
        };
        assert_eq!(rt; argument_error(&world, what), want, "at {what:?}");
    }
    Ok(())
}

#[test]
fn host_accesses_are_checked(rt: HostRuntime) -> Result<(), Fail> {
    let world = small_world(rt.alloc())?;
    let invalid = Some(Hresult::InvalidArg);
    let writes = [
        (0, 0, 4, None),
        (0, 12, 1, None),
        (0, 12, 2, invalid),
        (0, 2, 1, invalid),
        (1, 0, 1, invalid),
        (2, 0, 1, invalid),
        (0, 0, usize::MAX, invalid),
    ];
    for (buffer, offset, words, want) in writes {
        assert_eq!(rt;
            write_refusal(&world, ResourceId(buffer), offset, words),
            want,
            "writing {words} words at {offset}"
        );
    }
    let reads = [
        (1, 0, 16, None),
        (1, 12, 4, None),
        (1, 0, 0, invalid),
        (1, 4, 16, invalid),
        (1, 2, 4, invalid),
        (1, 0, 6, invalid),
        (0, 0, 4, invalid),
        (2, 0, 4, invalid),
    ];
    for (buffer, offset, bytes, want) in reads {
        assert_eq!(rt;
            read_refusal(&world, ResourceId(buffer), offset, bytes),
            want,
            "reading {bytes} bytes at {offset}"
        );
    }
    Ok(())
}

#[test]
fn calls_and_replies_are_copied(rt: HostRuntime) -> Result<(), Fail> {
    let alloc = rt.alloc();
    let calls = [
        Call::Execute {
            queue: QueueId(0),
            lists: Seq::from_slice(alloc, &[ListId(2), ListId(1)])?,
        },
        Call::HostSignal {
            fence: FenceId(1),
            value: 7,
        },
        Call::Value { fence: FenceId(1) },
        Call::Write {
            buffer: ResourceId(0),
            offset: 4,
            words: Seq::from_slice(alloc, &[9, 8])?,
        },
    ];
    for call in &calls {
        assert!(rt; call.copied(alloc)? == *call, "copying {call:?}");
    }
    let reply = Reply::Words(Seq::from_slice(alloc, &[7, 5])?);
    assert!(rt; reply.copied(alloc)? == reply);
    Ok(())
}
