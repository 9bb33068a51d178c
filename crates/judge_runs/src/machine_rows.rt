//! Tests of the machine's steps, with events worked out by hand.

use d3d_machine::{Call, Event, Machine, Record, Reply, Resource, World};
use dx_base::{
    AllocatorId, FenceId, Home, Hresult, ListId, ListType, Memory, QueueId, ResourceId, Seq,
    ThreadId,
};
use std::alloc::Global;
use std::process::Abort;
use std::test::Fail;

/// A machine with its world.
#[derive(Drop)]
struct Player {
    world: World,
    machine: Machine,
    ghost shape: { HasShape world machine },
}

ghost use Rattle.d3d_machine.specs.Shape.{HasShape};

/// Who takes a step.
#[derive(Clone, Copy, Debug)]
enum Turn {
    Thread(u32),
    Queue,
}

/// What a step is to give.
#[derive(Clone, Copy, Debug, PartialEq, Eq)]
enum Given {
    Nothing,
    Woken,
    Completed,
    Done,
    Value(u64),
    /// The words 1, 2, 3, 4.
    OneToFour,
    Error(Hresult),
    Else,
}

/// A world with one queue, one list, a fence at 0, an upload and a readback buffer of four words, and no
/// scripts.
fn objects(alloc: Global) -> Result<World, Memory> {
    let direct = ListType::Direct;
    let upload = Resource::Buffer {
        home: Home::Upload,
        words: 4,
    };
    let readback = Resource::Buffer {
        home: Home::Readback,
        words: 4,
    };
    Ok(World {
        queues: Seq::from_slice(alloc, &[direct])?,
        fences: Seq::from_slice(alloc, &[0])?,
        resources: Seq::from_slice(alloc, &[Some(upload), Some(readback)])?,
        allocators: Seq::from_slice(alloc, &[direct])?,
        lists: Seq::from_slice(alloc, &[direct])?,
        scripts: Seq::new(alloc),
    })
}

impl Player {
    /// The machine of a world of scripts.
    fn new(alloc: Global, scripts: Seq<Seq<Call>>) -> Result<Player, Memory> {
        let mut world = objects(alloc)?;
        world.scripts = scripts;
        let machine = Machine::new(alloc, &world)?;
        Ok(Player { world, machine })
    }

    /// Takes a step.
    fn step(&mut self, rt: &impl Abort, turn: Turn) -> Result<Option<Event>, Memory> {
        match turn {
            Turn::Thread(thread) => {
                assert!(rt; self.world.are_named(), "the calls name what is not there");
                assert!(rt;
                    (thread as usize) < self.world.scripts.len(),
                    "no thread {thread}"
                );
                self.machine.step_thread(&self.world, ThreadId(thread))
            }
            Turn::Queue => {
                assert!(rt; self.world.queues.len() == 1, "not one queue");
                self.machine.step_queue(&self.world, QueueId(0))
            }
        }
    }
}

/// What an event gives.
fn outcome(event: Option<Event>) -> Given {
    match event {
        None => Given::Nothing,
        Some(Event::Awake(_)) => Given::Woken,
        Some(Event::Queue(_)) => Given::Completed,
        Some(Event::Call { reply, .. }) => match reply {
            Reply::Done => Given::Done,
            Reply::Value(value) => Given::Value(value),
            Reply::Words(words) => {
                if words.as_slice() == [1, 2, 3, 4].as_slice() {
                    Given::OneToFour
                } else {
                    Given::Else
                }
            }
            Reply::Error(error) => Given::Error(error),
        },
    }
}

/// Takes the steps of a table, each of which has beside it what it is to give.
fn play(rt: &impl Abort, player: &mut Player, rows: &[(Turn, Given)]) -> Result<(), Memory> {
    for at in 0..rows.len() {
        let (turn, want) = rows[at];
        let got = outcome(player.step(rt, turn)?);
        assert!(rt; got == want, "row {at}, {turn:?}: {got:?}");
    }
    Ok(())
}

const FENCE: FenceId = FenceId(0);

const UPLOAD: ResourceId = ResourceId(0);

const READBACK: ResourceId = ResourceId(1);

const LIST: ListId = ListId(0);

const QUEUE: QueueId = QueueId(0);

/// A read of four words from the first on.
fn read_all(buffer: ResourceId) -> Call {
    Call::Read {
        buffer,
        offset: 0,
        bytes: 16,
    }
}

const RESET: Call = Call::Reset {
    list: LIST,
    allocator: AllocatorId(0),
};

const COPY: Call = Call::Recording {
    list: LIST,
    what: Record::Copy {
        to: READBACK,
        to_offset: 0,
        from: UPLOAD,
        from_offset: 0,
        bytes: 16,
    },
};

const ASK: Call = Call::Value { fence: FENCE };

/// A signal of the host.
fn host_signal(value: u64) -> Call {
    Call::HostSignal {
        fence: FENCE,
        value,
    }
}

/// A wait of the host.
fn host_wait(value: u64) -> Call {
    Call::HostWait {
        fence: FENCE,
        value,
    }
}

/// The calls that write these words, copy them, signal the fence with 1, and read them back.
fn round_of(alloc: Global, words: Seq<u32>, lists: Seq<ListId>) -> Result<Seq<Call>, Memory> {
    let write = Call::Write {
        buffer: UPLOAD,
        offset: 0,
        words,
    };
    let execute = Call::Execute {
        queue: QUEUE,
        lists,
    };
    let signal = Call::Signal {
        queue: QUEUE,
        fence: FENCE,
        value: 1,
    };
    Ok(Seq::from_vec(vec![in alloc;
        write,
        RESET,
        COPY,
        Call::Close { list: LIST },
        execute,
        signal,
        ASK,
        host_wait(1),
        read_all(READBACK),
        read_all(UPLOAD),
        host_signal(0),
        ASK,
    ]?))
}

fn round(alloc: Global) -> Result<Seq<Call>, Memory> {
    let words = Seq::from_slice(alloc, &[1, 2, 3, 4])?;
    let lists = Seq::from_slice(alloc, &[LIST])?;
    round_of(alloc, words, lists)
}

fn one_thread(alloc: Global, script: Seq<Call>) -> Result<Seq<Seq<Call>>, Memory> {
    Ok(Seq::from_vec(vec![in alloc; script]?))
}

fn round_player(alloc: Global) -> Result<Player, Memory> {
    Player::new(alloc, one_thread(alloc, round(alloc)?)?)
}

const THREAD: Turn = Turn::Thread(0);

const ANSWERS: [(Turn, Given); 20] = [
    (Turn::Queue, Given::Nothing),
    (THREAD, Given::Done),
    (THREAD, Given::Done),
    (THREAD, Given::Done),
    (THREAD, Given::Done),
    (THREAD, Given::Done),
    (THREAD, Given::Done),
    (THREAD, Given::Value(0)),
    (THREAD, Given::Done),
    (THREAD, Given::Nothing),
    (Turn::Queue, Given::Completed),
    (THREAD, Given::Nothing),
    (Turn::Queue, Given::Completed),
    (Turn::Queue, Given::Nothing),
    (THREAD, Given::Woken),
    (THREAD, Given::OneToFour),
    (THREAD, Given::Error(Hresult::InvalidArg)),
    (THREAD, Given::Done),
    (THREAD, Given::Value(0)),
    (THREAD, Given::Nothing),
];

fn plays_round(rt: &impl Abort, alloc: Global) -> Result<(), Memory> {
    let mut player = round_player(alloc)?;
    let played = play(rt, &mut player, &ANSWERS);
    drop(player);
    played
}

#[test]
fn a_round_is_answered_call_by_call(rt: HostRuntime) -> Result<(), Fail> {
    plays_round(&rt, rt.alloc())?;
    Ok(())
}

fn waiting_calls(alloc: Global) -> Result<Seq<Call>, Memory> {
    Ok(Seq::from_vec(vec![in alloc; host_wait(5), ASK]?))
}

fn signalling_calls(alloc: Global) -> Result<Seq<Call>, Memory> {
    Ok(Seq::from_vec(vec![in alloc; host_signal(4), host_signal(7), host_signal(3)]?))
}

fn two_threads(
    alloc: Global,
    first: Seq<Call>,
    second: Seq<Call>,
) -> Result<Seq<Seq<Call>>, Memory> {
    Ok(Seq::from_vec(vec![in alloc; first, second]?))
}

fn waiting_player(alloc: Global) -> Result<Player, Memory> {
    let first = waiting_calls(alloc)?;
    let second = signalling_calls(alloc)?;
    Player::new(alloc, two_threads(alloc, first, second)?)
}

const HOST: Turn = Turn::Thread(1);

const WAITS: [(Turn, Given); 10] = [
    (THREAD, Given::Done),
    (THREAD, Given::Nothing),
    (HOST, Given::Done),
    (THREAD, Given::Nothing),
    (HOST, Given::Done),
    (HOST, Given::Done),
    (THREAD, Given::Woken),
    (THREAD, Given::Value(3)),
    (THREAD, Given::Nothing),
    (HOST, Given::Nothing),
];

fn plays_waits(rt: &impl Abort, alloc: Global) -> Result<(), Memory> {
    let mut player = waiting_player(alloc)?;
    let played = play(rt, &mut player, &WAITS);
    drop(player);
    played
}

#[test]
fn a_wait_that_was_met_stays_met_when_the_fence_falls(rt: HostRuntime) -> Result<(), Fail> {
    plays_waits(&rt, rt.alloc())?;
    Ok(())
}
