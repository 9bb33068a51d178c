//! Histories of two threads: which event of each breaks a rule first, or none.

use super::*;
use crate::events::{Events, subs_of};
use crate::player::{Player, Turn};
use crate::scripts::{FIRST, READBACK, SECOND, Step, UPLOAD, scripts_of, world};
use Step::{Close, Copy, Execute, HostWait, Read, Reset, Signal, Value, Write};

/// Turns of thread 0, thread 1, queue 0 and queue 1.
const S: Turn = Turn::Thread(0);

const T: Turn = Turn::Thread(1);

const P: Turn = Turn::Queue(0);

const Q: Turn = Turn::Queue(1);

/// A script of thread 0, one of thread 1, turns, and the verdict at the last of them.
type Row = (&'static [Step], &'static [Step], &'static [Turn], Verdict);

/// Copies of words of the upload buffer to another in list 0 and list 1, executed by `Execute`.
const TO_READBACK: Step = Copy(0, READBACK, 0, UPLOAD, 0, 4);

const TO_FIRST: Step = Copy(0, FIRST, 0, UPLOAD, 0, 4);

const B1: Rule = Rule::B1;

const B2: Rule = Rule::B2;

const B3: Rule = Rule::B3;

const B10: Rule = Rule::B10;

/// B10: host accesses beside copies of the same words.
const HOST: [Row; 9] = [
    // The copy completes behind the read, and does not know it.
    (
        &[
            Reset(0),
            TO_READBACK,
            Close(0),
            Execute(0, 0),
            Read(READBACK, 0, 4),
        ],
        &[],
        &[S, S, S, S, S, P],
        Verdict::Broken(B10, 6),
    ),
    // The read does not know the copy.
    (
        &[
            Reset(0),
            TO_READBACK,
            Close(0),
            Execute(0, 0),
            Read(READBACK, 0, 4),
        ],
        &[],
        &[S, S, S, S, P, S],
        Verdict::Broken(B10, 6),
    ),
    // The read comes behind a wait for the copy.
    (
        &[
            Write(UPLOAD, 0, 4),
            Reset(0),
            TO_READBACK,
            Close(0),
            Execute(0, 0),
            Signal(0, 1),
            HostWait(1),
            Read(READBACK, 0, 4),
        ],
        &[],
        &[S, S, S, S, S, S, S, P, P, S, S],
        Verdict::Clean,
    ),
    // A value tells of the copy, and does not yet.
    (
        &[Reset(0), TO_READBACK, Close(0), Execute(0, 0), Signal(0, 1)],
        &[Value, Read(READBACK, 0, 4)],
        &[S, S, S, S, S, P, P, T, T],
        Verdict::Clean,
    ),
    (
        &[Reset(0), TO_READBACK, Close(0), Execute(0, 0), Signal(0, 1)],
        &[Value, Read(READBACK, 0, 4)],
        &[S, S, S, S, S, P, T, P, T],
        Verdict::Broken(B10, 9),
    ),
    // A wait knows the update that marked it, and no later one.
    (
        &[
            Reset(0),
            TO_FIRST,
            Close(0),
            Reset(1),
            Copy(1, READBACK, 0, UPLOAD, 0, 4),
            Close(1),
            Execute(0, 0),
            Signal(0, 1),
            Execute(1, 1),
            Signal(1, 2),
            HostWait(1),
            Read(READBACK, 0, 4),
        ],
        &[],
        &[S, S, S, S, S, S, S, S, S, S, S, P, P, Q, Q, S, S],
        Verdict::Broken(B10, 17),
    ),
    (
        &[
            Reset(0),
            TO_FIRST,
            Close(0),
            Reset(1),
            Copy(1, READBACK, 0, UPLOAD, 0, 4),
            Close(1),
            Execute(0, 0),
            Signal(0, 1),
            Execute(1, 1),
            Signal(1, 2),
            HostWait(2),
            Read(READBACK, 0, 4),
        ],
        &[],
        &[S, S, S, S, S, S, S, S, S, S, S, P, P, Q, Q, S, S],
        Verdict::Clean,
    ),
    // A write while the copy from its words has not completed.
    (
        &[
            Reset(0),
            TO_READBACK,
            Close(0),
            Execute(0, 0),
            Write(UPLOAD, 0, 4),
        ],
        &[],
        &[S, S, S, S, S, P],
        Verdict::Broken(B10, 6),
    ),
    // A refused read touches nothing, and counts as an event.
    (
        &[
            Reset(0),
            TO_READBACK,
            Close(0),
            Execute(0, 0),
            Read(FIRST, 0, 4),
            Read(READBACK, 0, 4),
        ],
        &[],
        &[S, S, S, S, S, P, S],
        Verdict::Broken(B10, 7),
    ),
];

/// B1: executes of two queues.
const QUEUES: [Row; 5] = [
    (
        &[
            Reset(0),
            TO_FIRST,
            Close(0),
            Reset(1),
            Copy(1, FIRST, 0, UPLOAD, 0, 4),
            Close(1),
            Execute(0, 0),
            Execute(1, 1),
        ],
        &[],
        &[S, S, S, S, S, S, S, S, P, Q],
        Verdict::Broken(B1, 10),
    ),
    // The second is called behind a wait for the first.
    (
        &[
            Reset(0),
            TO_FIRST,
            Close(0),
            Reset(1),
            Copy(1, FIRST, 0, UPLOAD, 0, 4),
            Close(1),
            Execute(0, 0),
            Signal(0, 1),
            HostWait(1),
            Execute(1, 1),
        ],
        &[],
        &[S, S, S, S, S, S, S, S, S, P, P, S, S, Q],
        Verdict::Clean,
    ),
    // Both read.
    (
        &[
            Reset(0),
            TO_FIRST,
            Close(0),
            Reset(1),
            Copy(1, SECOND, 0, UPLOAD, 0, 4),
            Close(1),
            Execute(0, 0),
            Execute(1, 1),
        ],
        &[],
        &[S, S, S, S, S, S, S, S, P, Q],
        Verdict::Clean,
    ),
    // One queue.
    (
        &[Reset(0), TO_FIRST, Close(0), Execute(0, 0), Execute(0, 0)],
        &[],
        &[S, S, S, S, S, P, P],
        Verdict::Clean,
    ),
    // A host write ends no read before it.
    (
        &[
            Reset(0),
            TO_FIRST,
            Close(0),
            Reset(1),
            Copy(1, UPLOAD, 0, SECOND, 0, 4),
            Close(1),
            Execute(0, 0),
            Signal(0, 1),
            HostWait(1),
            Write(UPLOAD, 0, 4),
        ],
        &[Execute(1, 1)],
        &[S, S, S, S, S, S, S, S, T, S, P, P, S, S, Q],
        Verdict::Broken(B1, 15),
    ),
];

/// B2 and B3: what one execute does.
const EXECUTES: [Row; 4] = [
    (
        &[Reset(0), TO_READBACK, TO_READBACK, Close(0), Execute(0, 0)],
        &[],
        &[S, S, S, S, S, P],
        Verdict::Broken(B2, 6),
    ),
    (
        &[
            Reset(0),
            Copy(0, READBACK, 0, UPLOAD, 0, 2),
            Copy(0, READBACK, 2, UPLOAD, 2, 2),
            Close(0),
            Execute(0, 0),
        ],
        &[],
        &[S, S, S, S, S, P],
        Verdict::Clean,
    ),
    (
        &[
            Reset(0),
            Copy(0, UPLOAD, 0, FIRST, 0, 4),
            Close(0),
            Execute(0, 0),
        ],
        &[],
        &[S, S, S, S, P],
        Verdict::Broken(B3, 5),
    ),
    (
        &[
            Reset(0),
            Copy(0, FIRST, 0, READBACK, 0, 4),
            Close(0),
            Execute(0, 0),
        ],
        &[],
        &[S, S, S, S, P],
        Verdict::Broken(B3, 5),
    ),
];

/// The second judge of a world that is played.
pub(super) fn second_of(alloc: Global, player: &Player) -> Result<Second, Memory> {
    let subs = subs_of(alloc, player.world())?;
    Second::new(
        alloc,
        2,
        2,
        player.world().fences.as_slice(),
        subs.as_slice(),
    )
}

/// What the judge says at a turn, as the second judge does.
pub(super) fn said_at(
    rt: &impl Abort,
    player: &mut Player,
    events: &mut Events,
    judge: &mut Second,
    turn: Turn,
) -> Result<Verdict, Memory> {
    let judged = player.step(turn)?;
    assert!(rt; judged.is_some(), "{turn:?} has no step");
    match judged {
        Some(judged) => {
            let said = judged.verdict;
            let happening = events.happening(&judged.event);
            drop(judged);
            let second = judge.feed(happening?)?;
            assert!(rt;
                said == second,
                "{said:?}, and {second:?} by the second judge"
            );
            Ok(said)
        }
        None => Ok(Verdict::Clean),
    }
}

/// What is said of turns: Clean at each but the last.
fn said_of_turns(
    rt: &impl Abort,
    player: &mut Player,
    events: &mut Events,
    judge: &mut Second,
    turns: &[Turn],
) -> Result<Verdict, Memory> {
    let mut said = Verdict::Clean;
    for turn in turns {
        assert!(rt; said == Verdict::Clean, "{said:?} before {turn:?}");
        said = said_at(rt, player, events, judge, *turn)?;
    }
    Ok(said)
}

fn said_with(
    rt: &impl Abort,
    alloc: Global,
    player: &mut Player,
    turns: &[Turn],
) -> Result<Verdict, Memory> {
    let mut judge = second_of(alloc, player)?;
    let mut events = Events::new(alloc);
    let said = said_of_turns(rt, player, &mut events, &mut judge, turns);
    drop(judge);
    drop(events);
    said
}

/// The player of a world; none where it is no world for a judge.
pub(super) fn player_of(
    alloc: Global,
    first: &[Step],
    second: &[Step],
) -> Result<Option<Player>, Memory> {
    let scripts = scripts_of(alloc, first, second)?;
    let world = world(alloc, scripts)?;
    Player::new(alloc, world)
}

fn said_by(
    rt: &impl Abort,
    alloc: Global,
    player: Option<Player>,
    turns: &[Turn],
) -> Result<Verdict, Memory> {
    assert!(rt; player.is_some(), "no world for a judge");
    match player {
        None => Ok(Verdict::Clean),
        Some(player) => {
            let mut player = player;
            let said = said_with(rt, alloc, &mut player, turns);
            drop(player);
            said
        }
    }
}

fn said(rt: &impl Abort, alloc: Global, row: &Row) -> Result<Verdict, Memory> {
    let player = player_of(alloc, row.0, row.1)?;
    said_by(rt, alloc, player, row.2)
}

fn judge_rows(rt: &impl Abort, alloc: Global, rows: &[Row]) -> Result<(), Memory> {
    for at in 0..rows.len() {
        let row = rows[at];
        let said = said(rt, alloc, &row)?;
        assert!(rt; said == row.3, "row {at}: {said:?}");
    }
    Ok(())
}

#[test]
fn host_accesses_know_what_was_before(rt: HostRuntime) -> Result<(), Fail> {
    judge_rows(&rt, rt.alloc(), &HOST)?;
    Ok(())
}

#[test]
fn executes_know_those_of_other_queues(rt: HostRuntime) -> Result<(), Fail> {
    judge_rows(&rt, rt.alloc(), &QUEUES)?;
    Ok(())
}

#[test]
fn executes_cover_and_are_allowed(rt: HostRuntime) -> Result<(), Fail> {
    judge_rows(&rt, rt.alloc(), &EXECUTES)?;
    Ok(())
}
