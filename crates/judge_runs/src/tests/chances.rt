//! Runs by chance, from fixed seeds: many of them break a rule that copies and host accesses can break, and many
//! break none.

use super::histories::{player_of, said_at, second_of};
use super::*;
use crate::chance::some_script;
use crate::dice::Dice;
use crate::events::Events;
use crate::player::{Player, Turn};

/// The runs: their seeds are 1, 2, ..
const RUNS: u64 = 2_000;

/// The steps of a run, at most.
const STEPS: u32 = 96;

const TURNS: [Turn; 4] = [
    Turn::Thread(0),
    Turn::Thread(1),
    Turn::Queue(0),
    Turn::Queue(1),
];

/// A step that is enabled, where there is one: the first from a place of chance on.
fn some_turn(player: &Player, dice: &mut Dice) -> Option<Turn> {
    let start = dice.roll(4);
    for at in 0..4u64 {
        let place = (start.wrapping_add(at) % 4) as usize;
        if let Some(turn) = TURNS.get(place) {
            if player.is_enabled(*turn) {
                return Some(*turn);
            }
        }
    }
    None
}

/// What is said of a run by chance, up to its end or to the first rule that it breaks.
fn said_by_chance(
    rt: &impl Abort,
    player: &mut Player,
    events: &mut Events,
    judge: &mut Second,
    dice: &mut Dice,
) -> Result<Verdict, Memory> {
    for _step in 0..STEPS {
        match some_turn(player, dice) {
            Some(turn) => {
                let said = said_at(rt, player, events, judge, turn)?;
                if said != Verdict::Clean {
                    return Ok(said);
                }
            }
            None => return Ok(Verdict::Clean),
        }
    }
    Ok(Verdict::Clean)
}

fn said_of_player(
    rt: &impl Abort,
    alloc: Global,
    player: &mut Player,
    dice: &mut Dice,
) -> Result<Verdict, Memory> {
    let mut judge = second_of(alloc, player)?;
    let mut events = Events::new(alloc);
    let said = said_by_chance(rt, player, &mut events, &mut judge, dice);
    drop(judge);
    drop(events);
    said
}

fn some_player(alloc: Global, dice: &mut Dice) -> Result<Option<Player>, Memory> {
    let first = some_script(alloc, dice, 0)?;
    let second = some_script(alloc, dice, 1)?;
    player_of(alloc, first.as_slice(), second.as_slice())
}

fn said_of_some(
    rt: &impl Abort,
    alloc: Global,
    player: Option<Player>,
    dice: &mut Dice,
) -> Result<Verdict, Memory> {
    assert!(rt; player.is_some(), "no world for a judge");
    match player {
        None => Ok(Verdict::Clean),
        Some(player) => {
            let mut player = player;
            let said = said_of_player(rt, alloc, &mut player, dice);
            drop(player);
            said
        }
    }
}

fn said_of_seed(rt: &impl Abort, alloc: Global, seed: u64) -> Result<Verdict, Memory> {
    let mut dice = Dice::new(seed);
    let player = some_player(alloc, &mut dice)?;
    said_of_some(rt, alloc, player, &mut dice)
}

/// Counts the runs that are Clean, and those that break B1, B2, B3 and B10.
fn count(rt: &impl Abort, alloc: Global, counts: &mut [u32; 5]) -> Result<(), Memory> {
    for seed in 1..=RUNS {
        let at = match said_of_seed(rt, alloc, seed)? {
            Verdict::Clean => 0,
            Verdict::Broken(Rule::B1, _) => 1,
            Verdict::Broken(Rule::B2, _) => 2,
            Verdict::Broken(Rule::B3, _) => 3,
            Verdict::Broken(_, _) => 4,
        };
        counts[at] = counts[at].saturating_add(1);
    }
    Ok(())
}

#[test]
fn runs_by_chance_break_each_rule_and_keep_all(rt: HostRuntime) -> Result<(), Fail> {
    let mut counts = [0; 5];
    count(&rt, rt.alloc(), &mut counts)?;
    assert!(&rt; counts.iter().all(|runs| *runs >= 100), "{counts:?}");
    Ok(())
}
