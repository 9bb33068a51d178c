//! The three cases: copies of words of their own in one execute, executes one behind the other, and one copy of many words.

use crate::worlds::{script, world};
use d3d_judge::Verdict;
use dx_base::Memory;
use judge_runs::{Player, Turn};
use std::alloc::Global;

/// What is executed.
#[derive(Clone, Copy, Debug)]
pub(crate) enum Case {
    Scope,
    History,
    Wide,
}

impl Case {
    /// How many executes there are.
    pub fn executes(self, count: u32) -> u32 {
        match self {
            Case::History => count,
            Case::Scope | Case::Wide => 1,
        }
    }

    /// The words of each buffer.
    fn words(self) -> u32 {
        match self {
            Case::Scope | Case::History => 4_096,
            Case::Wide => 262_144,
        }
    }
}

/// The case of that name, with the count.
pub(crate) fn named(name: &str, count: u32) -> Option<(Case, u32)> {
    if name == "scope" {
        return Some((Case::Scope, count));
    }
    if name == "history" {
        return Some((Case::History, count));
    }
    if name == "wide" {
        return Some((Case::Wide, count));
    }
    None
}

/// Whether a step is taken that breaks nothing.
fn is_clean(player: &mut Player, turn: Turn) -> Result<bool, Memory> {
    match player.step(turn)? {
        None => Ok(false),
        Some(judged) => {
            let clean = judged.verdict == Verdict::Clean;
            drop(judged);
            Ok(clean)
        }
    }
}

/// So many steps, at most: how many break nothing.
fn clean_steps(player: &mut Player, turn: Turn, count: u32) -> Result<u32, Memory> {
    let mut clean = 0u32;
    for _step in 0..count {
        if is_clean(player, turn)? {
            clean = clean.saturating_add(1);
        }
    }
    Ok(clean)
}

/// The calls of the thread, and then the completions: how many break nothing.
fn play(player: &mut Player, calls: u32, executes: u32) -> Result<u32, Memory> {
    let called = clean_steps(player, Turn::Thread(0), calls)?;
    let completed = clean_steps(player, Turn::Queue(0), executes)?;
    Ok(called.saturating_add(completed))
}

/// How many events of a case break nothing. None: it has no world for a judge.
pub(crate) fn clean_events(alloc: Global, case: Case, count: u32) -> Result<Option<u32>, Memory> {
    let calls = script(alloc, case, count)?;
    let made = (calls.len() % 4_294_967_296) as u32;
    let world = world(alloc, case.words(), calls)?;
    match Player::new(alloc, world)? {
        None => Ok(None),
        Some(player) => {
            let mut player = player;
            let clean = play(&mut player, made, case.executes(count));
            drop(player);
            Ok(Some(clean?))
        }
    }
}
