//! The judge of a run, event by event.

ghost use Rattle.std.specs.Prelude.{◌≡◌, ◌<◌, ◌+◌, ◌^◌, ◌++◌, [], ◌∷◌, length, true, false, IfOk, OnOk, OnErr, IfErr};
ghost use Rattle.d3d_machine.specs.World.{are_named, is_small_resource};
ghost use Rattle.std.specs.List.{list_all};
ghost use Rattle.d3d_judge.specs.Fed.{IsNext, first_view, fed_view, prepared_view, is_prepared};
ghost use Rattle.d3d_judge.specs.Judged.{judge as verdict_on};
ghost use Rattle.d3d_judge.specs.JudgeParts.{verdict_of};
ghost use Rattle.verdicts.specs.declared.rules.Verdict.TheVariants.{Clean};
ghost use Rattle.d3d_judge.specs.declared.judge.FeedFault.TheVariants.{Full as full_fault, Memory as memory_fault};

use crate::judge_state::JudgeState;
use d3d_machine::{Event, World};
use dx_base::Memory;
use std::alloc::Global;
use std::marker::Model;
use verdicts::{Rule, Verdict};

/// Why an event is not judged.
#[derive(Clone, Copy, Debug, PartialEq, Eq)]
pub enum FeedFault {
    /// Memory was refused.
    Memory,
    /// The history has as many events as a number of 64 bits can count.
    Full,
}

/// The judge of the runs of one world: it is fed the events of a run in order, and says of each whether it is the first
/// that breaks a rule. Contracts see the world, the events so far, and whose next event it is prepared for.
#[derive(Drop)]
pub struct Judge {
    state: JudgeState,
}

impl Model for Judge {
    ghost use Rattle.d3d_judge.specs.Fed.{JudgeView};
    ghost use Rattle.d3d_judge.specs.JudgeStates.{IsFed, view_of};

    ghost Value = { JudgeView };

    ghost view = { λ it. view_of it.state };

    ghost invariant = { λ it. IsFed it.state };
}

impl Judge {
    /// The judge of a world before any event. Its calls name objects of it, and no resource is larger than a trace
    /// may make it.
    pub fn new(alloc: Global, world: &World) -> Result<Judge, Memory>
        requires named { are_named world.now ≡ true }
        requires sizes { list_all is_small_resource world.now.resources ≡ true }
        ensures { IfOk result (λ judge. judge ≡ first_view world.now) }
    {
        Ok(Judge {
            state: JudgeState::new(alloc, world)?,
        })
    }

    /// Takes all memory that an event which may come next needs, whatever its reply. Until an event is fed, feeding such an
    /// event of its thread or queue is not refused for memory. Memory, Full: the judge is as before.
    pub fn prepare(&mut self, world: &World, event: &Event) -> Result<(), FeedFault>
        requires world { self.old.world ≡ world.now }
        requires clean { verdict_on world.now self.old.history ≡ Clean }
        requires next { IsNext world.now self.old.history event.now }
        ensures prepared { OnOk result (self.new ≡ prepared_view self.old event.now) }
        ensures same { OnErr result (self.new ≡ self.old) }
        ensures memory { IfErr result (λ fault. fault ≡ memory_fault → length self.old.history + 1 < 2 ^ 64) }
        ensures full { IfErr result (λ fault. fault ≡ full_fault → length self.old.history + 1 ≡ 2 ^ 64) }
    {
        if self.state.events() == u64::MAX {
            return Err(FeedFault::Full);
        }
        match self.state.prepare(world, event) {
            Ok(()) => Ok(()),
            Err(_memory) => Err(FeedFault::Memory),
        }
    }

    /// One event more, which has to be one that may come, whatever its reply. What is said of the history with it:
    /// Clean, or Broken with the least rule that its first command that breaks one breaks, and the event's number. To
    /// a history that broke a rule nothing is fed. Memory: the judge is as before, and was not prepared for the event.
    /// Full: the events before are as many as can be counted, and the judge is as before.
    pub fn feed(&mut self, world: &World, event: &Event) -> Result<Verdict, FeedFault>
        requires world { self.old.world ≡ world.now }
        requires clean { verdict_on world.now self.old.history ≡ Clean }
        requires next { IsNext world.now self.old.history event.now }
        ensures verdict { IfOk result (λ verdict. verdict ≡ verdict_on world.now (self.old.history ++ event.now ∷ [])) }
        ensures fed { OnOk result (self.new ≡ fed_view self.old event.now) }
        ensures same { OnErr result (self.new ≡ self.old) }
        ensures counted { OnOk result (length self.old.history + 1 < 2 ^ 64) }
        ensures prepared { IfErr result (λ fault. fault ≡ memory_fault → is_prepared self.old event.now ≡ false) }
        ensures memory { IfErr result (λ fault. fault ≡ memory_fault → length self.old.history + 1 < 2 ^ 64) }
        ensures full { IfErr result (λ fault. fault ≡ full_fault → length self.old.history + 1 ≡ 2 ^ 64) }
    {
        if self.state.events() == u64::MAX {
            return Err(FeedFault::Full);
        }
        match self.state.feed(world, event) {
            Ok(rule) => Ok(verdict(rule, self.state.events())),
            Err(_memory) => Err(FeedFault::Memory),
        }
    }
}

/// The verdict of an event of that number that breaks a rule, or none.
fn verdict(rule: Option<Rule>, number: u64) -> Verdict
    ensures { result ≡ verdict_of number rule }
{
    match rule {
        None => Verdict::Clean,
        Some(rule) => Verdict::Broken(rule, number),
    }
}
