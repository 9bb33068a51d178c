//! The state of a judge between two events.

ghost use Rattle.std.specs.Prelude.{◌≡◌, ◌+◌, ◌++◌, ◌∷◌, [], length, None, true, false, IfOk, OnOk, OnErr};
ghost use Rattle.std.specs.List.{list_any, list_all};
ghost use Rattle.d3d_machine.specs.World.{are_named, is_small_resource};
ghost use Rattle.d3d_judge.specs.Actors.{actor_of};
ghost use Rattle.d3d_judge.specs.Fed.{IsNext, fed_view, first_view, prepared_view, is_prepared as is_awaited};
ghost use Rattle.d3d_judge.specs.Judged.{judge as verdict_on};
ghost use Rattle.d3d_judge.specs.JudgeParts.{Stands, verdict_of};
ghost use Rattle.d3d_judge.specs.Prepared.{is_for, IsMadeFor, IsTaken};
ghost use Rattle.d3d_judge.specs.JudgeStates.{IsFed, IsJudging, AwaitsMore, view_of};

use crate::actors::Actor;
use crate::judge_parts::JudgeParts;
use crate::kept::{Kept, Note};
use crate::late::{Late, Taken};
use crate::made::{Made, Prepared, is_prepared, take_made};
use d3d_machine::{Event, World};
use dx_base::Memory;
use std::alloc::Global;
use std::mem;
use verdicts::Rule;

/// The parts of a judge, which stand behind all events that it was fed but a late one; what was made for events that may
/// come next; and how many events it was fed.
#[derive(Drop)]
pub(crate) struct JudgeState {
    parts: JudgeParts,
    late: Option<Late>,
    prepared: Vec<Prepared>,
    events: u64,
    kept: Kept,
}

impl JudgeState {
    /// The state before any event.
    pub fn new(alloc: Global, world: &World) -> Result<JudgeState, Memory>
        requires named { are_named world.now ≡ true }
        requires sizes { list_all is_small_resource world.now.resources ≡ true }
        ensures fed { IfOk result IsFed }
        ensures view { IfOk result (λ state. view_of state ≡ first_view world.now) }
    {
        let parts = JudgeParts::new(alloc, world)?;
        let kept = Kept::new().then(&Note::Begin(world));
        Ok(JudgeState {
            parts,
            late: None,
            prepared: Vec::new(alloc),
            events: 0,
            kept,
        })
    }

    /// How many events were fed.
    pub fn events(&self) -> u64
        ensures { result ≡ self.now.events }
    {
        self.events
    }

    /// Takes a late event, where there is one. Refused for memory, it is still late.
    fn settle(&mut self, world: &World) -> Result<(), Memory>
        requires { IsJudging world.now self.old }
        ensures settled { OnOk result (self.new.late ≡ None) }
        ensures judging { IsJudging world.now self.new }
        ensures kept { self.new.kept ≡ self.old.kept }
        ensures prepared { self.new.prepared ≡ self.old.prepared }
        ensures events { self.new.events ≡ self.old.events }
        ensures sure { OnErr result (self.old.prepared.items ≡ []) }
    {
        match &self.late {
            None => Ok(()),
            Some(late) => {
                let _rule = self.parts.take_late(world, late)?;
                self.late = None;
                Ok(())
            }
        }
    }

    /// Takes all memory that an event which may come next needs. Refused for memory, nothing changes that can be seen.
    pub fn prepare(&mut self, world: &World, event: &Event) -> Result<(), Memory>
        requires judging { IsJudging world.now self.old }
        requires next { IsNext world.now self.old.kept.fed.history event.now }
        ensures fed { IsFed self.new }
        ensures prepared { OnOk result (view_of self.new ≡ prepared_view (view_of self.old) event.now) }
        ensures same { OnErr result (view_of self.new ≡ view_of self.old) }
    {
        self.settle(world)?;
        let actor = Actor::of(event);
        if is_prepared(self.prepared.as_slice(), actor) {
            return Ok(());
        }
        let made = self.parts.make(&self.kept, world, event)?;
        self.prepared.push(Prepared { actor, made })?;
        Ok(())
    }

    /// What was made for an event, or is made now.
    fn made(&mut self, world: &World, event: &Event) -> Result<Made, Memory>
        requires judging { IsJudging world.now self.old }
        requires settled { self.old.late ≡ None }
        requires next { IsNext world.now self.old.kept.fed.history event.now }
        ensures made { IfOk result (λ made. IsMadeFor world.now self.new.parts event.now made) }
        ensures stands { Stands world.now self.old.kept.fed.history self.new.parts }
        ensures late { self.new.late ≡ None }
        ensures kept { self.new.kept ≡ self.old.kept }
        ensures events { self.new.events ≡ self.old.events }
        ensures fed { OnErr result (IsFed self.new) }
        ensures same { OnErr result (self.new.prepared ≡ self.old.prepared) }
        ensures sure { OnErr result (list_any (is_for (actor_of event.now)) self.old.prepared.items ≡ false) }
    {
        match take_made(&mut self.prepared, Actor::of(event)) {
            Some(made) => Ok(made),
            None => self.parts.make(&self.kept, world, event),
        }
    }

    /// An event was taken, or is late from now on.
    fn tell(&mut self, event: &Event, taken: Taken) -> Option<Rule>
        requires awaits { AwaitsMore self.old }
        requires taken { IsTaken self.old.kept.fed.world self.old.kept.fed.history event.now self.old.parts taken }
        ensures fed { IsFed self.new }
        ensures verdict { verdict_of (length self.old.kept.fed.history + 1) result ≡ verdict_on self.old.kept.fed.world (self.old.kept.fed.history ++ event.now ∷ []) }
        ensures more { view_of self.new ≡ fed_view (view_of self.old) event.now }
    {
        let next = self.kept.then(&Note::Feed(event));
        let before = mem::replace(&mut self.kept, next);
        self.prepared.clear();
        self.events += 1;
        match taken {
            Taken::Told(rule) => {
                drop(before);
                self.late = None;
                rule
            }
            Taken::Later(what) => {
                self.late = Some(Late { what, before });
                None
            }
        }
    }

    /// One event more, and the first rule that it breaks, where it breaks one. Refused for memory, nothing changes that can
    /// be seen; an event that was prepared for is not.
    pub fn feed(&mut self, world: &World, event: &Event) -> Result<Option<Rule>, Memory>
        requires judging { IsJudging world.now self.old }
        requires next { IsNext world.now self.old.kept.fed.history event.now }
        ensures fed { IsFed self.new }
        ensures verdict { IfOk result (λ rule. verdict_of (length self.old.kept.fed.history + 1) rule ≡ verdict_on world.now (self.old.kept.fed.history ++ event.now ∷ [])) }
        ensures more { OnOk result (view_of self.new ≡ fed_view (view_of self.old) event.now) }
        ensures same { OnErr result (view_of self.new ≡ view_of self.old) }
        ensures sure { OnErr result (is_awaited (view_of self.old) event.now ≡ false) }
    {
        self.settle(world)?;
        let made = self.made(world, event)?;
        let taken = self.parts.take(&self.kept, world, event, made);
        Ok(self.tell(event, taken))
    }
}
