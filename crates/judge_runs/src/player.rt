//! A world that is played step by step, and judged.

ghost use Rattle.std.specs.Prelude.{◌≡◌, ◌++◌, ◌∷◌, [], true, IfOk, OnOk, OnErr};
ghost use Rattle.d3d_judge.specs.Fed.{IsNext};
ghost use Rattle.d3d_judge.specs.Judged.{judge as verdict_on};
ghost use Rattle.verdicts.specs.declared.rules.Verdict.TheVariants.{Clean};
ghost use Rattle.std.specs.List.{list_all};
ghost use Rattle.d3d_machine.specs.Shape.{HasShape};
ghost use Rattle.d3d_machine.specs.World.{are_named, is_small_resource};
ghost use Rattle.judge_runs.specs.Played.{IsTaken, clean};

use d3d_judge::{FeedFault, Judge, Verdict};
use d3d_machine::{Event, Machine, Resource, World};
use dx_base::{Memory, QueueId, ThreadId};
use std::alloc::Global;
use std::marker::Model;

/// Who takes a step.
#[derive(Clone, Copy, Debug, PartialEq, Eq)]
pub enum Turn {
    Thread(u32),
    Queue(u32),
}

/// The machine of a world, with its judge. Once the judge was refused memory, or said that a rule is broken, no more
/// steps are taken.
#[derive(Drop)]
pub struct Player {
    world: World,
    machine: Machine,
    judge: Judge,
    goes_on: bool,
}

impl Model for Player {
    ghost use Rattle.std.specs.Prelude.{Bool};
    ghost use Rattle.judge_runs.specs.Played.{IsPlayed};

    ghost Value = { Bool };

    ghost view = { λ it. it.goes_on };

    ghost invariant = { λ it. IsPlayed it.world it.machine it.judge it.goes_on };
}

/// A step with what the judge says of it.
#[derive(Drop)]
pub struct Judged {
    pub event: Event,
    pub verdict: Verdict,
}

/// Whether a resource is small enough for a judge.
fn is_small(resource: Option<Resource>) -> bool
    ensures { result ≡ is_small_resource resource }
{
    match resource {
        Some(Resource::Buffer { home: _, words }) => words <= 262_144,
        None => true,
    }
}

/// Whether all resources are.
fn are_small(resources: &[Option<Resource>]) -> bool
    ensures { result ≡ list_all is_small_resource resources.now }
{
    resources.iter().all(|resource| is_small(*resource))
}

impl Player {
    /// A world before any event. None: a call names what is not there, or a resource is too large.
    pub fn new(alloc: Global, world: World) -> Result<Option<Player>, Memory> {
        if !world.are_named() || !are_small(world.resources.as_slice()) {
            drop(world);
            return Ok(None);
        }
        let machine = Machine::new(alloc, &world)?;
        let judge = Judge::new(alloc, &world)?;
        Ok(Some(Player {
            world,
            machine,
            judge,
            goes_on: true,
        }))
    }

    pub fn world(&self) -> &World {
        &self.world
    }

    /// Whether a thread's or a queue's step is enabled.
    pub fn is_enabled(&self, turn: Turn) -> bool {
        if !self.goes_on {
            return false;
        }
        match turn {
            Turn::Thread(thread) => {
                (thread as usize) < self.world.scripts.len()
                    && self.machine.enabled_thread(&self.world, ThreadId(thread))
            }
            Turn::Queue(queue) => {
                (queue as usize) < self.world.queues.len()
                    && self.machine.enabled_queue(QueueId(queue))
            }
        }
    }

    /// A step, where it is enabled, and what the judge says.
    pub fn step(&mut self, turn: Turn) -> Result<Option<Judged>, Memory> {
        if !self.goes_on {
            return Ok(None);
        }
        match taken(&mut self.machine, &self.world, turn)? {
            None => Ok(None),
            Some(event) => match verdict_on_step(&mut self.judge, &self.world, &event, turn) {
                Ok(verdict) => {
                    self.goes_on = is_clean(verdict);
                    Ok(Some(Judged { event, verdict }))
                }
                Err(_) => {
                    self.goes_on = false;
                    drop(event);
                    Err(Memory)
                }
            },
        }
    }
}

/// Prepares a judge for an event of the first thread or queue; where it is refused, a second time.
fn prepare(judge: &mut Judge, world: &World, event: &Event, turn: Turn) -> Result<(), FeedFault>
    requires world { judge.old.world ≡ world.now }
    requires clean { verdict_on world.now judge.old.history ≡ Clean }
    requires next { IsNext world.now judge.old.history event.now }
    ensures world { judge.new.world ≡ judge.old.world }
    ensures history { judge.new.history ≡ judge.old.history }
{
    match turn {
        Turn::Thread(0) | Turn::Queue(0) => match judge.prepare(world, event) {
            Ok(()) => Ok(()),
            Err(_refused) => judge.prepare(world, event),
        },
        Turn::Thread(_) | Turn::Queue(_) => Ok(()),
    }
}

/// What a judge says of an event. It is prepared for those of the first thread and queue.
fn verdict_on_step(
    judge: &mut Judge,
    world: &World,
    event: &Event,
    turn: Turn,
) -> Result<Verdict, FeedFault>
    requires world { judge.old.world ≡ world.now }
    requires clean { verdict_on world.now judge.old.history ≡ Clean }
    requires next { IsNext world.now judge.old.history event.now }
    ensures verdict { IfOk result (λ verdict. verdict ≡ verdict_on world.now (judge.old.history ++ event.now ∷ [])) }
    ensures world { OnOk result (judge.new.world ≡ judge.old.world) }
    ensures history { OnOk result (judge.new.history ≡ judge.old.history ++ event.now ∷ []) }
{
    prepare(judge, world, event, turn)?;
    judge.feed(world, event)
}

/// Whether no rule is broken.
fn is_clean(verdict: Verdict) -> bool
    ensures { result ≡ clean verdict }
{
    match verdict {
        Verdict::Clean => true,
        Verdict::Broken(_, _) => false,
    }
}

/// The event of a step, where it is enabled.
fn taken(machine: &mut Machine, world: &World, turn: Turn) -> Result<Option<Event>, Memory>
    requires named { are_named world.now ≡ true }
    requires shape { HasShape world.now machine.old }
    ensures event { IfOk result (λ event. IsTaken world.now machine.old event machine.new) }
    ensures shape { HasShape world.now machine.new }
    ensures same { OnErr result (machine.new ≡ machine.old) }
{
    match turn {
        Turn::Thread(thread) => {
            if thread as usize >= world.scripts.len() {
                return Ok(None);
            }
            machine.step_thread(world, ThreadId(thread))
        }
        Turn::Queue(queue) => {
            if queue as usize >= world.queues.len() {
                return Ok(None);
            }
            machine.step_queue(world, QueueId(queue))
        }
    }
}
