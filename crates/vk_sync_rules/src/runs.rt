//! What commands do.

ghost use Rattle.std.specs.Prelude.{◌≡◌, ◌∷◌, ◌++◌, if◌then◌else◌, map, IfOk, OnOk, OnErr, Some};
ghost use Rattle.vk_sync_rules.specs.Commands.{passes_end as passes_the_end};
ghost use Rattle.vk_sync_rules.specs.Machines.{numbers_of, state_of};
ghost use Rattle.vk_sync_rules.specs.NextState.{after_run, kept_by, layouts_after as layouts_of, made_at, numbers_after as numbers_of_run};
ghost use Rattle.vk_sync_rules.specs.Rules.{after_step, or_rule, rule_of, rule_of_command as rule_of_run};
ghost use Rattle.vk_types.specs.declared.steps.VkStep.TheVariants.{Command};

use crate::accesses::DoneAccess;
use crate::commands::{change_of, passes_end, pieces_of, subs_of};
use crate::counts::Done;
use crate::journal::command_at;
use crate::layouts::set_layouts;
use crate::machine::VkMachine;
use crate::moves::first_rule;
use crate::numbers::NumberTable;
use crate::places::Place;
use crate::rules::VkRule;
use dx_base::{Memory, Seq};
use std::alloc::Global;
use vk_types::{VkCommand, VkLayout};

/// The rule that a command breaks, if it breaks one, and what it leaves.
struct Run {
    rule: Option<VkRule>,
    numbers: NumberTable,
    layouts: Seq<Seq<VkLayout>>,
    done: Seq<Done>,
    accesses: Seq<DoneAccess>,
}

/// A copy of the layouts of images.
fn layouts_copied(alloc: Global, layouts: &Seq<Seq<VkLayout>>) -> Result<Seq<Seq<VkLayout>>, Memory>
    ensures { IfOk result (λ copy. copy ≡ layouts.now) }
{
    let mut copy = Seq::new(alloc);
    for image in layouts.as_slice() {
        copy.push(Seq::from_slice(alloc, image.as_slice())?)?;
    }
    Ok(copy)
}

impl VkMachine {
    /// The layouts after a command; as they were where it passes an end.
    fn layouts_after(&self, outside: bool, command: VkCommand) -> Result<Seq<Seq<VkLayout>>, Memory>
        ensures { IfOk result (λ after. after ≡ (if outside then self.now.layouts else layouts_of (state_of self.now) command)) }
    {
        let mut layouts = layouts_copied(self.alloc, &self.layouts)?;
        if outside {
            return Ok(layouts);
        }
        match change_of(command) {
            None => Ok(layouts),
            Some(change) => {
                let subs = subs_of(self.alloc, &self.plan, change)?;
                set_layouts(&mut layouts, change.image, change.new, subs.as_slice());
                Ok(layouts)
            }
        }
    }

    /// The done commands with one more.
    fn done_after(&self, queue: u32, place: Place) -> Result<Seq<Done>, Memory>
        ensures { IfOk result (λ after. after ≡ record { queue = queue; place = place } ∷ self.now.done) }
    {
        let mut done = Seq::new(self.alloc);
        done.push(Done { queue, place })?;
        done.extend_from_slice(self.done.as_slice())?;
        Ok(done)
    }

    /// What a command at a place does.
    #[tactic(auto, using(crate::proofs::PieceSteps::numbers_by))]
    fn run_of(
        &self,
        queue: u32,
        place: Place,
        answers: &[u32],
        command: VkCommand,
    ) -> Result<Run, Memory>
        ensures rule { IfOk result (λ run. run.rule ≡ rule_of_run (state_of self.now) queue place answers.now (Some command)) }
        ensures numbers { IfOk result (λ run. numbers_of run.numbers ≡ numbers_of_run (state_of self.now) queue place answers.now command) }
        ensures layouts { IfOk result (λ run. run.layouts ≡ (if passes_the_end self.now.plan answers.now command then self.now.layouts else layouts_of (state_of self.now) command)) }
        ensures done { IfOk result (λ run. run.done ≡ record { queue = queue; place = place } ∷ self.now.done) }
        ensures accesses { IfOk result (λ run. run.accesses ≡ map (kept_by queue place command) self.now.accesses ++ made_at (state_of self.now) queue place answers.now command) }
    {
        let pieces = pieces_of(self.alloc, &self.plan, answers, command)?;
        let pieces = pieces.as_slice();
        let outside = passes_end(self.alloc, &self.plan, change_of(command), pieces)?;
        Ok(Run {
            rule: self.rule_of_command(queue, place, outside, pieces, command)?,
            numbers: self.numbers_after(queue, place, outside, answers, pieces, command)?,
            layouts: self.layouts_after(outside, command)?,
            done: self.done_after(queue, place)?,
            accesses: self.accesses_after(queue, place, outside, pieces, command)?,
        })
    }

    /// Does a command that is there; gives the least rule that it breaks, if it breaks one.
    fn run(
        &mut self,
        queue: u32,
        place: Place,
        answers: &[u32],
        command: VkCommand,
    ) -> Result<Option<VkRule>, Memory>
        ensures rule { IfOk result (λ rule. rule ≡ rule_of_run (state_of self.old) queue place answers.now (Some command)) }
        ensures state { OnOk result (state_of self.new ≡ record (after_run (state_of self.old) queue place answers.now (Some command)) { broken = or_rule self.old.broken (rule_of_run (state_of self.old) queue place answers.now (Some command)) }) }
        ensures same { OnErr result (state_of self.new ≡ state_of self.old) }
    {
        let Run {
            rule,
            numbers,
            layouts,
            done,
            accesses,
        } = self.run_of(queue, place, answers, command)?;
        self.numbers = numbers;
        self.layouts = layouts;
        self.done = done;
        self.accesses = accesses;
        self.broken = first_rule(self.broken, rule);
        Ok(rule)
    }

    /// Does a command; gives the least rule that it breaks, if it breaks one. One that is not there does nothing.
    pub(crate) fn command(
        &mut self,
        queue: u32,
        number: u64,
        index: u64,
        loaded: &Seq<u32>,
    ) -> Result<Option<VkRule>, Memory>
        ensures rule { IfOk result (λ rule. rule ≡ rule_of (state_of self.old) (Command queue number index loaded.now)) }
        ensures state { OnOk result (state_of self.new ≡ after_step (state_of self.old) (Command queue number index loaded.now)) }
        ensures same { OnErr result (state_of self.new ≡ state_of self.old) }
    {
        let place = Place { number, index };
        match command_at(queue, place, self.progress.batches()) {
            None => {
                self.broken = first_rule(self.broken, None);
                Ok(None)
            }
            Some(command) => self.run(queue, place, loaded.as_slice(), command),
        }
    }
}
