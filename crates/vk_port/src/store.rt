//! What a plain device stores.

ghost use Rattle.std.specs.Prelude.{◌≡◌, ◌<◌, ◌&&◌, [], length, map, true, IfOk, OnOk, OnErr};
ghost use Rattle.vk_port.specs.DeviceStages.{batch_of_device, lanes_of_device};
ghost use Rattle.vk_port.specs.Fronts.{are_fronts, ready_steps, count_of};
ghost use Rattle.vk_port.specs.Valid.{AreValidLanes};
ghost use Rattle.vk_sync_rules.specs.Progress.{journal_of};

use crate::find::{count_behind, count_steps, find_step};
use crate::found::Found;
use crate::fronts::{self, Front};
use crate::lanes::Lane;
use crate::queues;
use crate::steps::Stepped;
use crate::tracked::Tracked;
use crate::words::{first_words, put_at, run_found};
use dx_base::{Memory, Seq};
use std::alloc::Global;
use vk_sync_rules::Progress;
use vk_types::{Batch, DevicePlan, set_timelines};

/// The words of the buffers, and how far the work of queues has come: of each queue the unfinished batches are kept.
#[derive(Drop)]
pub struct Store {
    pub words: Seq<Seq<u32>>,
    pub progress: Progress<Lane>,
    /// How many queues there are.
    pub queues: u32,
    /// Whether each command so far waits for a stage of the device. It is asked once, when a batch comes.
    pub of_device: bool,
    /// How far the commands of each lane are done without a gap.
    pub fronts: Seq<Front>,
    /// How many steps can be taken; the last `usize`, where there are more.
    pub ready: usize,
    ghost counted: { length progress.lanes ≡ queues },
    ghost each: { length fronts ≡ queues },
    ghost done: { are_fronts fronts progress.lanes ≡ true },
    ghost valid: { ∥ AreValidLanes (journal_of progress) progress.lanes ∥₁ },
    ghost ready_is: { ready ≡ count_of (ready_steps progress.timelines progress.lanes) },
    ghost known: { of_device ≡ true → lanes_of_device progress.lanes ≡ true },
}

/// Whether each command so far waits for a stage of the device, and each of a batch.
fn all_of_device(so_far: bool, running: &Tracked) -> bool
    ensures { result ≡ (so_far && batch_of_device running.now) }
{
    so_far && running.running().is_of_device()
}

impl Store {
    ghost use Rattle.vk_port.specs.After.{after_step, after_submit, put};
    ghost use Rattle.vk_port.specs.Words.{words_after, first_words as words_at_first};
    ghost use Rattle.dx_base.specs.Lists.{changed_at};
    ghost use Rattle.vk_port.specs.Enabled.{enabled_steps};
    ghost use Rattle.vk_port.specs.Meaning.{IsEnabled, IsPass, IsCommand, IsBump};
    ghost use Rattle.vk_port.specs.Journal.{next_number};
    ghost use Rattle.vk_port.specs.Found.{found};
    ghost use Rattle.vk_port.specs.Machine.{shown};
    ghost use Rattle.vk_port.specs.Seen.{no_machine};
    ghost use Rattle.vk_port.specs.Stored.{state_of};
    ghost use Rattle.vk_port.specs.VkState.{first_state};
    ghost use Rattle.vk_port.specs.declared.steps.Stepped.TheVariants.{Passed, Ran, Bumped};

    /// No objects.
    pub fn empty(alloc: Global) -> Store
        ensures state { state_of result ≡ shown no_machine }
        ensures words { result.words ≡ [] }
        ensures queues { result.queues ≡ 0 }
    {
        Store {
            words: Seq::new(alloc),
            progress: Progress::empty(alloc),
            queues: 0,
            of_device: true,
            fronts: Seq::new(alloc),
            ready: 0,
        }
    }

    /// The objects of a plan.
    pub fn new(alloc: Global, plan: &DevicePlan) -> Result<Store, Memory>
        ensures state { IfOk result (λ store. state_of store ≡ first_state plan.now) }
        ensures words { IfOk result (λ store. store.words ≡ map words_at_first plan.now.buffers) }
        ensures queues { IfOk result (λ store. store.queues ≡ plan.now.queues) }
    {
        Ok(Store {
            words: first_words(alloc, plan)?,
            progress: Progress::new(
                alloc,
                plan.timelines,
                queues::first_lanes(alloc, plan.queues)?,
            )?,
            queues: plan.queues,
            of_device: true,
            fronts: fronts::first_fronts(alloc, plan.queues)?,
            ready: 0,
        })
    }

    /// Searches the step at a place among those that can be taken.
    pub fn find(&self, k: usize) -> Found
        ensures { result ≡ found (enabled_steps (state_of self.now)) k }
    {
        find_step(
            &self.progress.timelines,
            &self.progress.lanes,
            &self.fronts,
            self.queues,
            self.of_device,
            k,
        )
    }

    /// Takes a batch, which has the next number of its queue.
    #[tactic(auto, using(crate::proofs::Lists::length_changed))]
    pub fn submit(&mut self, alloc: Global, batch: Batch) -> Result<(), Memory>
        requires queue { batch.queue < self.old.queues }
        requires number { batch.number ≡ next_number batch.queue (journal_of self.old.progress) }
        ensures ok { OnOk result (state_of self.new ≡ after_submit (state_of self.old) batch) }
        ensures same { OnErr result (state_of self.new ≡ state_of self.old) }
        ensures words { self.new.words ≡ self.old.words }
        ensures queues { self.new.queues ≡ self.old.queues }
    {
        let running = Tracked::new(alloc, &batch)?;
        let of_device = all_of_device(self.of_device, &running);
        self.progress.reserve()?;
        let queue = batch.queue;
        queues::add(&mut self.progress.lanes, queue, running)?;
        fronts::advance(&mut self.fronts, &self.progress.lanes, queue);
        self.of_device = of_device;
        self.progress.submit(batch);
        self.ready = count_steps(
            &self.progress.timelines,
            &self.progress.lanes,
            &self.fronts,
            self.queues,
            self.of_device,
        );
        Ok(())
    }

    /// Takes a step that can be taken.
    pub fn take(&mut self, alloc: Global, step: Stepped) -> Result<(), Memory>
        requires { IsEnabled (state_of self.old) step }
        ensures ok { OnOk result (state_of self.new ≡ after_step (state_of self.old) step) }
        ensures words { OnOk result (self.new.words ≡ words_after (state_of self.old) step self.old.words) }
        ensures same { OnErr result (state_of self.new ≡ state_of self.old) }
        ensures same_words { OnErr result (self.new.words ≡ self.old.words) }
        ensures queues { self.new.queues ≡ self.old.queues }
    {
        match step {
            Stepped::Passed(queue, number) => self.pass(queue, number),
            Stepped::Ran(queue, number, place) => self.run(alloc, queue, number, place)?,
            Stepped::Bumped(queue, number) => self.bump(queue, number),
            Stepped::Free => (),
        }
        Ok(())
    }

    /// A batch passes.
    #[tactic(auto, using(crate::proofs::Lists::length_changed))]
    fn pass(&mut self, queue: u32, _number: u64)
        requires { IsPass (state_of self.old) queue _number }
        ensures state { state_of self.new ≡ after_step (state_of self.old) (Passed queue _number) }
        ensures words { self.new.words ≡ self.old.words }
        ensures queues { self.new.queues ≡ self.old.queues }
    {
        queues::pass(&mut self.progress.lanes, queue);
        self.ready = count_steps(
            &self.progress.timelines,
            &self.progress.lanes,
            &self.fronts,
            self.queues,
            self.of_device,
        );
    }

    /// Does one command. Where one that works alike is left in front, no other step comes or goes.
    #[tactic(auto, using(crate::proofs::Lists::length_changed))]
    fn run(&mut self, alloc: Global, queue: u32, number: u64, place: u64) -> Result<(), Memory>
        requires { IsCommand (state_of self.old) queue number place }
        ensures ok { OnOk result (state_of self.new ≡ after_step (state_of self.old) (Ran queue number place)) }
        ensures words { OnOk result (self.new.words ≡ words_after (state_of self.old) (Ran queue number place) self.old.words) }
        ensures same { OnErr result (state_of self.new ≡ state_of self.old) }
        ensures same_words { OnErr result (self.new.words ≡ self.old.words) }
        ensures queues { self.new.queues ≡ self.old.queues }
    {
        let command = queues::command_of(&self.progress.lanes, queue, number, place);
        run_found(alloc, &mut self.words, command)?;
        queues::mark(&mut self.progress.lanes, queue, number, place);
        fronts::advance(&mut self.fronts, &self.progress.lanes, queue);
        let front = *self.fronts.at(queue as usize);
        let alike = front.has_alike(self.progress.lanes.at(queue as usize), number, command);
        self.ready = count_behind(
            &self.progress.timelines,
            &self.progress.lanes,
            &self.fronts,
            self.queues,
            self.of_device,
            self.ready,
            alike,
        );
        Ok(())
    }

    /// Ends the first batch of a queue.
    #[tactic(auto, using(crate::proofs::Lists::length_changed))]
    fn bump(&mut self, queue: u32, _number: u64)
        requires { IsBump (state_of self.old) queue _number }
        ensures state { state_of self.new ≡ after_step (state_of self.old) (Bumped queue _number) }
        ensures words { self.new.words ≡ self.old.words }
        ensures queues { self.new.queues ≡ self.old.queues }
    {
        set_timelines(
            &mut self.progress.timelines,
            &self
                .progress
                .lanes
                .at(queue as usize)
                .batches
                .at(0)
                .batch
                .sets,
        );
        fronts::bump(&mut self.fronts, &self.progress.lanes, queue);
        queues::bump(&mut self.progress.lanes, queue);
        self.ready = count_steps(
            &self.progress.timelines,
            &self.progress.lanes,
            &self.fronts,
            self.queues,
            self.of_device,
        );
    }

    /// Writes words of the host.
    pub fn write(&mut self, buffer: u32, first: u32, words: &[u32])
        ensures state { state_of self.new ≡ state_of self.old }
        ensures words { self.new.words ≡ changed_at (put first words.now) buffer self.old.words }
        ensures queues { self.new.queues ≡ self.old.queues }
    {
        put_at(&mut self.words, buffer, first, words);
    }
}
