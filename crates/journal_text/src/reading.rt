//! What was read of a journal so far.

ghost use Rattle.std.specs.Prelude.{◌≡◌, drop, map, OnOk};
ghost use Rattle.journal_text.specs.Reading.{and_then, commanded, opening, submitted, taken_of, with_form, with_item, with_words as with_the_words};
ghost use Rattle.journal_text.specs.Texts.{Leaves};

use crate::fault::LineFault;
use crate::item::Item;
use crate::names::{is_large, is_named};
use crate::step_lines::read_form;
use dx_base::{Memory, Seq};
use journal_words::{Form, LineClass, form_of};
use line_forms::Cause;
use std::alloc::Global;
use vk_types::{Batch, DevicePlan, VkCommand, VkStep};

/// A batch that is submitted when so many more commands came.
#[derive(Drop)]
pub(crate) struct OpenBatch {
    pub batch: Batch,
    pub left: u32,
}

/// What was read of a journal so far: what kind of line comes next, whether the end came, the objects of the device, the
/// steps, and a batch whose commands are still to come.
#[derive(Drop)]
pub(crate) struct Reading {
    pub due: LineClass,
    pub ended: bool,
    pub plan: DevicePlan,
    pub steps: Seq<VkStep>,
    pub batch: Option<OpenBatch>,
}

impl Reading {
    /// Nothing is read; takes no memory.
    pub(crate) fn new(alloc: Global) -> Reading
        ensures { result ≡ opening }
    {
        Reading {
            due: LineClass::Header,
            ended: false,
            plan: DevicePlan {
                buffers: Seq::new(alloc),
                images: Seq::new(alloc),
                heaps: Seq::new(alloc),
                views: Seq::new(alloc),
                queues: 0,
                timelines: 0,
            },
            steps: Seq::new(alloc),
            batch: None,
        }
    }

    /// Submits a batch, or leaves it open where more commands come.
    fn submit(&mut self, batch: Batch, left: u32) -> Result<(), Memory>
        ensures { OnOk result (self.new ≡ submitted self.old batch left) }
    {
        if left == 0 {
            self.due = LineClass::Step;
            self.batch = None;
            self.steps.push(VkStep::Submit(batch))
        } else {
            self.due = LineClass::Command;
            self.batch = Some(OpenBatch { batch, left });
            Ok(())
        }
    }

    /// Takes a command of the open batch.
    fn command(&mut self, command: VkCommand) -> Result<(), Memory>
        ensures { OnOk result (self.new ≡ commanded self.old self.old.batch command) }
    {
        match self.batch.take() {
            None => Ok(()),
            Some(open) => {
                let mut batch = open.batch;
                batch.commands.push(command)?;
                self.submit(batch, open.left.saturating_sub(1))
            }
        }
    }

    /// Takes what a line says.
    fn add(&mut self, item: Item) -> Result<(), Memory>
        ensures { OnOk result (self.new ≡ with_item self.old item) }
    {
        match item {
            Item::Header => {
                self.due = LineClass::Plan;
                Ok(())
            }
            Item::Buffer(buffer) => self.plan.buffers.push(buffer),
            Item::Image(image) => self.plan.images.push(image),
            Item::Heap(slots) => self.plan.heaps.push(slots),
            Item::View(view) => self.plan.views.push(view),
            Item::Queues(queues, timelines) => {
                self.due = LineClass::Step;
                self.plan.queues = queues;
                self.plan.timelines = timelines;
                Ok(())
            }
            Item::Submit(batch, commands) => self.submit(batch, commands),
            Item::Step(step) => self.steps.push(step),
            Item::Command(command) => self.command(command),
            Item::End => {
                self.ended = true;
                Ok(())
            }
        }
    }

    /// Takes what a line says, where no number of it is too large and each object that it names is there.
    #[tactic(auto, unfolding(crate::specs::Reading::taken_of))]
    fn take(&mut self, item: Item) -> Result<(), LineFault>
        ensures { Leaves result self.new (taken_of self.old item) }
    {
        if is_large(&item) {
            return Err(LineFault::Refused(Cause::Number));
        }
        if !is_named(&self.plan, &item) {
            return Err(LineFault::Refused(Cause::Name));
        }
        self.add(item)?;
        Ok(())
    }

    /// Takes what a line says, where it says something.
    fn take_said(&mut self, said: Result<Item, Cause>) -> Result<(), LineFault>
        ensures { Leaves result self.new (and_then said (taken_of self.old)) }
    {
        match said {
            Ok(item) => self.take(item),
            Err(cause) => Err(LineFault::Refused(cause)),
        }
    }

    /// Takes a line of a form.
    #[tactic(auto, unfolding(crate::specs::Reading::with_form))]
    fn take_form(&mut self, alloc: Global, form: Form, words: &[&[u8]]) -> Result<(), LineFault>
        ensures { Leaves result self.new (with_form self.old form (map (λ w. w.now) words.now)) }
    {
        if !form.class().is_same(self.due) {
            return Err(LineFault::Refused(Cause::Form));
        }
        let said = read_form(alloc, form, behind_first(words))?;
        self.take_said(said)
    }

    /// Takes a line of words.
    #[tactic(auto, unfolding(crate::specs::Reading::with_words))]
    pub(crate) fn take_words(&mut self, alloc: Global, words: &[&[u8]]) -> Result<(), LineFault>
        ensures { Leaves result self.new (with_the_words self.old (map (λ w. w.now) words.now)) }
    {
        match form_of(words) {
            None => Err(LineFault::Refused(Cause::Form)),
            Some(form) => self.take_form(alloc, form, words),
        }
    }
}

/// The words behind the first.
fn behind_first<'a, 'b>(words: &'b [&'a [u8]]) -> &'b [&'a [u8]]
    ensures { map (λ w. w.now) result.now ≡ drop 1 (map (λ w. w.now) words.now) }
{
    match words {
        [] => words,
        [_, words @ ..] => words,
    }
}
