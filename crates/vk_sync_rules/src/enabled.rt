//! The steps that the Vulkan machine can take.

ghost use Rattle.std.specs.Prelude.{◌≡◌};
ghost use Rattle.vk_sync_rules.specs.EnabledSteps.{can_run as may_run, is_enabled};
ghost use Rattle.vk_sync_rules.specs.Machines.{state_of};
ghost use Rattle.vk_types.specs.declared.steps.VkStep.TheVariants.{Pass, Command, Bump};

use crate::journal::{are_done, batch_in, command_at, counts_of, is_done, is_free, is_running};
use crate::machine::VkMachine;
use crate::places::Place;
use crate::slots::slots_of;
use dx_base::Seq;
use vk_types::{VkCommand, VkStep};

impl VkMachine {
    /// Whether a batch can pass.
    fn can_pass(&self, queue: u32, number: u64) -> bool
        ensures { result ≡ is_enabled (state_of self.now) (Pass queue number) }
    {
        let is_next = number == counts_of(&self.progress.lanes, queue).passed;
        match batch_in(queue, number, self.progress.batches()) {
            None => false,
            Some(batch) => is_next && self.progress.reaches(&batch.waits),
        }
    }

    /// Whether a command can be done, if it is there.
    fn can_run(
        &self,
        queue: u32,
        place: Place,
        loaded: &Seq<u32>,
        command: Option<VkCommand>,
    ) -> bool
        ensures { result ≡ may_run (state_of self.now) queue place loaded.now command }
    {
        match command {
            None => false,
            Some(command) => {
                let journal = self.progress.batches();
                loaded.len() == slots_of(command).count()
                    && is_free(self.done.as_slice(), journal, queue, place, command)
            }
        }
    }

    /// Whether the command at a place can be done with these answers of the slots that it loads.
    fn can_do(&self, queue: u32, number: u64, index: u64, loaded: &Seq<u32>) -> bool
        ensures { result ≡ is_enabled (state_of self.now) (Command queue number index loaded.now) }
    {
        let place = Place { number, index };
        is_running(counts_of(&self.progress.lanes, queue), number)
            && (!is_done(self.done.as_slice(), queue, place)
                && self.can_run(
                    queue,
                    place,
                    loaded,
                    command_at(queue, place, self.progress.batches()),
                ))
    }

    /// Whether a batch can end.
    fn can_end(&self, queue: u32, number: u64) -> bool
        ensures { result ≡ is_enabled (state_of self.now) (Bump queue number) }
    {
        let counts = counts_of(&self.progress.lanes, queue);
        let is_next = number == counts.ended && number < counts.passed;
        match batch_in(queue, number, self.progress.batches()) {
            None => false,
            Some(batch) => is_next
                && are_done(self.done.as_slice(), queue, number, &batch.commands),
        }
    }

    /// Whether a step can be taken. A submission, a host access and an update always can. A pass, where the batch is the
    /// next of its queue and each of its waits has its value reached. A command, where its batch has passed and not ended, it
    /// is not done, each earlier command that it has to wait for is done, and it has an answer for each slot that it loads. An
    /// end, where the batch is the next to end, has passed, and all its commands are done.
    pub fn can(&self, step: &VkStep) -> bool
        ensures { result ≡ is_enabled (state_of self.now) step.now }
    {
        match step {
            VkStep::Submit(_) => true,
            VkStep::Pass { queue, number } => self.can_pass(*queue, *number),
            VkStep::Command {
                queue,
                number,
                place,
                loaded,
            } => { self.can_do(*queue, *number, *place, loaded) }
            VkStep::Bump { queue, number } => self.can_end(*queue, *number),
            VkStep::HostWrite { .. } => true,
            VkStep::HostRead { .. } => true,
            VkStep::Update { .. } => true,
        }
    }
}
