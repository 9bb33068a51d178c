//! The batches of queues, and how far they have come.

ghost use Rattle.std.specs.Prelude.{◌≡◌, slice_index_or};
ghost use Rattle.std.specs.Option.{option_copied};
ghost use Rattle.std.specs.List.{list_all};
ghost use Rattle.vk_sync_rules.specs.EnabledSteps.{is_running as is_running_by, lets as does_let, all_done as is_each_done};
ghost use Rattle.vk_sync_rules.specs.VkState.{no_counts, batch_in as batch_of, nth_command as command_nth, command_in as command_of, placed_from, placed, is_done as is_done_by};

use crate::counts::{Counts, Done};
use crate::orders::{orders, sort_of};
use crate::places::Place;
use dx_base::Seq;
use vk_types::{Batch, VkCommand};

/// The counts of a queue; zeros for one that is not there.
pub(crate) fn counts_of(queues: &Seq<Counts>, queue: u32) -> Counts
    ensures { result ≡ slice_index_or queues.now queue no_counts }
{
    let queues = queues.as_slice();
    if (queue as usize) < queues.len() {
        queues[queue as usize]
    } else {
        Counts {
            submitted: 0,
            passed: 0,
            ended: 0,
        }
    }
}

/// Whether a batch has passed and has not ended.
pub(crate) fn is_running(counts: Counts, number: u64) -> bool
    ensures { result ≡ is_running_by counts number }
{
    counts.ended <= number && number < counts.passed
}

/// The batch of a queue with a number; the first, if there are some.
pub(crate) fn batch_in(queue: u32, number: u64, journal: &[Batch]) -> Option<&Batch>
    ensures { option_copied result ≡ batch_of queue number journal.now }
{
    for batch in journal {
        if batch.queue == queue && batch.number == number {
            return Some(batch);
        }
    }
    None
}

/// The command at a place of a batch, counted from 1.
fn nth_command(commands: &Seq<VkCommand>, index: u64) -> Option<VkCommand>
    ensures { result ≡ command_nth commands.now index }
{
    if index == 0 {
        return None;
    }
    commands.get((index - 1) as usize).copied()
}

/// The command at a place of a queue.
pub(crate) fn command_at(queue: u32, place: Place, journal: &[Batch]) -> Option<VkCommand>
    ensures { result ≡ command_of (batch_of queue place.number journal.now) place.index }
{
    match batch_in(queue, place.number, journal) {
        None => None,
        Some(batch) => nth_command(&batch.commands, place.index),
    }
}

/// Whether a command is done.
pub(crate) fn is_done(done: &[Done], queue: u32, place: Place) -> bool
    ensures { result ≡ is_done_by done.now queue place }
{
    done.iter()
        .any(|one| one.queue == queue && one.place.is_at(place))
}

/// Whether an earlier command is done, or need not be before this one.
fn lets(
    done: &[Done],
    queue: u32,
    place: Place,
    command: VkCommand,
    earlier: Place,
    first: VkCommand,
) -> bool
    ensures { result ≡ does_let done.now queue place command (record { place = earlier; command = first }) }
{
    !(earlier.is_before(place) && orders(sort_of(first), sort_of(command)))
        || is_done(done, queue, earlier)
}

/// Whether each command of a batch lets a command be done.
fn batch_lets(done: &[Done], queue: u32, place: Place, command: VkCommand, batch: &Batch) -> bool
    ensures { result ≡ list_all (does_let done.now queue place command) (placed_from batch.now.number 1 batch.now.commands) }
{
    for i in 0..batch.commands.len() {
        let earlier = Place {
            number: batch.number,
            index: i as u64 + 1,
        };
        if !lets(done, queue, place, command, earlier, *batch.commands.at(i)) {
            return false;
        }
    }
    true
}

/// Whether each earlier command of the queue lets a command be done.
pub(crate) fn is_free(
    done: &[Done],
    journal: &[Batch],
    queue: u32,
    place: Place,
    command: VkCommand,
) -> bool
    ensures { result ≡ list_all (does_let done.now queue place command) (placed queue journal.now) }
{
    for batch in journal {
        if batch.queue == queue && !batch_lets(done, queue, place, command, batch) {
            return false;
        }
    }
    true
}

/// Whether all commands of a batch are done.
pub(crate) fn are_done(done: &[Done], queue: u32, number: u64, commands: &Seq<VkCommand>) -> bool
    ensures { result ≡ is_each_done done.now queue (placed_from number 1 commands.now) }
{
    for i in 0..commands.len() {
        let place = Place {
            number,
            index: i as u64 + 1,
        };
        if !is_done(done, queue, place) {
            return false;
        }
    }
    true
}
