//! The words of buffers.

ghost use Rattle.std.specs.Prelude.{◌≡◌, [], map, slice_index_or, IfOk, OnOk, OnErr};
ghost use Rattle.dx_base.specs.Lists.{changed_at};
ghost use Rattle.vk_port.specs.After.{put, range_of, after_command, after_found};
ghost use Rattle.vk_port.specs.Words.{first_words as words_at_first};

use dx_base::{Memory, Seq};
use std::alloc::Global;
use vk_types::{DevicePlan, PlanBuffer, VkCommand};

/// Writes words into a buffer from the word `first` on; what would lie past its end is left out.
fn put_words(words: &mut Seq<u32>, first: u32, new: &[u32])
    ensures { words.new ≡ put first new.now words.old }
{
    let start = (first as usize).min(words.len());
    let count = new.len().min(words.len() - start);
    words.as_mut_slice()[start..start + count].copy_from_slice(&new[..count]);
}

/// Writes words into one of some buffers; into none, where it is not there.
pub fn put_at(buffers: &mut Seq<Seq<u32>>, buffer: u32, first: u32, new: &[u32])
    ensures { buffers.new ≡ changed_at (put first new.now) buffer buffers.old }
{
    if (buffer as usize) < buffers.len() {
        put_words(buffers.at_mut(buffer as usize), first, new);
    }
}

/// A copy of words of a buffer from the word `first` on, as far as there are.
fn copy_of(alloc: Global, words: &Seq<u32>, first: u32, count: u32) -> Result<Vec<u32>, Memory>
    ensures { IfOk result (λ copy. copy.items ≡ range_of first count words.now) }
{
    let (_, rest) = words.as_slice().split_at((first as usize).min(words.len()));
    let (chosen, _) = rest.split_at((count as usize).min(rest.len()));
    let copy = Vec::from_slice(alloc, chosen)?;
    Ok(copy)
}

/// A copy of words of one of some buffers; of none, where it is not there.
pub fn copy_at(
    alloc: Global,
    buffers: &Seq<Seq<u32>>,
    buffer: u32,
    first: u32,
    count: u32,
) -> Result<Vec<u32>, Memory>
    ensures { IfOk result (λ copy. copy.items ≡ range_of first count (slice_index_or buffers.now buffer [])) }
{
    if (buffer as usize) < buffers.len() {
        copy_of(alloc, buffers.at(buffer as usize), first, count)
    } else {
        Ok(Vec::new(alloc))
    }
}

/// Does a command.
fn run_command(alloc: Global, buffers: &mut Seq<Seq<u32>>, command: VkCommand) -> Result<(), Memory>
    ensures ok { OnOk result (buffers.new ≡ after_command command buffers.old) }
    ensures same { OnErr result (buffers.new ≡ buffers.old) }
{
    match command {
        VkCommand::Barrier { .. } => Ok(()),
        VkCommand::Copy {
            to,
            to_first,
            from,
            from_first,
            words,
        } => {
            let chosen = copy_at(alloc, buffers, from, from_first, words)?;
            put_at(buffers, to, to_first, chosen.as_slice());
            Ok(())
        }
        // No device is given one of these yet.
        VkCommand::CopyImage { .. } => Ok(()),
        VkCommand::CopyIn { .. } => Ok(()),
        VkCommand::CopyOut { .. } => Ok(()),
        VkCommand::Clear { .. } => Ok(()),
        VkCommand::Dispatch { .. } => Ok(()),
    }
}

/// Does a command, if there is one.
pub fn run_found(
    alloc: Global,
    buffers: &mut Seq<Seq<u32>>,
    command: Option<VkCommand>,
) -> Result<(), Memory>
    ensures ok { OnOk result (buffers.new ≡ after_found command buffers.old) }
    ensures same { OnErr result (buffers.new ≡ buffers.old) }
{
    match command {
        None => Ok(()),
        Some(command) => run_command(alloc, buffers, command),
    }
}

/// The words of a buffer at first.
fn zeros(alloc: Global, buffer: PlanBuffer) -> Result<Seq<u32>, Memory>
    ensures { IfOk result (λ words. words ≡ words_at_first buffer) }
{
    let words = vec![in alloc; 0; buffer.words as usize]?;
    Ok(Seq::from_vec(words))
}

/// The words of the buffers of a plan at first.
pub fn first_words(alloc: Global, plan: &DevicePlan) -> Result<Seq<Seq<u32>>, Memory>
    ensures { IfOk result (λ words. words ≡ map words_at_first plan.now.buffers) }
{
    let mut words = Seq::new(alloc);
    for i in 0..plan.buffers.len() {
        words.push(zeros(alloc, *plan.buffers.at(i))?)?;
    }
    Ok(words)
}
