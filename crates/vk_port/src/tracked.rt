//! An unfinished batch with what is left of each block of its commands, so that a search goes over whole blocks.

ghost use Rattle.std.specs.Prelude.{◌≡◌, true, ◌<◌, ◌==◌, ◌&&◌, length, min, slice_get, Some, IfOk};
ghost use Rattle.vk_port.specs.After.{started, with_done};
ghost use Rattle.vk_port.specs.Blocks.{AreBlocks, undone_in, block_of, behind_of, IsBehind};
ghost use Rattle.vk_port.specs.Enabled.{all_done};
ghost use Rattle.vk_port.specs.Fronts.{is_done_to, work_bits as bits_of_work};

use crate::ahead::Ahead;
use crate::fronts::{done_to, work_bits};
use crate::lanes::Running;
use dx_base::{Memory, Seq};
use std::alloc::Global;
use std::marker::Model;
use vk_types::{Batch, VkCommand};

/// How many commands a block has.
pub const BLOCK: usize = 32;

/// What is left of a block of commands.
#[derive(Clone, Copy, Debug, PartialEq, Eq)]
pub struct Block {
    /// Bits of a stage.
    pub stage: u32,
    /// How many of its commands are not done.
    pub left: usize,
    /// Whether each of those works in that stage.
    pub alike: bool,
}

/// Where a search goes on behind a block.
#[derive(Clone, Copy, Debug, PartialEq, Eq)]
pub struct Behind {
    /// What the commands that are not done hold back.
    pub ahead: Ahead,
    /// The place that is left of the one that is searched.
    pub left: usize,
}

/// The bits of the stage in which the first commands of a block work; none where it has only barriers.
fn stage_of(running: &Running, start: usize) -> u32 {
    let end = running
        .batch
        .commands
        .len()
        .min(start.saturating_add(BLOCK));
    for i in start..end {
        let bits = work_bits(*running.batch.commands.at(i));
        if 0 < bits {
            return bits;
        }
    }
    0
}

/// Whether some commands work in a stage, and one more does.
fn and_works(so_far: bool, command: VkCommand, stage: u32) -> bool
    ensures { result ≡ (so_far && (bits_of_work command == stage)) }
{
    so_far && work_bits(command) == stage
}

impl Block {
    /// What is left of the block that begins at a place, by the bits of a stage.
    fn counted(running: &Running, start: usize, stage: u32) -> Block
        ensures { result ≡ block_of stage (undone_in start running.now) }
    {
        let mut left = 0;
        let mut alike = 0 < stage;
        let count = running.batch.commands.len().min(running.done.len());
        for i in start..count.min(start.saturating_add(BLOCK)) {
            if *running.done.at(i) {
                continue;
            }
            left += 1;
            alike = and_works(alike, *running.batch.commands.at(i), stage);
        }
        Block { stage, left, alike }
    }

    /// Where a search goes on behind a block of which only commands of its stage are left; None where it ends in it.
    fn behind(self, ahead: Ahead, left: usize) -> Option<Behind>
        ensures { result ≡ behind_of self ahead left }
    {
        if self.left == 0 {
            return Some(Behind { ahead, left });
        }
        if ahead.to & self.stage != 0 {
            return Some(Behind {
                ahead: ahead.with_work(self.stage),
                left,
            });
        }
        if self.left <= left {
            return Some(Behind {
                ahead: ahead.with_work(self.stage),
                left: left - self.left,
            });
        }
        None
    }
}

/// An unfinished batch, and what is left of its blocks. Contracts see the batch.
#[derive(Debug, Drop)]
pub struct Tracked {
    running: Running,
    /// The place of the first command that is not done; those in front of it are.
    front: usize,
    blocks: Seq<Block>,
}

impl Model for Tracked {
    ghost use Rattle.vk_port.specs.declared.lanes.Running.{Running};
    ghost use Rattle.std.specs.Prelude.{◌≡◌, true};
    ghost use Rattle.vk_port.specs.Blocks.{AreBlocks};
    ghost use Rattle.vk_port.specs.Fronts.{is_done_to};

    ghost Value = { Running };

    ghost view = { λ it. it.running };

    ghost invariant = { λ it. (is_done_to it.front it.running ≡ true) × AreBlocks it.running it.blocks };
}

/// What is left of the blocks of a batch.
fn blocks_of(alloc: Global, running: &Running) -> Result<Seq<Block>, Memory>
    ensures { IfOk result (λ blocks. AreBlocks running.now blocks) }
{
    let mut blocks = Seq::new(alloc);
    for number in 0..running.done.len() / BLOCK + 1 {
        let start = number * BLOCK;
        let stage = stage_of(running, start);
        let block = Block::counted(running, start, stage);
        blocks.push(block)?;
    }
    Ok(blocks)
}

impl Tracked {
    /// A copy of a batch, of which no command is done.
    pub fn new(alloc: Global, batch: &Batch) -> Result<Tracked, Memory>
        ensures { IfOk result (λ running. running ≡ started batch.now) }
    {
        let running = Running::new(alloc, batch)?;
        let blocks = blocks_of(alloc, &running)?;
        Ok(Tracked {
            running,
            front: 0,
            blocks,
        })
    }

    /// The batch.
    pub fn running(&self) -> &Running
        ensures { result.now ≡ self.now }
    {
        &self.running
    }

    /// The number of the batch.
    pub fn number(&self) -> u64
        ensures { result ≡ self.now.batch.number }
    {
        self.running.batch.number
    }

    /// A place in front of which all commands are done.
    pub fn front(&self) -> usize
        ensures { is_done_to result self.now ≡ true }
    {
        self.front
    }

    /// How many commands have a mark.
    pub fn count(&self) -> usize
        ensures { result ≡ min (length self.now.batch.commands) (length self.now.done) }
    {
        self.running
            .batch
            .commands
            .len()
            .min(self.running.done.len())
    }

    /// The command at a place, counted from 0.
    pub fn command(&self, at: usize) -> VkCommand
        requires { at < length self.now.batch.commands }
        ensures { slice_get self.now.batch.commands at ≡ Some result }
    {
        *self.running.batch.commands.at(at)
    }

    /// Whether the command at a place is done.
    pub fn is_done(&self, at: usize) -> bool
        requires { at < length self.now.done }
        ensures { slice_get self.now.done at ≡ Some result }
    {
        *self.running.done.at(at)
    }

    /// Whether all commands are done. Those in front are not looked at.
    pub fn is_all_done(&self) -> bool
        ensures { result ≡ all_done self.now }
    {
        for i in self.front..self.running.done.len() {
            if !*self.running.done.at(i) {
                return false;
            }
        }
        true
    }

    /// Marks the command of that place, counted from 1, as done.
    pub fn mark(&mut self, place: u64)
        ensures { self.new ≡ with_done place self.old }
    {
        self.running.mark(place);
        self.front = done_to(&self.running, self.front);
        let at = place.saturating_sub(1) as usize;
        let number = at / BLOCK;
        if number < self.blocks.len() {
            let stage = self.blocks.at(number).stage;
            *self.blocks.at_mut(number) = Block::counted(&self.running, number * BLOCK, stage);
        }
    }

    /// Where a search goes on behind the block that begins at a place; None where it has to look at its commands.
    pub fn behind_block(&self, at: usize, ahead: Ahead, left: usize) -> Option<Behind>
        ensures { IsBehind self.now at ahead left result }
    {
        if at % BLOCK != 0 {
            return None;
        }
        // So that there is a place behind the block.
        if usize::MAX - BLOCK < at {
            return None;
        }
        match self.blocks.get(at / BLOCK) {
            None => None,
            Some(block) => {
                if block.alike {
                    block.behind(ahead, left)
                } else {
                    None
                }
            }
        }
    }
}
