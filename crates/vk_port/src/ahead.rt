//! What the commands that are not done hold back.

ghost use Rattle.std.specs.Prelude.{◌≡◌, true, bit_or};
ghost use Rattle.vk_port.specs.Ahead.{no_ahead, with_stages, with_command, lets_stages, lets, summary};
ghost use Rattle.vk_port.specs.DeviceStages.{is_closed, is_of_device as does_wait};
ghost use Rattle.vk_port.specs.Enabled.{undone};
ghost use Rattle.vk_port.specs.Fronts.{is_done_to};

use crate::tracked::{BLOCK, Tracked};
use vk_types::{Stages, VkCommand};

/// What some commands that are not done hold back, as bits of stages.
#[derive(Clone, Copy, Debug, PartialEq, Eq)]
pub struct Ahead {
    /// The destination stages of their barriers.
    pub to: u32,
    /// The stages of those that are no barriers.
    pub by: u32,
}

impl Ahead {
    /// No commands.
    pub fn none() -> Ahead
        ensures { result ≡ no_ahead }
    {
        Ahead { to: 0, by: 0 }
    }

    /// One more command.
    pub fn with(self, command: VkCommand) -> Ahead
        ensures { result ≡ with_command self command }
    {
        match command {
            VkCommand::Barrier { to, .. } => Ahead {
                to: self.to | to.whole(),
                by: self.by,
            },
            VkCommand::Copy { .. } => self.with_stages(Stages::COPY),
            VkCommand::CopyImage { .. } => self.with_stages(Stages::COPY),
            VkCommand::CopyIn { .. } => self.with_stages(Stages::COPY),
            VkCommand::CopyOut { .. } => self.with_stages(Stages::COPY),
            VkCommand::Clear { .. } => self.with_stages(Stages::COMPUTE_SHADER),
            VkCommand::Dispatch { .. } => self.with_stages(Stages::COMPUTE_SHADER),
        }
    }

    /// One more command that is no barrier, of these stages.
    fn with_stages(self, stages: Stages) -> Ahead
        ensures { result ≡ with_stages self stages }
    {
        Ahead {
            to: self.to,
            by: self.by | stages.whole(),
        }
    }

    /// More commands that work in a stage of these bits.
    pub fn with_work(self, bits: u32) -> Ahead
        ensures { result ≡ record self { by = bit_or self.by bits } }
    {
        Ahead {
            to: self.to,
            by: self.by | bits,
        }
    }

    /// Whether the commands let a later one run.
    pub fn lets(self, command: VkCommand) -> bool
        ensures { result ≡ lets self command }
    {
        match command {
            VkCommand::Barrier { from, .. } => (self.to | self.by) & from.whole() == 0,
            VkCommand::Copy { .. } => self.lets_stages(Stages::COPY),
            VkCommand::CopyImage { .. } => self.lets_stages(Stages::COPY),
            VkCommand::CopyIn { .. } => self.lets_stages(Stages::COPY),
            VkCommand::CopyOut { .. } => self.lets_stages(Stages::COPY),
            VkCommand::Clear { .. } => self.lets_stages(Stages::COMPUTE_SHADER),
            VkCommand::Dispatch { .. } => self.lets_stages(Stages::COMPUTE_SHADER),
        }
    }

    /// Whether the commands let a later one run that is no barrier, of these stages.
    fn lets_stages(self, stages: Stages) -> bool
        ensures { result ≡ lets_stages self stages }
    {
        self.to & stages.whole() == 0
    }

    /// Whether they hold back each stage of the device: a barrier with all of them behind it is among them.
    pub fn is_closed(self) -> bool
        ensures { result ≡ is_closed self }
    {
        self.to & 7 == 7
    }

    /// The commands of a batch that are not done, too. Those in front of the place `from` are.
    pub fn with_undone(self, running: &Tracked, from: usize) -> Ahead
        requires { is_done_to from running.now ≡ true }
        ensures { result ≡ summary self (undone running.now) }
    {
        let mut ahead = self;
        let mut i = from;
        let count = running.count();
        while i < count {
            if let Some(behind) = running.behind_block(i, ahead, usize::MAX) {
                i += BLOCK;
                ahead = behind.ahead;
                continue;
            }
            if running.is_done(i) {
                i += 1;
                continue;
            }
            let command = running.command(i);
            ahead = ahead.with(command);
            i += 1;
        }
        ahead
    }
}

/// Whether a command works at, or waits for, a stage of the device.
pub fn is_of_device(command: &VkCommand) -> bool
    ensures { result ≡ does_wait command.now }
{
    match *command {
        VkCommand::Barrier { from, .. } => from.whole() & 7 != 0,
        VkCommand::Copy { .. } => true,
        VkCommand::CopyImage { .. } => true,
        VkCommand::CopyIn { .. } => true,
        VkCommand::CopyOut { .. } => true,
        VkCommand::Clear { .. } => true,
        VkCommand::Dispatch { .. } => true,
    }
}
