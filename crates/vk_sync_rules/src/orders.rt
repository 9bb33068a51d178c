//! The order of the commands of one queue.

ghost use Rattle.std.specs.Prelude.{◌≡◌, false};
ghost use Rattle.vk_sync_rules.specs.Machines.{sort_in};
ghost use Rattle.vk_sync_rules.specs.Orders.{sort_of as sort, orders as does_order};

use vk_types::{Stages, VkCommand};

/// What a command is to the order: whether it is a barrier, the stages that it waits for, and those that wait for it.
#[derive(Clone, Copy, Debug, PartialEq, Eq)]
pub(crate) struct CommandSort {
    pub is_barrier: bool,
    pub takes: Stages,
    pub gives: Stages,
}

/// A command of a stage that is no barrier.
fn work(stage: Stages) -> CommandSort
    ensures { result ≡ record { is_barrier = false; takes = stage; gives = stage } }
{
    CommandSort {
        is_barrier: false,
        takes: stage,
        gives: stage,
    }
}

/// The sort of a command.
pub(crate) fn sort_of(command: VkCommand) -> CommandSort
    ensures sort { sort_in result ≡ sort command }
    ensures takes { result.takes ≡ (sort command).takes }
    ensures gives { result.gives ≡ (sort command).gives }
{
    match command {
        VkCommand::Barrier { from, to, .. } => CommandSort {
            is_barrier: true,
            takes: from,
            gives: to,
        },
        VkCommand::Copy { .. } => work(Stages::COPY),
        VkCommand::CopyImage { .. } => work(Stages::COPY),
        VkCommand::CopyIn { .. } => work(Stages::COPY),
        VkCommand::CopyOut { .. } => work(Stages::COPY),
        VkCommand::Clear { .. } => work(Stages::COMPUTE_SHADER),
        VkCommand::Dispatch { .. } => work(Stages::COMPUTE_SHADER),
    }
}

/// Whether a command of one sort has to be done before a later one of the other.
pub(crate) fn orders(first: CommandSort, later: CommandSort) -> bool
    ensures { result ≡ does_order (sort_in first) (sort_in later) }
{
    (first.is_barrier || later.is_barrier) && first.gives.meets(later.takes)
}
