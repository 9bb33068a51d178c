//! What syncs, accesses, layouts and states become on the device.

ghost use Rattle.std.specs.Prelude.{◌≡◌};
ghost use Rattle.lower_tables.specs.Stages.{stage_of};
ghost use Rattle.lower_tables.specs.Accesses.{access_of};
ghost use Rattle.lower_tables.specs.Layouts.{layout_of};
ghost use Rattle.lower_tables.specs.States.{state_of, state_stages, state_accesses};

use crate::unions::union_of;
use dx_flags::{Access, Layout, State, Sync};
use vk_types::{Accesses, Stages, VkLayout};

/// Rows of a name's bit and the bits of all that it becomes.
macro_rules! rows {
    ($($name:expr => [$($one:expr),*];)*) => {
        [$(($name.0, 0 $(| $one.0)*)),*]
    };
}

/// The stages of a set of syncs: those of its syncs together. NONE becomes all commands, so that a change of
/// layout is chained to the barriers before and behind it (Vulkan 1.3, 7.1.2).
#[tactic(auto, unfolding(crate::specs::Stages::stage_of, dx_flags::specs::Syncs::sync_has))]
pub fn stage_of(sync: Sync) -> Stages
    ensures { result ≡ stage_of sync }
{
    let rows: [(u32, u32); 7] = rows![
        Sync::NONE => [Stages::ALL_COMMANDS];
        Sync::ALL => [Stages::ALL_COMMANDS];
        Sync::COMPUTE_SHADING => [Stages::COMPUTE_SHADER];
        Sync::ALL_SHADING => [Stages::COMPUTE_SHADER];
        Sync::NON_PIXEL_SHADING => [Stages::COMPUTE_SHADER];
        Sync::COPY => [Stages::COPY];
        Sync::CLEAR_UNORDERED_ACCESS_VIEW => [Stages::COMPUTE_SHADER];
    ];
    Stages(union_of(&rows, sync.0))
}

/// The memory accesses of a set of accesses: those of its accesses together (Vulkan 1.3, 7.1.3).
#[tactic(auto, unfolding(crate::specs::Accesses::access_of, dx_flags::specs::Accesses::access_has))]
pub fn access_of(access: Access) -> Accesses
    ensures { result ≡ access_of access }
{
    let rows: [(u32, u32); 7] = rows![
        Access::UNORDERED_ACCESS => [Accesses::SHADER_STORAGE_READ, Accesses::SHADER_STORAGE_WRITE];
        Access::SHADER_RESOURCE => [Accesses::SHADER_READ];
        Access::CONSTANT_BUFFER => [Accesses::UNIFORM_READ];
        Access::COPY_SOURCE => [Accesses::TRANSFER_READ];
        Access::COPY_DEST => [Accesses::TRANSFER_WRITE];
        Access::COMMON => [Accesses::MEMORY_READ, Accesses::MEMORY_WRITE];
        Access::NO_ACCESS => [];
    ];
    Accesses(union_of(&rows, access.0))
}

/// The layout of an image for a texture's (Vulkan 1.3, 12.4).
pub fn layout_of(layout: Layout) -> VkLayout
    ensures { result ≡ layout_of layout }
{
    match layout {
        Layout::Undefined => VkLayout::Undefined,
        Layout::Common | Layout::GenericRead | Layout::UnorderedAccess => VkLayout::General,
        Layout::ShaderResource => VkLayout::ShaderReadOnlyOptimal,
        Layout::CopySource => VkLayout::TransferSrcOptimal,
        Layout::CopyDest => VkLayout::TransferDstOptimal,
    }
}

/// The stages and the memory accesses of a side of a barrier that stands for a state: those of its states
/// together.
pub fn state_of(state: State) -> (Stages, Accesses)
    ensures { result ≡ state_of state }
{
    (state_stages(state), state_accesses(state))
}

/// The stages of a union of states.
#[tactic(auto, unfolding(crate::specs::States::state_stages, dx_flags::specs::States::state_has))]
fn state_stages(state: State) -> Stages
    ensures { result ≡ state_stages state }
{
    let rows: [(u32, u32); 7] = rows![
        State::COMMON => [Stages::ALL_COMMANDS];
        State::VERTEX_AND_CONSTANT_BUFFER => [Stages::COMPUTE_SHADER];
        State::NON_PIXEL_SHADER_RESOURCE => [Stages::COMPUTE_SHADER];
        State::PIXEL_SHADER_RESOURCE => [Stages::COMPUTE_SHADER];
        State::COPY_SOURCE => [Stages::COPY];
        State::COPY_DEST => [Stages::COPY];
        State::UNORDERED_ACCESS => [Stages::COMPUTE_SHADER];
    ];
    Stages(union_of(&rows, state.0))
}

/// The memory accesses of a union of states.
#[tactic(auto, unfolding(crate::specs::States::state_accesses, dx_flags::specs::States::state_has))]
fn state_accesses(state: State) -> Accesses
    ensures { result ≡ state_accesses state }
{
    let rows: [(u32, u32); 7] = rows![
        State::COMMON => [Accesses::MEMORY_READ, Accesses::MEMORY_WRITE];
        State::VERTEX_AND_CONSTANT_BUFFER => [Accesses::UNIFORM_READ];
        State::NON_PIXEL_SHADER_RESOURCE => [Accesses::SHADER_READ];
        State::PIXEL_SHADER_RESOURCE => [Accesses::SHADER_READ];
        State::COPY_SOURCE => [Accesses::TRANSFER_READ];
        State::COPY_DEST => [Accesses::TRANSFER_WRITE];
        State::UNORDERED_ACCESS => [Accesses::SHADER_STORAGE_READ, Accesses::SHADER_STORAGE_WRITE];
    ];
    Accesses(union_of(&rows, state.0))
}
