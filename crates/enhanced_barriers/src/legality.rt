//! Which barriers are legal.

ghost use Rattle.std.specs.Prelude.{◌≡◌};
ghost use Rattle.enhanced_barriers.specs.Legal.{is_legal, is_side, suits_list, is_copy_side, are_copy_syncs, are_copy_accesses, is_copy_layout, suits_layouts, layout_takes};

use crate::barriers::{Barrier, Scope};
use bitflags::Flags;
use dx_base::ListType;
use dx_flags::{Access, Layout, Sync, allowed, fits};

/// Whether a list of the type may record the barrier, where its texture, if it has one, is shared (of
/// simultaneous access) or plain:
///
/// - both sets of each side are well formed, and each side's access fits its sync;
/// - on a copy list, the syncs are NONE, ALL and COPY, the accesses COMMON, COPY_SOURCE, COPY_DEST and
///   NO_ACCESS, and the layouts UNDEFINED and COMMON;
/// - for a texture, the layout after is not UNDEFINED and allows the access after, and the layout before is
///   UNDEFINED or allows the access before. Each layout allows COMMON and NO_ACCESS here.
#[tactic(auto, unfolding(crate::specs::Legal::is_legal))]
pub fn legal(barrier: &Barrier, list: ListType, shared: bool) -> bool
    ensures { result ≡ is_legal barrier.now list shared }
{
    let sides = is_side(barrier.sync_before, barrier.access_before)
        && is_side(barrier.sync_after, barrier.access_after);
    sides && suits_list(barrier, list) && suits_layouts(barrier, shared)
}

/// Whether both sets of a side are well formed, and its access fits its sync.
#[tactic(auto, unfolding(crate::specs::Legal::is_side))]
fn is_side(sync: Sync, access: Access) -> bool
    ensures { result ≡ is_side sync access }
{
    sync.is_well_formed() && access.is_well_formed() && fits(sync, access)
}

/// Whether a list of the type may name the syncs, accesses and layouts of the barrier.
fn suits_list(barrier: &Barrier, list: ListType) -> bool
    ensures { result ≡ suits_list barrier.now list }
{
    match list {
        ListType::Direct | ListType::Compute => true,
        ListType::Copy => {
            is_copy_side(
                barrier.sync_before,
                barrier.access_before,
                barrier.layout_before,
            ) && is_copy_side(
                barrier.sync_after,
                barrier.access_after,
                barrier.layout_after,
            )
        }
    }
}

/// The syncs that a copy list may not name.
const NO_COPY_SYNCS: [Sync; 4] = [
    Sync::COMPUTE_SHADING,
    Sync::ALL_SHADING,
    Sync::NON_PIXEL_SHADING,
    Sync::CLEAR_UNORDERED_ACCESS_VIEW,
];

/// The accesses that a copy list may not name.
const NO_COPY_ACCESSES: [Access; 3] = [
    Access::UNORDERED_ACCESS,
    Access::SHADER_RESOURCE,
    Access::CONSTANT_BUFFER,
];

/// Whether a copy list may name the syncs, the accesses and the layout of a side.
#[tactic(auto, unfolding(crate::specs::Legal::is_copy_side))]
fn is_copy_side(sync: Sync, access: Access, layout: Layout) -> bool
    ensures { result ≡ is_copy_side sync access layout }
{
    are_copy_syncs(sync) && are_copy_accesses(access) && is_copy_layout(layout)
}

/// Whether a copy list may name each sync of a set.
#[tactic(auto, unfolding(crate::specs::Legal::are_copy_syncs, dx_flags::specs::Syncs::sync_has))]
fn are_copy_syncs(sync: Sync) -> bool
    ensures { result ≡ are_copy_syncs sync }
{
    NO_COPY_SYNCS.iter().all(|name| !sync.contains(*name))
}

/// Whether a copy list may name each access of a set.
#[tactic(auto, unfolding(crate::specs::Legal::are_copy_accesses, dx_flags::specs::Accesses::access_has))]
fn are_copy_accesses(access: Access) -> bool
    ensures { result ≡ are_copy_accesses access }
{
    NO_COPY_ACCESSES.iter().all(|name| !access.contains(*name))
}

/// Whether a copy list may name the layout.
fn is_copy_layout(layout: Layout) -> bool
    ensures { result ≡ is_copy_layout layout }
{
    match layout {
        Layout::Undefined | Layout::Common => true,
        Layout::GenericRead
        | Layout::UnorderedAccess
        | Layout::ShaderResource
        | Layout::CopySource
        | Layout::CopyDest => false,
    }
}

/// Whether the layouts of a texture's barrier allow its accesses. True of another scope.
fn suits_layouts(barrier: &Barrier, shared: bool) -> bool
    ensures { result ≡ suits_layouts barrier.now.scope barrier.now shared }
{
    match barrier.scope {
        Scope::Global | Scope::Buffer(_) => true,
        Scope::Texture(_, _) => {
            barrier.layout_after != Layout::Undefined
                && layout_takes(barrier.layout_after, barrier.access_after, shared)
                && (barrier.layout_before == Layout::Undefined
                    || layout_takes(barrier.layout_before, barrier.access_before, shared))
        }
    }
}

/// Whether a layout allows a set of accesses to a barrier: as its table has it, and COMMON in each.
#[tactic(auto, unfolding(crate::specs::Legal::layout_takes, dx_flags::specs::Accesses::access_has))]
fn layout_takes(layout: Layout, access: Access, shared: bool) -> bool
    ensures { result ≡ layout_takes layout access shared }
{
    access.contains(Access::COMMON) || allowed(layout, access, shared)
}
