//! Barriers become those of the device.

ghost use Rattle.std.specs.Prelude.{◌≡◌, true};
ghost use Rattle.barrier_lowering.specs.Numbers.{AreNumbersOf};
ghost use Rattle.barrier_lowering.specs.Barriers.{is_change as changes_layout, change_between as change_between_layouts, change_of_scope, lowered_barrier as barrier_in_vulkan};
ghost use Rattle.barrier_lowering.specs.Lowering.{is_scope_there};

use crate::numbers::Numbers;
use d3d_resources::Resource;
use dx_flags::Layout;
use enhanced_barriers::{Barrier, Scope};
use lower_tables::{access_of, layout_of, stage_of};
use vk_types::{Change, VkCommand};

/// Whether a texture's barrier changes the layout of its image.
fn is_change(before: Layout, after: Layout) -> bool
    ensures { result ≡ changes_layout before after }
{
    before == Layout::Undefined || layout_of(before) != layout_of(after)
}

/// The change of layout of an image between two layouts of its texture.
fn change_between(image: u32, sub: Option<u32>, before: Layout, after: Layout) -> Option<Change>
    ensures { result ≡ change_between_layouts image sub before after }
{
    if !is_change(before, after) {
        return None;
    }
    Some(Change {
        image,
        sub,
        old: layout_of(before),
        new: layout_of(after),
    })
}

/// The change of layout of a barrier, if it has one.
fn change_of(resources: &[Option<Resource>], numbers: &Numbers, barrier: &Barrier) -> Option<Change>
    requires numbers { AreNumbersOf resources.now numbers.now }
    requires named { is_scope_there resources.now barrier.now.scope ≡ true }
    ensures { result ≡ change_of_scope resources.now barrier.now.scope barrier.now.layout_before barrier.now.layout_after }
{
    match barrier.scope {
        Scope::Global | Scope::Buffer(_) => None,
        Scope::Texture(id, sub) => change_between(
            numbers.image(resources, id),
            sub,
            barrier.layout_before,
            barrier.layout_after,
        ),
    }
}

/// A barrier in Vulkan's words.
pub(crate) fn lowered_barrier(
    resources: &[Option<Resource>],
    numbers: &Numbers,
    barrier: &Barrier,
) -> VkCommand
    requires numbers { AreNumbersOf resources.now numbers.now }
    requires named { is_scope_there resources.now barrier.now.scope ≡ true }
    ensures { result ≡ barrier_in_vulkan resources.now barrier.now }
{
    VkCommand::Barrier {
        from: stage_of(barrier.sync_before),
        made: access_of(barrier.access_before),
        to: stage_of(barrier.sync_after),
        seen: access_of(barrier.access_after),
        change: change_of(resources, numbers, barrier),
    }
}
