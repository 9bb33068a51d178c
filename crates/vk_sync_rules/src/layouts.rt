//! The layouts of images.

ghost use Rattle.std.specs.Prelude.{◌≡◌, [], slice_index_or, slice_set};
ghost use Rattle.dx_base.specs.Lists.{changed_at};
ghost use Rattle.vk_sync_rules.specs.NextState.{is_undefined as is_undefined_layout, with_layout};
ghost use Rattle.vk_sync_rules.specs.Rules.{layout_place as place_of_layout, same_layout};
ghost use Rattle.vk_types.specs.declared.layouts.VkLayout.TheVariants.{Undefined};

use dx_base::Seq;
use vk_types::VkLayout;

/// Whether a layout is UNDEFINED.
pub(crate) fn is_undefined(layout: VkLayout) -> bool
    ensures { result ≡ is_undefined_layout layout }
{
    match layout {
        VkLayout::Undefined => true,
        VkLayout::General => false,
        VkLayout::ShaderReadOnlyOptimal => false,
        VkLayout::TransferSrcOptimal => false,
        VkLayout::TransferDstOptimal => false,
    }
}

/// The place of a layout among all of them.
fn layout_place(layout: VkLayout) -> u32
    ensures { result ≡ place_of_layout layout }
{
    match layout {
        VkLayout::Undefined => 0,
        VkLayout::General => 1,
        VkLayout::ShaderReadOnlyOptimal => 2,
        VkLayout::TransferSrcOptimal => 3,
        VkLayout::TransferDstOptimal => 4,
    }
}

/// Whether two layouts are the same.
pub(crate) fn is_same_layout(one: VkLayout, other: VkLayout) -> bool
    ensures { result ≡ same_layout one other }
{
    layout_place(one) == layout_place(other)
}

/// The layout at a place of an image; UNDEFINED where it is not there.
fn layout_in(layouts: &Seq<VkLayout>, sub: u32) -> VkLayout
    ensures { result ≡ slice_index_or layouts.now sub Undefined }
{
    if (sub as usize) < layouts.len() {
        *layouts.at(sub as usize)
    } else {
        VkLayout::Undefined
    }
}

/// The current layout of a subresource.
pub(crate) fn layout_at(layouts: &Seq<Seq<VkLayout>>, image: u32, sub: u32) -> VkLayout
    ensures { result ≡ slice_index_or (slice_index_or layouts.now image []) sub Undefined }
{
    if (image as usize) < layouts.len() {
        layout_in(layouts.at(image as usize), sub)
    } else {
        VkLayout::Undefined
    }
}

/// Sets the layout of one subresource.
fn set_layout(layouts: &mut Seq<VkLayout>, sub: u32, layout: VkLayout)
    ensures { layouts.new ≡ slice_set layouts.old sub layout }
{
    if (sub as usize) < layouts.len() {
        *layouts.at_mut(sub as usize) = layout;
    }
}

/// Sets the layout of some subresources of an image.
fn set_all(layouts: &mut Seq<VkLayout>, layout: VkLayout, subs: &[u32])
    ensures { layouts.new ≡ with_layout layout subs.now layouts.old }
{
    let mut rest = subs;
    while let Some((sub, behind)) = rest.split_first() {
        set_layout(layouts, *sub, layout);
        rest = behind;
    }
}

/// Sets the layout of some subresources of one of the images.
pub(crate) fn set_layouts(
    layouts: &mut Seq<Seq<VkLayout>>,
    image: u32,
    layout: VkLayout,
    subs: &[u32],
)
    ensures { layouts.new ≡ changed_at (with_layout layout subs.now) image layouts.old }
{
    if (image as usize) < layouts.len() {
        set_all(layouts.at_mut(image as usize), layout, subs);
    }
}
