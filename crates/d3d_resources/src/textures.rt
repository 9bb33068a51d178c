//! The creation of textures.

ghost use Rattle.std.specs.Prelude.{◌≡◌, ◌≤◌, IfOk, IsTrue};
ghost use Rattle.d3d_resources.specs.Textures.{is_extent as may_be, is_mip_count as may_have_mips, is_layer_count as may_have_layers, is_texture_shape as may_have_shape, is_start as may_start, is_first_layout as may_start_in, texture_of};
ghost use Rattle.d3d_resources.specs.Resources.{IsResource};

use crate::digits::binary_digits;
use crate::mips::mips_words;
use crate::resources::{Resource, Start};
use dx_base::{Hresult, RESOURCE_WORDS};
use dx_flags::Layout;

/// Whether a texture may be that wide or high.
fn is_extent(extent: u32) -> bool
    ensures { result ≡ may_be extent }
{
    extent > 0 && extent <= 4096
}

/// Whether a texture of these extents may have that many mips.
fn is_mip_count(width: u32, height: u32, mips: u32) -> bool
    ensures value { result ≡ may_have_mips width height mips }
    ensures bound { IsTrue result → mips ≤ 32 }
{
    mips > 0 && mips <= binary_digits(width.max(height))
}

/// Whether a texture may have that many layers.
fn is_layer_count(layers: u32) -> bool
    ensures { result ≡ may_have_layers layers }
{
    layers > 0 && layers <= 64
}

/// Whether a texture may have these extents, mips and layers.
fn is_texture_shape(width: u32, height: u32, mips: u32, layers: u32) -> bool
    ensures { result ≡ may_have_shape width height mips layers }
{
    is_extent(width)
        && is_extent(height)
        && is_mip_count(width, height, mips)
        && is_layer_count(layers)
        && mips_words(width, height, mips) * layers as u64 <= RESOURCE_WORDS as u64
}

/// Whether a texture may start in that layout.
fn is_first_layout(layout: Layout) -> bool
    ensures { result ≡ may_start_in layout }
{
    match layout {
        Layout::Undefined => false,
        Layout::Common
        | Layout::GenericRead
        | Layout::UnorderedAccess
        | Layout::ShaderResource
        | Layout::CopySource
        | Layout::CopyDest => true,
    }
}

/// Whether a texture may start so.
fn is_start(start: Start) -> bool
    ensures { result ≡ may_start start }
{
    match start {
        Start::Legacy(state) => state.is_valid(),
        Start::Enhanced(layout) => is_first_layout(layout),
    }
}

/// A texture of texels of one word (ID3D12Device10::CreateCommittedResource3). InvalidArg exactly where
/// an extent is 0 or above 4096; the layers are 0 or more than 64; the mips are 0 or more than the
/// binary digits of the greater extent; all subresources together have more than 262,144 words; the
/// starting state is not valid; or the starting layout is `Undefined`.
pub fn texture(
    start: Start,
    width: u32,
    height: u32,
    mips: u32,
    layers: u32,
    shared: bool,
) -> Result<Resource, Hresult>
    ensures value { result ≡ texture_of start width height mips layers shared }
    ensures valid { IfOk result (λ made. IsResource made) }
{
    if !(is_start(start) && is_texture_shape(width, height, mips, layers)) {
        return Err(Hresult::InvalidArg);
    }
    Ok(Resource::Texture {
        start,
        width,
        height,
        mips,
        layers,
        shared,
    })
}
