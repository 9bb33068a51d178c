//! Views of buffers and of textures.

ghost use Rattle.std.specs.Prelude.{◌≡◌, ◌≢◌, ◌<◌, IfOk};
ghost use Rattle.d3d_resources.specs.Resources.{IsResource};
ghost use Rattle.d3d_resources.specs.Views.{is_range_of, is_view_range as may_view, has_class as may_have_class, buffer_view_of, texture_view_of, IsViewOf};

use crate::resources::Resource;
use dx_base::{Class, Home, Hresult, ResourceId, View};

/// Whether a range of bytes is not empty, begins and ends at multiples of a unit, and lies inside a
/// buffer of that many words.
fn is_range(unit: u64, size: u32, offset: u64, bytes: u64) -> bool
    requires { 0 < unit }
    ensures { result ≡ is_range_of unit size offset bytes }
{
    let inside = match offset.checked_add(bytes) {
        Some(end) => end <= 4 * size as u64,
        None => false,
    };
    bytes > 0 && offset % unit == 0 && bytes % unit == 0 && inside
}

/// Whether a view of that class may have that range of a buffer of that many words.
fn is_view_range(class: Class, size: u32, offset: u64, bytes: u64) -> bool
    ensures { result ≡ may_view class size offset bytes }
{
    match class {
        Class::Cbv => bytes <= 65_536 && is_range(256, size, offset, bytes),
        Class::Srv | Class::Uav => is_range(4, size, offset, bytes),
    }
}

/// Whether a buffer with that home may have a view of that class.
fn has_class(home: Home, class: Class) -> bool
    ensures { result ≡ may_have_class home class }
{
    match class {
        Class::Cbv | Class::Srv => true,
        Class::Uav => match home {
            Home::Upload | Home::Readback => false,
            Home::Legacy | Home::Enhanced => true,
        },
    }
}

/// A view of a range of a buffer, whose offset and size are in bytes (ID3D12Device,
/// CreateConstantBufferView and its kin). InvalidArg exactly where the resource is a texture; the bytes
/// are 0; the offset or the bytes are no multiple of 4; the range passes the buffer's end; a constant
/// buffer view has more than 65,536 bytes, or an offset or bytes that are no multiple of 256; or an
/// unordered access view is of an upload or readback buffer.
pub fn buffer_view(
    class: Class,
    id: ResourceId,
    of: &Resource,
    offset: u64,
    bytes: u64,
) -> Result<View, Hresult>
    requires { IsResource of.now }
    ensures value { result ≡ buffer_view_of class id of.now offset bytes }
    ensures inside { IfOk result (λ made. IsViewOf of.now made) }
{
    let Resource::Buffer { home, words } = *of else {
        return Err(Hresult::InvalidArg);
    };
    if !(has_class(home, class) && is_view_range(class, words, offset, bytes)) {
        return Err(Hresult::InvalidArg);
    }
    Ok(View {
        class,
        resource: id,
        sub: 0,
        first: (offset / 4) as u32,
        words: (bytes / 4) as u32,
    })
}

/// A view of all words of a texture's subresource, row by row (ID3D12Device, CreateShaderResourceView
/// and CreateUnorderedAccessView). InvalidArg exactly where the resource is a buffer, or has no such
/// subresource.
pub fn texture_view(class: Class, id: ResourceId, of: &Resource, sub: u32) -> Result<View, Hresult>
    requires valid { IsResource of.now }
    requires class { class ≢ Class.Cbv }
    ensures value { result ≡ texture_view_of class id of.now sub }
    ensures inside { IfOk result (λ made. IsViewOf of.now made) }
{
    let Some(extents) = of.extents(sub) else {
        return Err(Hresult::InvalidArg);
    };
    Ok(View {
        class,
        resource: id,
        sub,
        first: 0,
        words: extents.words(),
    })
}
