//! How the rows of a texture's subresource lie in a buffer.

ghost use Rattle.std.specs.Prelude.{◌≡◌, ◌+◌, ◌-◌, ◌*◌, ◌<◌, ◌≤◌, ◌^◌, IfOk};
ghost use Rattle.std.specs.Option.{SomeIff};
ghost use Rattle.d3d_resources.specs.Mips.{AreExtents};
ghost use Rattle.d3d_resources.specs.Resources.{IsResource};
ghost use Rattle.d3d_resources.specs.Footprints.{fits_buffer as fits, placed as rows_in_words, footprint_of, IsFootprintIn};

use crate::footprints::Footprint;
use crate::mips::Extents;
use crate::resources::Resource;
use dx_base::Hresult;

/// The end of the last row, in bytes; None where it is 2^64 or more.
fn end_of_rows(of: Extents, offset: u64, pitch: u64) -> Option<u64>
    requires { AreExtents of }
    ensures { let end = offset + pitch * (of.height - 1) + 4 * of.width in SomeIff result (end < 2 ^ 64) end }
{
    let before = pitch.checked_mul(of.height as u64 - 1)?;
    offset.checked_add(before)?.checked_add(4 * of.width as u64)
}

/// Whether rows of these extents lie in a buffer of that many words, at an offset and a pitch in bytes.
fn fits_buffer(of: Extents, size: u32, offset: u64, pitch: u64) -> bool
    requires { AreExtents of }
    ensures { result ≡ fits of size offset pitch }
{
    let inside = match end_of_rows(of, offset, pitch) {
        Some(end) => end <= 4 * size as u64,
        None => false,
    };
    offset % 512 == 0 && pitch % 256 == 0 && 4 * of.width as u64 <= pitch && inside
}

/// Rows in words.
fn placed(of: Extents, offset: u64, pitch: u64) -> Footprint
    requires { offset < 4 * 2 ^ 32 }
    ensures { result ≡ rows_in_words of offset pitch }
{
    Footprint {
        first: (offset / 4) as u32,
        pitch: (pitch / 4).min(u32::MAX as u64) as u32,
        width: of.width,
        height: of.height,
    }
}

/// How a subresource of a texture lies in a buffer from an offset on, with a pitch from row to row, both
/// in bytes (ID3D12GraphicsCommandList, CopyTextureRegion). InvalidArg exactly where the first resource
/// is a buffer or the second a texture; there is no such subresource; the offset is no multiple of 512;
/// the pitch is no multiple of 256, or below 4 times the width; or the last row passes the buffer's end.
pub fn footprint(
    texture: &Resource,
    sub: u32,
    buffer: &Resource,
    offset: u64,
    pitch: u64,
) -> Result<Footprint, Hresult>
    requires texture { IsResource texture.now }
    requires buffer { IsResource buffer.now }
    ensures value { result ≡ footprint_of texture.now sub buffer.now offset pitch }
    ensures inside { IfOk result (λ made. IsFootprintIn buffer.now made) }
{
    let Some(extents) = texture.extents(sub) else {
        return Err(Hresult::InvalidArg);
    };
    let Resource::Buffer { words, .. } = *buffer else {
        return Err(Hresult::InvalidArg);
    };
    if !fits_buffer(extents, words, offset, pitch) {
        return Err(Hresult::InvalidArg);
    }
    Ok(placed(extents, offset, pitch))
}
