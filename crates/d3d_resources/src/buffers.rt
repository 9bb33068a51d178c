//! The creation of buffers.

ghost use Rattle.std.specs.Prelude.{◌≡◌, IfOk};
ghost use Rattle.d3d_resources.specs.Buffers.{is_buffer_size as may_have, buffer_of};
ghost use Rattle.d3d_resources.specs.Resources.{IsResource};

use crate::resources::Resource;
use dx_base::{Home, Hresult, RESOURCE_WORDS};

/// Whether a buffer may have that many bytes.
fn is_buffer_size(bytes: u64) -> bool
    ensures { result ≡ may_have bytes }
{
    bytes > 0 && bytes % 4 == 0 && bytes <= 4 * RESOURCE_WORDS as u64
}

/// A buffer of that many bytes (ID3D12Device::CreateCommittedResource). InvalidArg exactly where the bytes
/// are 0, no multiple of 4, or above 1,048,576.
pub fn buffer(home: Home, bytes: u64) -> Result<Resource, Hresult>
    ensures value { result ≡ buffer_of home bytes }
    ensures valid { IfOk result (λ made. IsResource made) }
{
    if !is_buffer_size(bytes) {
        return Err(Hresult::InvalidArg);
    }
    let words = (bytes / 4) as u32;
    Ok(Resource::Buffer { home, words })
}
