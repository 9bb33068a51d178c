//! What is recorded into a list.

use dx_base::ResourceId;
use enhanced_barriers::Barrier;

/// A recorded command. Offsets, pitches and sizes are in bytes. A subresource is its mip plus its layer
/// times the number of mips (D3D12CalcSubresource).
#[derive(Clone, Copy, Debug, PartialEq, Eq)]
pub enum Record {
    /// ID3D12GraphicsCommandList::CopyBufferRegion.
    Copy {
        to: ResourceId,
        to_offset: u64,
        from: ResourceId,
        from_offset: u64,
        bytes: u64,
    },
    /// ID3D12GraphicsCommandList::CopyTextureRegion, from a whole subresource to another one.
    CopyTexture {
        to: ResourceId,
        to_sub: u64,
        from: ResourceId,
        from_sub: u64,
    },
    /// The same from rows of a buffer to a subresource.
    CopyIn {
        to: ResourceId,
        sub: u64,
        from: ResourceId,
        offset: u64,
        pitch: u64,
    },
    /// The same from a subresource to rows of a buffer.
    CopyOut {
        to: ResourceId,
        offset: u64,
        pitch: u64,
        from: ResourceId,
        sub: u64,
    },
    /// ID3D12GraphicsCommandList7::Barrier, of one barrier.
    Barrier(Barrier),
}
