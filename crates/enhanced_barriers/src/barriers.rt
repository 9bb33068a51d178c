//! Barriers.

use dx_base::ResourceId;
use dx_flags::{Access, Layout, Sync};

/// A barrier between what its list did before and what it does behind (DirectX-Specs, Enhanced Barriers:
/// D3D12_GLOBAL_BARRIER, D3D12_BUFFER_BARRIER, D3D12_TEXTURE_BARRIER). Layouts are those of a texture; both
/// are COMMON in another scope.
#[derive(Clone, Copy, Debug, PartialEq, Eq)]
pub struct Barrier {
    pub scope: Scope,
    pub sync_before: Sync,
    pub sync_after: Sync,
    pub access_before: Access,
    pub access_after: Access,
    pub layout_before: Layout,
    pub layout_after: Layout,
}

/// What a barrier concerns (D3D12_BARRIER_TYPE).
#[derive(Clone, Copy, Debug, PartialEq, Eq)]
pub enum Scope {
    /// All resources.
    Global,
    /// A buffer.
    Buffer(ResourceId),
    /// A subresource of a texture, or all where none is named.
    Texture(ResourceId, Option<u32>),
}
