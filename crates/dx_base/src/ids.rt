//! Names of objects: each is the place of the object among those of its kind, counted from 0.

/// A command queue.
#[derive(Clone, Copy, Debug, PartialEq, Eq)]
pub struct QueueId(pub u32);

/// A fence.
#[derive(Clone, Copy, Debug, PartialEq, Eq)]
pub struct FenceId(pub u32);

/// A buffer or a texture.
#[derive(Clone, Copy, Debug, PartialEq, Eq)]
pub struct ResourceId(pub u32);

/// A view.
#[derive(Clone, Copy, Debug, PartialEq, Eq)]
pub struct ViewId(pub u32);

/// A descriptor heap.
#[derive(Clone, Copy, Debug, PartialEq, Eq)]
pub struct HeapId(pub u32);

/// A root signature.
#[derive(Clone, Copy, Debug, PartialEq, Eq)]
pub struct SignatureId(pub u32);

/// A command allocator.
#[derive(Clone, Copy, Debug, PartialEq, Eq)]
pub struct AllocatorId(pub u32);

/// A command list.
#[derive(Clone, Copy, Debug, PartialEq, Eq)]
pub struct ListId(pub u32);

/// A thread of the application.
#[derive(Clone, Copy, Debug, PartialEq, Eq)]
pub struct ThreadId(pub u32);
