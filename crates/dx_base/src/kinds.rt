//! The base kinds of objects.

use crate::ids::ResourceId;

/// The type of a queue, of a command list and of an allocator (D3D12_COMMAND_LIST_TYPE).
#[derive(Clone, Copy, Debug, PartialEq, Eq)]
pub enum ListType {
    /// Any command.
    Direct,
    /// Dispatches, clears, copies and barriers.
    Compute,
    /// Copies and their barriers.
    Copy,
}

/// Where a buffer lies, and which barriers it takes (D3D12_HEAP_TYPE; DirectX-Specs, Enhanced Barriers).
#[derive(Clone, Copy, Debug, PartialEq, Eq)]
pub enum Home {
    /// The host writes it, and the device reads it.
    Upload,
    /// The device writes it, and the host reads it.
    Readback,
    /// The device alone has it, and it takes transitions of states.
    Legacy,
    /// The device alone has it, and it takes enhanced barriers.
    Enhanced,
}

/// The class of a view (D3D12_DESCRIPTOR_RANGE_TYPE).
#[derive(Clone, Copy, Debug, PartialEq, Eq)]
pub enum Class {
    /// A constant buffer view.
    Cbv,
    /// A shader resource view.
    Srv,
    /// An unordered access view.
    Uav,
}

/// A view of words of a subresource. `first` and `words` are in words of 32 bits.
#[derive(Clone, Copy, Debug, PartialEq, Eq)]
pub struct View {
    pub class: Class,
    pub resource: ResourceId,
    /// The subresource: mip plus layer times the number of mips; 0 of a buffer.
    pub sub: u32,
    pub first: u32,
    pub words: u32,
}

/// A routine that a dispatch runs.
#[derive(Clone, Copy, Debug, PartialEq, Eq)]
pub enum Routine {
    Fill,
    Move,
    Add,
    Mul,
    Gather,
    Scatter,
    Sums,
    Histogram,
}
