//! Footprints: rows of texels in a buffer.

/// How the rows of a subresource lie in a buffer, in words of four bytes
/// (D3D12_PLACED_SUBRESOURCE_FOOTPRINT).
#[derive(Clone, Copy, Debug, PartialEq, Eq)]
pub struct Footprint {
    /// The place of the first row in the buffer.
    pub first: u32,
    /// From the beginning of a row to that of the next. A single row may have any pitch; one of 2^32
    /// words or more is cut to 2^32 - 1.
    pub pitch: u32,
    /// The words of a row.
    pub width: u32,
    /// The number of rows.
    pub height: u32,
}
