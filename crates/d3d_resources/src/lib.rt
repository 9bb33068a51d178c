//! Buffers and textures, their subresources, the views of them, and how a texture lies in a buffer.
#![tactic(auto)]

mod buffers;
mod digits;
mod footprints;
mod mips;
mod placements;
mod resources;
mod textures;
mod views;

pub use buffers::buffer;
pub use footprints::Footprint;
pub use mips::Extents;
pub use placements::footprint;
pub use resources::{Resource, Start};
pub use textures::texture;
pub use views::{buffer_view, texture_view};
