//! A buffer and textures, and the lists that copy out of one of these.

use barrier_lowering::Record;
use d3d_resources::{Resource, Start};
use dx_base::{Home, Memory, ResourceId, Seq};
use dx_flags::{Access, Layout, Sync};
use enhanced_barriers::{Barrier, Scope};
use std::alloc::Global;

/// The buffer into which texels are copied. Its id is 0.
const BUFFER: Resource = Resource::Buffer {
    home: Home::Readback,
    words: 64,
};

/// A texture of eight layers. It begins in COPY_DEST.
const TEXTURE: Resource = Resource::Texture {
    start: Start::Enhanced(Layout::CopyDest),
    width: 4,
    height: 1,
    mips: 1,
    layers: 8,
    shared: false,
};

/// The buffer, and so many textures behind it.
pub(crate) fn resources(alloc: Global, textures: u32) -> Result<Seq<Option<Resource>>, Memory> {
    let mut resources = Seq::from_vec(vec![in alloc; Some(BUFFER)]?);
    for texture in 0..textures {
        let _texture = texture;
        resources.push(Some(TEXTURE))?;
    }
    Ok(resources)
}

/// A change of the layout of a subresource: to COPY_SOURCE, or back to COPY_DEST.
fn change(texture: ResourceId, sub: u32, back: bool) -> Record {
    let (before, after) = if back {
        (Layout::CopySource, Layout::CopyDest)
    } else {
        (Layout::CopyDest, Layout::CopySource)
    };
    Record::Barrier(Barrier {
        scope: Scope::Texture(texture, Some(sub)),
        sync_before: Sync::COPY,
        sync_after: Sync::COPY,
        access_before: Access::COMMON,
        access_after: Access::COMMON,
        layout_before: before,
        layout_after: after,
    })
}

/// A copy of a subresource into the buffer.
fn copy(texture: ResourceId, sub: u32) -> Record {
    Record::CopyOut {
        to: ResourceId(0),
        offset: 0,
        pitch: 256,
        from: texture,
        sub: sub as u64,
    }
}

/// The command at a place of a list, counted from 0: copies out of the eight subresources in turn, and a change of
/// the subresource behind each.
fn command(texture: ResourceId, place: u32) -> Record {
    let turn = place / 2;
    let sub = turn % 8;
    if place % 2 == 0 {
        copy(texture, sub)
    } else {
        change(texture, sub, turn / 8 % 2 != 0)
    }
}

/// A list of so many commands on a texture.
pub(crate) fn list(
    alloc: Global,
    texture: ResourceId,
    commands: u32,
) -> Result<Seq<Record>, Memory> {
    let mut list = Seq::new(alloc);
    for place in 0..commands {
        list.push(command(texture, place))?;
    }
    Ok(list)
}
