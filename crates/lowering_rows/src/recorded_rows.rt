//! Which commands can have been recorded.

use barrier_lowering::{Record, are_recorded};
use d3d_resources::{Resource, Start};
use dx_base::{Home, ResourceId};
use dx_flags::{Access, Layout, Sync};
use enhanced_barriers::{Barrier, Scope};
use std::test::Fail;

/// A buffer, a dead resource, and a texture of three mips and two layers.
const WORLD: [Option<Resource>; 3] = [
    Some(Resource::Buffer {
        home: Home::Enhanced,
        words: 1024,
    }),
    None,
    Some(Resource::Texture {
        start: Start::Enhanced(Layout::Common),
        width: 4,
        height: 4,
        mips: 3,
        layers: 2,
        shared: false,
    }),
];

/// The least number of bytes whose words are not numbered by 32 bits.
const LARGE: u64 = 17_179_869_184;

/// A copy between buffers: a place in each, and the bytes.
fn copy(to: (u32, u64), from: (u32, u64), bytes: u64) -> Record {
    Record::Copy {
        to: ResourceId(to.0),
        to_offset: to.1,
        from: ResourceId(from.0),
        from_offset: from.1,
        bytes,
    }
}

/// A copy between subresources.
fn copy_texture(to: (u32, u64), from: (u32, u64)) -> Record {
    Record::CopyTexture {
        to: ResourceId(to.0),
        to_sub: to.1,
        from: ResourceId(from.0),
        from_sub: from.1,
    }
}

/// A copy from rows of a buffer into a subresource.
fn copy_in(to: (u32, u64), from: u32, rows: (u64, u64)) -> Record {
    Record::CopyIn {
        to: ResourceId(to.0),
        sub: to.1,
        from: ResourceId(from),
        offset: rows.0,
        pitch: rows.1,
    }
}

/// A copy from a subresource into rows of a buffer.
fn copy_out(to: u32, rows: (u64, u64), from: (u32, u64)) -> Record {
    Record::CopyOut {
        to: ResourceId(to),
        offset: rows.0,
        pitch: rows.1,
        from: ResourceId(from.0),
        sub: from.1,
    }
}

/// A barrier between copies.
fn barrier(scope: Scope) -> Record {
    Record::Barrier(Barrier {
        scope,
        sync_before: Sync::COPY,
        sync_after: Sync::COPY,
        access_before: Access::COPY_DEST,
        access_after: Access::COPY_SOURCE,
        layout_before: Layout::Common,
        layout_after: Layout::Common,
    })
}

#[test]
fn a_copy_of_a_buffer_names_resources_and_words_of_32_bits(rt: HostRuntime) {
    let rows = [
        (copy((0, 0), (0, 4), 4), true),
        (copy((0, LARGE - 4), (0, LARGE - 4), LARGE - 4), true),
        (copy((0, LARGE), (0, 4), 4), false),
        (copy((0, 0), (0, LARGE), 4), false),
        (copy((0, 0), (0, 4), LARGE), false),
        (copy((3, 0), (0, 4), 4), false),
        (copy((0, 0), (3, 4), 4), false),
    ];
    for (command, can) in rows {
        assert!(rt; are_recorded(&WORLD, &[command]) == can, "{command:?}");
    }
}

#[test]
fn a_copy_of_a_texture_names_its_subresources(rt: HostRuntime) {
    let rows = [
        (copy_texture((2, 5), (2, 0)), true),
        (copy_texture((2, 6), (2, 0)), false),
        (copy_texture((2, 5), (2, 6)), false),
        (copy_texture((2, 4_294_967_296), (2, 0)), false),
        (copy_texture((0, 0), (2, 0)), false),
        (copy_texture((2, 0), (1, 0)), false),
        (copy_texture((3, 0), (2, 0)), false),
    ];
    for (command, can) in rows {
        assert!(rt; are_recorded(&WORLD, &[command]) == can, "{command:?}");
    }
}

#[test]
fn a_copy_of_rows_names_both(rt: HostRuntime) {
    let rows = [
        (copy_in((2, 5), 0, (0, 256)), true),
        (copy_in((2, 6), 0, (0, 256)), false),
        (copy_in((2, 5), 3, (0, 256)), false),
        (copy_in((2, 5), 0, (LARGE, 256)), false),
        (copy_in((2, 5), 0, (0, LARGE)), false),
        (copy_out(0, (0, 256), (2, 5)), true),
        (copy_out(0, (0, 256), (2, 6)), false),
        (copy_out(3, (0, 256), (2, 5)), false),
        (copy_out(0, (LARGE, 256), (2, 5)), false),
        (copy_out(0, (0, LARGE), (2, 5)), false),
    ];
    for (command, can) in rows {
        assert!(rt; are_recorded(&WORLD, &[command]) == can, "{command:?}");
    }
}

#[test]
fn a_barrier_names_its_texture(rt: HostRuntime) {
    let rows = [
        (barrier(Scope::Global), true),
        (barrier(Scope::Buffer(ResourceId(0))), true),
        (barrier(Scope::Texture(ResourceId(2), None)), true),
        (barrier(Scope::Texture(ResourceId(3), Some(0))), false),
    ];
    for (command, can) in rows {
        assert!(rt; are_recorded(&WORLD, &[command]) == can, "{command:?}");
    }
}

#[test]
fn each_command_of_a_list_counts(rt: HostRuntime) {
    let good = copy((0, 0), (0, 4), 4);
    let bad = copy((3, 0), (0, 4), 4);
    assert!(rt; are_recorded(&WORLD, &[]));
    assert!(rt; are_recorded(&WORLD, &[good, good]));
    assert!(rt; !are_recorded(&WORLD, &[good, bad]));
    assert!(rt; !are_recorded(&WORLD, &[bad, good]));
}
