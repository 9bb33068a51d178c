//! Lists lowered by hand, from the tables in words.

ghost use Rattle.std.specs.Prelude.{◌≡◌, ◌≤◌, length, true};
ghost use Rattle.barrier_lowering.specs.Lowering.{are_recorded};
ghost use Rattle.barrier_lowering.specs.Numbers.{AreNumbersOf};

use barrier_lowering::{Layouts, Lowered, Numbers, Record, lower};
use d3d_resources::{Resource, Start};
use dx_base::{Home, Memory, ResourceId, Seq};
use dx_flags::{Access, Layout, State, Sync};
use enhanced_barriers::{Barrier, Scope};
use std::alloc::Global;
use std::test::Fail;
use vk_types::{Accesses, Change, Stages, VkCommand, VkLayout};

/// The commands of a lowered list in some layouts, and in those after it.
fn filled_twice(
    alloc: Global,
    lowered: &Lowered,
    layouts: &mut Layouts,
) -> Result<[Seq<VkCommand>; 2], Memory> {
    let first = lowered.fill(alloc, layouts)?;
    lowered.advance(layouts);
    let second = lowered.fill(alloc, layouts)?;
    Ok([first, second])
}

/// The same of a list that begins behind the start-up.
fn started(
    alloc: Global,
    resources: &[Option<Resource>],
    lowered: &Lowered,
) -> Result<[Seq<VkCommand>; 2], Memory> {
    let mut layouts = Layouts::new(alloc, resources)?;
    let executes = filled_twice(alloc, lowered, &mut layouts);
    drop(layouts);
    executes
}

/// The same of a recorded list.
fn lowered_and_started(
    alloc: Global,
    resources: &[Option<Resource>],
    numbers: &Numbers,
    list: &[Record],
) -> Result<[Seq<VkCommand>; 2], Memory>
    requires numbers { AreNumbersOf resources.now numbers.now }
    requires recorded { are_recorded resources.now list.now ≡ true }
{
    let lowered = lower(alloc, resources, numbers, list)?;
    let executes = started(alloc, resources, &lowered);
    drop(lowered);
    executes
}

/// The commands of two executes of a recorded list, behind the start-up.
fn executed_twice(
    alloc: Global,
    resources: &[Option<Resource>],
    list: &[Record],
) -> Result<[Seq<VkCommand>; 2], Memory>
    requires few { length resources.now ≤ 4096 }
    requires recorded { are_recorded resources.now list.now ≡ true }
{
    let numbers = Numbers::new(alloc, resources)?;
    let executes = lowered_and_started(alloc, resources, &numbers, list);
    drop(numbers);
    executes
}

/// A buffer.
const BUFFER: Option<Resource> = Some(Resource::Buffer {
    home: Home::Enhanced,
    words: 1024,
});

/// A buffer, a dead resource, a texture of 3 mips and 2 layers, another buffer, and a legacy texture.
const WORLD: [Option<Resource>; 5] = [
    BUFFER,
    None,
    Some(Resource::Texture {
        start: Start::Enhanced(Layout::Common),
        width: 4,
        height: 4,
        mips: 3,
        layers: 2,
        shared: false,
    }),
    BUFFER,
    Some(Resource::Texture {
        start: Start::Legacy(State::COPY_DEST),
        width: 4,
        height: 4,
        mips: 1,
        layers: 1,
        shared: false,
    }),
];

/// A barrier of all subresources of the first texture between copies, from COMMON to COMMON.
const COPIES: Barrier = Barrier {
    scope: Scope::Texture(ResourceId(2), None),
    sync_before: Sync::COPY,
    sync_after: Sync::COPY,
    access_before: Access::COPY_DEST,
    access_after: Access::COPY_SOURCE,
    layout_before: Layout::Common,
    layout_after: Layout::Common,
};

/// A copy of the first texture's subresource 1 into the second buffer, in rows of 64 words from word 128 on.
const OUT: Record = Record::CopyOut {
    to: ResourceId(3),
    offset: 512,
    pitch: 256,
    from: ResourceId(2),
    sub: 1,
};

/// The barrier between copies in Vulkan's words.
fn between_copies(change: Option<Change>) -> VkCommand {
    VkCommand::Barrier {
        from: Stages::COPY,
        made: Accesses::TRANSFER_WRITE,
        to: Stages::COPY,
        seen: Accesses::TRANSFER_READ,
        change,
    }
}

/// A change of the first image's layout.
fn change(sub: Option<u32>, old: VkLayout, new: VkLayout) -> Option<Change> {
    Some(Change {
        image: 0,
        sub,
        old,
        new,
    })
}

/// The copy in Vulkan's words, from a layout.
fn out(layout: VkLayout) -> VkCommand {
    VkCommand::CopyOut {
        buffer: 1,
        first: 128,
        pitch: 64,
        image: 0,
        sub: 1,
        layout,
    }
}

#[test]
fn dispatches_come_before_a_copy_from_a_buffer(rt: HostRuntime) -> Result<(), Fail> {
    let list = [Record::Barrier(Barrier {
        scope: Scope::Buffer(ResourceId(0)),
        sync_before: Sync::COMPUTE_SHADING,
        access_before: Access::UNORDERED_ACCESS,
        ..COPIES
    })];
    let executes = executed_twice(rt.alloc(), &WORLD, &list)?;
    let barrier = VkCommand::Barrier {
        from: Stages::COMPUTE_SHADER,
        made: Accesses(4 + 8),
        to: Stages::COPY,
        seen: Accesses::TRANSFER_READ,
        change: None,
    };
    assert!(rt; executes[0].as_slice() == [barrier].as_slice());
    assert!(rt; executes[1].as_slice() == [barrier].as_slice());
    Ok(())
}

#[test]
fn a_list_begins_in_each_layout(rt: HostRuntime) -> Result<(), Fail> {
    let rows = [
        (Layout::Undefined, VkLayout::Undefined),
        (Layout::Common, VkLayout::General),
        (Layout::GenericRead, VkLayout::General),
        (Layout::UnorderedAccess, VkLayout::General),
        (Layout::ShaderResource, VkLayout::ShaderReadOnlyOptimal),
        (Layout::CopySource, VkLayout::TransferSrcOptimal),
        (Layout::CopyDest, VkLayout::TransferDstOptimal),
    ];
    let list = [
        OUT,
        Record::Barrier(Barrier {
            layout_before: Layout::Undefined,
            layout_after: Layout::CopyDest,
            ..COPIES
        }),
        OUT,
    ];
    let known = VkLayout::TransferDstOptimal;
    let made = between_copies(change(None, VkLayout::Undefined, known));
    for (first, lowered) in rows {
        let resources = [
            BUFFER,
            None,
            Some(Resource::Texture {
                start: Start::Enhanced(first),
                width: 4,
                height: 4,
                mips: 3,
                layers: 2,
                shared: false,
            }),
            BUFFER,
        ];
        let executes = executed_twice(rt.alloc(), &resources, &list)?;
        assert!(rt; executes[0].as_slice() == [out(lowered), made, out(known)].as_slice());
        assert!(rt; executes[1].as_slice() == [out(known), made, out(known)].as_slice());
    }
    Ok(())
}

#[test]
fn only_other_layouts_and_lost_words_are_changed(rt: HostRuntime) -> Result<(), Fail> {
    let rows = [
        (Layout::Common, Layout::UnorderedAccess, None),
        (Layout::GenericRead, Layout::Common, None),
        (Layout::CopySource, Layout::CopySource, None),
        (
            Layout::Undefined,
            Layout::Common,
            change(None, VkLayout::Undefined, VkLayout::General),
        ),
        (
            Layout::Undefined,
            Layout::Undefined,
            change(None, VkLayout::Undefined, VkLayout::Undefined),
        ),
        (
            Layout::UnorderedAccess,
            Layout::ShaderResource,
            change(None, VkLayout::General, VkLayout::ShaderReadOnlyOptimal),
        ),
    ];
    for (before, after, change) in rows {
        let list = [Record::Barrier(Barrier {
            layout_before: before,
            layout_after: after,
            ..COPIES
        })];
        let executes = executed_twice(rt.alloc(), &WORLD, &list)?;
        assert!(rt; executes[0].as_slice() == [between_copies(change)].as_slice());
    }
    Ok(())
}

#[test]
fn the_last_change_of_a_subresource_counts(rt: HostRuntime) -> Result<(), Fail> {
    let x = ResourceId(2);
    let list = [
        Record::Barrier(Barrier {
            layout_after: Layout::CopySource,
            ..COPIES
        }),
        OUT,
        Record::Barrier(Barrier {
            scope: Scope::Texture(x, Some(1)),
            layout_before: Layout::CopySource,
            layout_after: Layout::CopyDest,
            ..COPIES
        }),
        Record::Barrier(Barrier {
            scope: Scope::Texture(x, Some(2)),
            layout_before: Layout::CopySource,
            layout_after: Layout::ShaderResource,
            ..COPIES
        }),
        OUT,
        Record::Barrier(Barrier {
            layout_before: Layout::CopyDest,
            ..COPIES
        }),
        OUT,
    ];
    let executes = executed_twice(rt.alloc(), &WORLD, &list)?;
    let source = VkLayout::TransferSrcOptimal;
    let dest = VkLayout::TransferDstOptimal;
    let general = VkLayout::General;
    let lowered = [
        between_copies(change(None, general, source)),
        out(source),
        between_copies(change(Some(1), source, dest)),
        between_copies(change(Some(2), source, VkLayout::ShaderReadOnlyOptimal)),
        out(dest),
        between_copies(change(None, dest, general)),
        out(general),
    ];
    assert!(rt; executes[0].as_slice() == lowered.as_slice());
    assert!(rt; executes[1].as_slice() == lowered.as_slice());
    Ok(())
}

#[test]
fn copies_name_what_the_device_has(rt: HostRuntime) -> Result<(), Fail> {
    let (x, y) = (ResourceId(2), ResourceId(4));
    let list = [
        Record::Copy {
            to: ResourceId(3),
            to_offset: 4,
            from: ResourceId(0),
            from_offset: 8,
            bytes: 12,
        },
        Record::CopyTexture {
            to: x,
            to_sub: 3,
            from: y,
            from_sub: 0,
        },
        Record::CopyIn {
            to: y,
            sub: 0,
            from: ResourceId(3),
            offset: 1024,
            pitch: 512,
        },
        Record::Barrier(Barrier {
            scope: Scope::Texture(x, Some(3)),
            layout_after: Layout::CopyDest,
            ..COPIES
        }),
    ];
    let executes = executed_twice(rt.alloc(), &WORLD, &list)?;
    let general = VkLayout::General;
    let copy = VkCommand::Copy {
        to: 1,
        to_first: 1,
        from: 0,
        from_first: 2,
        words: 3,
    };
    let between = |to_layout| VkCommand::CopyImage {
        to: 0,
        to_sub: 3,
        to_layout,
        from: 1,
        from_sub: 0,
        from_layout: general,
    };
    let copy_in = VkCommand::CopyIn {
        image: 1,
        sub: 0,
        layout: general,
        buffer: 1,
        first: 256,
        pitch: 128,
    };
    let dest = VkLayout::TransferDstOptimal;
    let made = between_copies(change(Some(3), general, dest));
    let first = [copy, between(general), copy_in, made];
    let second = [copy, between(dest), copy_in, made];
    assert!(rt; executes[0].as_slice() == first.as_slice());
    assert!(rt; executes[1].as_slice() == second.as_slice());
    Ok(())
}
