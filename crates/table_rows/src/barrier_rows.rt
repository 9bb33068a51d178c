//! Barriers on lists, and the pairs that they cover, with answers from the rules in words.

use dx_base::{ListType, ResourceId};
use dx_flags::{Access, Layout, Sync};
use enhanced_barriers::{Barrier, Scope, covers, legal};
use std::test::Fail;

/// A barrier of all resources.
fn global(
    sync_before: Sync,
    sync_after: Sync,
    access_before: Access,
    access_after: Access,
) -> Barrier {
    Barrier {
        scope: Scope::Global,
        sync_before,
        sync_after,
        access_before,
        access_after,
        layout_before: Layout::Common,
        layout_after: Layout::Common,
    }
}

/// A barrier of a texture from one layout to another, from copies to copies.
fn change(from: (Access, Layout), to: (Access, Layout)) -> Barrier {
    Barrier {
        scope: Scope::Texture(ResourceId(0), None),
        layout_before: from.1,
        layout_after: to.1,
        ..global(Sync::ALL, Sync::ALL, from.0, to.0)
    }
}

#[test]
fn copies_make_no_shader_reads(rt: HostRuntime) -> Result<(), Fail> {
    let barrier = global(
        Sync::COPY,
        Sync::ALL,
        Access::SHADER_RESOURCE,
        Access::COMMON,
    );
    assert!(rt; !legal(&barrier, ListType::Direct, false));
    Ok(())
}

#[test]
fn each_side_is_well_formed_and_fits(rt: HostRuntime) -> Result<(), Fail> {
    let rows = [
        (Sync::COPY, Access::COPY_DEST, true),
        (Sync::COPY, Access::UNORDERED_ACCESS, false),
        (Sync::COMPUTE_SHADING, Access::UNORDERED_ACCESS, true),
        (Sync::NONE, Access::NO_ACCESS, true),
        (Sync::NONE, Access::COMMON, false),
        (Sync(1 + 32), Access::NO_ACCESS, false),
        (Sync(0), Access::NO_ACCESS, false),
        (Sync(128), Access::NO_ACCESS, false),
        (Sync::ALL, Access(32 + 1), false),
        (Sync::ALL, Access(0), false),
        (Sync::ALL, Access(1 + 2 + 4 + 8 + 16), true),
        (Sync(32 + 64), Access(16 + 1), true),
    ];
    for (sync, access, right) in rows {
        let before = global(sync, Sync::ALL, access, Access::COMMON);
        let after = global(Sync::ALL, sync, Access::COMMON, access);
        assert_eq!(rt; legal(&before, ListType::Direct, false), right);
        assert_eq!(rt; legal(&before, ListType::Compute, false), right);
        assert_eq!(rt; legal(&after, ListType::Direct, true), right);
    }
    Ok(())
}

#[test]
fn a_copy_list_names_copies_alone(rt: HostRuntime) -> Result<(), Fail> {
    let rows = [
        (Sync::COPY, Access::COPY_DEST, true),
        (Sync::COPY, Access::COPY_SOURCE, true),
        (Sync::ALL, Access::COMMON, true),
        (Sync::NONE, Access::NO_ACCESS, true),
        (Sync::ALL, Access::UNORDERED_ACCESS, false),
        (Sync::ALL, Access::SHADER_RESOURCE, false),
        (Sync::ALL, Access::CONSTANT_BUFFER, false),
        (Sync::COMPUTE_SHADING, Access::COMMON, false),
        (Sync::ALL_SHADING, Access::NO_ACCESS, false),
        (Sync::NON_PIXEL_SHADING, Access::NO_ACCESS, false),
        (Sync::CLEAR_UNORDERED_ACCESS_VIEW, Access::COMMON, false),
    ];
    for (sync, access, right) in rows {
        let before = global(sync, Sync::ALL, access, Access::COMMON);
        let after = global(Sync::ALL, sync, Access::COMMON, access);
        assert_eq!(rt; legal(&before, ListType::Copy, false), right);
        assert_eq!(rt; legal(&after, ListType::Copy, false), right);
        assert!(rt; legal(&before, ListType::Direct, false));
    }
    Ok(())
}

#[test]
fn a_copy_list_names_two_layouts(rt: HostRuntime) -> Result<(), Fail> {
    let none = Access::NO_ACCESS;
    let rows = [
        (Layout::Undefined, Layout::Common, true),
        (Layout::Common, Layout::Common, true),
        (Layout::Common, Layout::CopyDest, false),
        (Layout::CopySource, Layout::Common, false),
        (Layout::GenericRead, Layout::Common, false),
        (Layout::Common, Layout::UnorderedAccess, false),
        (Layout::Common, Layout::ShaderResource, false),
    ];
    for (before, after, right) in rows {
        let barrier = change((none, before), (none, after));
        assert_eq!(rt; legal(&barrier, ListType::Copy, false), right);
        assert!(rt; legal(&barrier, ListType::Direct, false));
    }
    Ok(())
}

#[test]
fn a_texture_is_accessed_as_its_layouts_allow(rt: HostRuntime) -> Result<(), Fail> {
    let source = (Access::COPY_SOURCE, Layout::CopySource);
    let dest = (Access::COPY_DEST, Layout::CopyDest);
    let lost = (Access::UNORDERED_ACCESS, Layout::Undefined);
    let common = (Access::COMMON, Layout::CopySource);
    let none = (Access::NO_ACCESS, Layout::ShaderResource);
    let wrong = (Access::COPY_SOURCE, Layout::CopyDest);
    let plain = (Access::UNORDERED_ACCESS, Layout::Common);
    let constant = (Access::CONSTANT_BUFFER, Layout::GenericRead);
    let rows = [
        (dest, source, true, true),
        (lost, source, true, true),
        (source, (Access::NO_ACCESS, Layout::Undefined), false, false),
        (source, (Access::COMMON, Layout::Undefined), false, false),
        (common, source, true, true),
        (none, common, true, true),
        (wrong, source, false, false),
        (source, wrong, false, false),
        (source, plain, false, true),
        (plain, source, false, true),
        (source, constant, false, false),
    ];
    for (before, after, plain, shared) in rows {
        let barrier = change(before, after);
        assert_eq!(rt; legal(&barrier, ListType::Direct, false), plain);
        assert_eq!(rt; legal(&barrier, ListType::Direct, true), shared);
    }
    Ok(())
}

#[test]
fn the_layouts_of_a_buffer_do_not_count(rt: HostRuntime) -> Result<(), Fail> {
    let barrier = Barrier {
        scope: Scope::Buffer(ResourceId(3)),
        ..global(
            Sync::COMPUTE_SHADING,
            Sync::COPY,
            Access::UNORDERED_ACCESS,
            Access::COPY_SOURCE,
        )
    };
    assert!(rt; legal(&barrier, ListType::Direct, false));
    assert!(rt; legal(&barrier, ListType::Compute, false));
    assert!(rt; !legal(&barrier, ListType::Copy, false));
    Ok(())
}

#[test]
fn a_barrier_covers_the_pairs_of_its_before_side(rt: HostRuntime) -> Result<(), Fail> {
    let barrier = global(
        Sync::ALL_SHADING,
        Sync::COPY,
        Access::UNORDERED_ACCESS,
        Access::COPY_SOURCE,
    );
    let rows = [
        (Sync::COMPUTE_SHADING, Access::UNORDERED_ACCESS, true),
        (
            Sync::CLEAR_UNORDERED_ACCESS_VIEW,
            Access::UNORDERED_ACCESS,
            true,
        ),
        (Sync::COPY, Access::UNORDERED_ACCESS, false),
        (Sync::COMPUTE_SHADING, Access::SHADER_RESOURCE, false),
        (Sync::COPY, Access::COPY_SOURCE, false),
        (Sync::ALL_SHADING, Access::UNORDERED_ACCESS, false),
        (Sync::COMPUTE_SHADING, Access::COMMON, false),
        (Sync(0), Access(0), false),
    ];
    for (sync, access, right) in rows {
        assert_eq!(rt; covers(&barrier, sync, access), right);
    }
    let all = global(Sync::ALL, Sync::NONE, Access::COMMON, Access::NO_ACCESS);
    assert!(rt; covers(&all, Sync::COPY, Access::CONSTANT_BUFFER));
    assert!(rt; covers(&all, Sync::CLEAR_UNORDERED_ACCESS_VIEW, Access::COPY_DEST));
    let none = global(Sync::NONE, Sync::ALL, Access::NO_ACCESS, Access::COMMON);
    assert!(rt; !covers(&none, Sync::COPY, Access::COPY_SOURCE));
    Ok(())
}

#[test]
fn each_sync_before_covers_its_parts(rt: HostRuntime) -> Result<(), Fail> {
    let rows = [
        (Sync::NONE, [false, false, false]),
        (Sync::ALL, [true, true, true]),
        (Sync::COMPUTE_SHADING, [false, true, true]),
        (Sync::ALL_SHADING, [false, true, true]),
        (Sync::NON_PIXEL_SHADING, [false, true, true]),
        (Sync::COPY, [true, false, false]),
        (Sync::CLEAR_UNORDERED_ACCESS_VIEW, [false, false, true]),
    ];
    for (sync, covered) in rows {
        let barrier = global(sync, Sync::NONE, Access::COMMON, Access::NO_ACCESS);
        assert_eq!(rt;
            [
                covers(&barrier, Sync::COPY, Access::COPY_DEST),
                covers(&barrier, Sync::COMPUTE_SHADING, Access::COPY_DEST),
                covers(
                    &barrier,
                    Sync::CLEAR_UNORDERED_ACCESS_VIEW,
                    Access::COPY_DEST
                )
            ],
            covered
        );
    }
    Ok(())
}

/// Whether a barrier covers copies with each kind: unordered access, shader resource, constant buffer, copy
/// source and copy destination.
fn kinds_covered(barrier: &Barrier) -> [bool; 5] {
    [
        covers(barrier, Sync::COPY, Access::UNORDERED_ACCESS),
        covers(barrier, Sync::COPY, Access::SHADER_RESOURCE),
        covers(barrier, Sync::COPY, Access::CONSTANT_BUFFER),
        covers(barrier, Sync::COPY, Access::COPY_SOURCE),
        covers(barrier, Sync::COPY, Access::COPY_DEST),
    ]
}

#[test]
fn each_access_before_covers_its_kinds(rt: HostRuntime) -> Result<(), Fail> {
    let rows = [
        (Access::UNORDERED_ACCESS, [true, false, false, false, false]),
        (Access::SHADER_RESOURCE, [false, true, false, false, false]),
        (Access::CONSTANT_BUFFER, [false, false, true, false, false]),
        (Access::COPY_SOURCE, [false, false, false, true, false]),
        (Access::COPY_DEST, [false, false, false, false, true]),
        (Access::COMMON, [true, true, true, true, true]),
        (Access::NO_ACCESS, [false, false, false, false, false]),
    ];
    for (access, covered) in rows {
        let barrier = global(Sync::ALL, Sync::NONE, access, Access::NO_ACCESS);
        assert_eq!(rt; kinds_covered(&barrier), covered);
    }
    Ok(())
}
