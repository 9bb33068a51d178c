//! Every name through every call, with answers from the tables in words.

use bitflags::Flags;
use dx_flags::{Access, Kind, Layout, Part, State, Sync, allowed, fits, kinds, parts};
use std::test::Fail;

/// Whether a set of syncs takes UNORDERED_ACCESS, SHADER_RESOURCE, CONSTANT_BUFFER, COPY_SOURCE, COPY_DEST,
/// COMMON and NO_ACCESS.
fn taken(sync: Sync) -> [bool; 7] {
    [
        fits(sync, Access::UNORDERED_ACCESS),
        fits(sync, Access::SHADER_RESOURCE),
        fits(sync, Access::CONSTANT_BUFFER),
        fits(sync, Access::COPY_SOURCE),
        fits(sync, Access::COPY_DEST),
        fits(sync, Access::COMMON),
        fits(sync, Access::NO_ACCESS),
    ]
}

/// Whether a layout allows the same accesses.
fn allows(layout: Layout, shared: bool) -> [bool; 7] {
    [
        allowed(layout, Access::UNORDERED_ACCESS, shared),
        allowed(layout, Access::SHADER_RESOURCE, shared),
        allowed(layout, Access::CONSTANT_BUFFER, shared),
        allowed(layout, Access::COPY_SOURCE, shared),
        allowed(layout, Access::COPY_DEST, shared),
        allowed(layout, Access::COMMON, shared),
        allowed(layout, Access::NO_ACCESS, shared),
    ]
}

/// Which kinds a set of accesses has.
fn kinds_had(access: Access) -> [bool; 5] {
    [
        access.has_kind(Kind::UnorderedAccess),
        access.has_kind(Kind::ShaderResource),
        access.has_kind(Kind::ConstantBuffer),
        access.has_kind(Kind::CopySource),
        access.has_kind(Kind::CopyDest),
    ]
}

#[test]
fn each_sync_has_its_parts(rt: HostRuntime) -> Result<(), Fail> {
    let rows = [
        (Sync::NONE, [false, false, false], 0),
        (Sync::ALL, [true, true, true], 32 + 4 + 64),
        (Sync::COMPUTE_SHADING, [false, true, true], 4 + 64),
        (Sync::ALL_SHADING, [false, true, true], 4 + 64),
        (Sync::NON_PIXEL_SHADING, [false, true, true], 4 + 64),
        (Sync::COPY, [true, false, false], 32),
        (Sync::CLEAR_UNORDERED_ACCESS_VIEW, [false, false, true], 64),
        (Sync(32 + 64), [true, false, true], 32 + 64),
        (Sync(16 + 32), [true, true, true], 32 + 4 + 64),
        (Sync(0), [false, false, false], 0),
    ];
    for (sync, has, bits) in rows {
        assert_eq!(rt;
            [
                sync.has_part(Part::Copy),
                sync.has_part(Part::Compute),
                sync.has_part(Part::Clear)
            ],
            has
        );
        assert_eq!(rt; parts(sync), Sync(bits));
    }
    Ok(())
}

#[test]
fn each_access_has_its_kinds(rt: HostRuntime) -> Result<(), Fail> {
    let rows = [
        (
            Access::UNORDERED_ACCESS,
            [true, false, false, false, false],
            1,
        ),
        (
            Access::SHADER_RESOURCE,
            [false, true, false, false, false],
            2,
        ),
        (
            Access::CONSTANT_BUFFER,
            [false, false, true, false, false],
            4,
        ),
        (Access::COPY_SOURCE, [false, false, false, true, false], 8),
        (Access::COPY_DEST, [false, false, false, false, true], 16),
        (
            Access::COMMON,
            [true, true, true, true, true],
            1 + 2 + 4 + 8 + 16,
        ),
        (Access::NO_ACCESS, [false, false, false, false, false], 0),
        (Access(2 + 8), [false, true, false, true, false], 2 + 8),
        (Access(0), [false, false, false, false, false], 0),
    ];
    for (access, had, bits) in rows {
        assert_eq!(rt; kinds_had(access), had);
        assert_eq!(rt; kinds(access), Access(bits));
    }
    Ok(())
}

#[test]
fn each_sync_takes_its_accesses(rt: HostRuntime) -> Result<(), Fail> {
    let shading = [true, true, true, false, false, true, true];
    let rows = [
        (Sync::NONE, [false, false, false, false, false, false, true]),
        (Sync::ALL, [true, true, true, true, true, true, true]),
        (Sync::COMPUTE_SHADING, shading),
        (Sync::ALL_SHADING, shading),
        (Sync::NON_PIXEL_SHADING, shading),
        (Sync::COPY, [false, false, false, true, true, true, true]),
        (
            Sync::CLEAR_UNORDERED_ACCESS_VIEW,
            [true, false, false, false, false, true, true],
        ),
    ];
    for (sync, row) in rows {
        assert_eq!(rt; taken(sync), row);
    }
    Ok(())
}

#[test]
fn each_access_of_a_set_fits_some_sync_of_a_set(rt: HostRuntime) -> Result<(), Fail> {
    let copy_or_clear = Sync::COPY.union(Sync::CLEAR_UNORDERED_ACCESS_VIEW);
    let written = Access::COPY_DEST.union(Access::UNORDERED_ACCESS);
    assert!(rt; fits(copy_or_clear, written));
    assert!(rt; !fits(Sync::COPY, written));
    assert!(rt; !fits(Sync::CLEAR_UNORDERED_ACCESS_VIEW, written));
    assert!(rt;
        !fits(
            copy_or_clear,
            Access::SHADER_RESOURCE.union(Access::COPY_SOURCE)
        )
    );
    Ok(())
}

/// Which kinds a layout allows.
fn kinds_allowed(layout: Layout, shared: bool) -> [bool; 5] {
    [
        layout.allows(Kind::UnorderedAccess, shared),
        layout.allows(Kind::ShaderResource, shared),
        layout.allows(Kind::ConstantBuffer, shared),
        layout.allows(Kind::CopySource, shared),
        layout.allows(Kind::CopyDest, shared),
    ]
}

/// Each layout, for a plain texture (false) and a shared one, with the kinds that it allows: unordered
/// access, shader resource, constant buffer, copy source and copy destination.
const LAYOUTS: [(Layout, bool, [bool; 5]); 14] = [
    (
        Layout::Undefined,
        false,
        [false, false, false, false, false],
    ),
    (Layout::Undefined, true, [false, false, false, false, false]),
    (Layout::Common, false, [false, true, false, true, true]),
    (Layout::Common, true, [true, true, false, true, true]),
    (
        Layout::GenericRead,
        false,
        [false, true, false, true, false],
    ),
    (Layout::GenericRead, true, [false, true, false, true, false]),
    (
        Layout::UnorderedAccess,
        false,
        [true, false, false, false, false],
    ),
    (
        Layout::UnorderedAccess,
        true,
        [true, false, false, false, false],
    ),
    (
        Layout::ShaderResource,
        false,
        [false, true, false, false, false],
    ),
    (
        Layout::ShaderResource,
        true,
        [false, true, false, false, false],
    ),
    (
        Layout::CopySource,
        false,
        [false, false, false, true, false],
    ),
    (Layout::CopySource, true, [false, false, false, true, false]),
    (Layout::CopyDest, false, [false, false, false, false, true]),
    (Layout::CopyDest, true, [false, false, false, false, true]),
];

#[test]
fn each_layout_allows_its_kinds(rt: HostRuntime) -> Result<(), Fail> {
    for (layout, shared, row) in LAYOUTS {
        assert_eq!(rt; kinds_allowed(layout, shared), row);
    }
    Ok(())
}

#[test]
fn each_layout_allows_its_accesses(rt: HostRuntime) -> Result<(), Fail> {
    for (layout, shared, row) in LAYOUTS {
        let [unordered, shader, constant, source, dest] = row;
        assert_eq!(rt;
            allows(layout, shared),
            [unordered, shader, constant, source, dest, false, true]
        );
    }
    Ok(())
}

#[test]
fn a_layout_allows_a_set_where_it_allows_each_kind(rt: HostRuntime) -> Result<(), Fail> {
    let read = Access::SHADER_RESOURCE.union(Access::COPY_SOURCE);
    assert!(rt; allowed(Layout::GenericRead, read, false));
    assert!(rt; allowed(Layout::Common, read, false));
    assert!(rt; !allowed(Layout::ShaderResource, read, false));
    Ok(())
}

#[test]
fn none_and_all_stand_alone(rt: HostRuntime) -> Result<(), Fail> {
    let rows = [
        (0, false),
        (1, true),
        (2, true),
        (3, false),
        (4, true),
        (8, true),
        (16, true),
        (32, true),
        (33, false),
        (34, false),
        (36, true),
        (64, true),
        (124, true),
        (127, false),
        (128, false),
        (160, false),
    ];
    for (bits, well_formed) in rows {
        assert_eq!(rt; Sync(bits).is_well_formed(), well_formed);
    }
    Ok(())
}

#[test]
fn common_and_no_access_stand_alone(rt: HostRuntime) -> Result<(), Fail> {
    let rows = [
        (0, false),
        (1, true),
        (2, true),
        (4, true),
        (8, true),
        (10, true),
        (16, true),
        (31, true),
        (32, true),
        (33, false),
        (64, true),
        (65, false),
        (96, false),
        (128, false),
        (129, false),
    ];
    for (bits, well_formed) in rows {
        assert_eq!(rt; Access(bits).is_well_formed(), well_formed);
    }
    Ok(())
}

#[test]
fn a_state_is_alone_or_a_union_of_read_states(rt: HostRuntime) -> Result<(), Fail> {
    let rows = [
        (0, false),
        (1, true),
        (2, true),
        (3, false),
        (4, true),
        (8, true),
        (12, true),
        (16, true),
        (17, false),
        (30, true),
        (31, false),
        (32, true),
        (48, false),
        (64, true),
        (66, false),
        (96, false),
        (128, false),
        (130, false),
    ];
    for (bits, valid) in rows {
        assert_eq!(rt; State(bits).is_valid(), valid);
    }
    assert_eq!(rt; State::GENERIC_READ, State(2 + 4 + 8 + 16));
    Ok(())
}

#[test]
fn names_have_their_bits(rt: HostRuntime) -> Result<(), Fail> {
    let syncs = [
        ("NONE", 1),
        ("ALL", 2),
        ("COMPUTE_SHADING", 4),
        ("ALL_SHADING", 8),
        ("NON_PIXEL_SHADING", 16),
        ("COPY", 32),
        ("CLEAR_UNORDERED_ACCESS_VIEW", 64),
    ];
    for (name, bits) in syncs {
        assert_eq!(rt; Sync::from_name(name), Some(Sync(bits)));
    }
    let accesses = [
        ("UNORDERED_ACCESS", 1),
        ("SHADER_RESOURCE", 2),
        ("CONSTANT_BUFFER", 4),
        ("COPY_SOURCE", 8),
        ("COPY_DEST", 16),
        ("COMMON", 32),
        ("NO_ACCESS", 64),
    ];
    for (name, bits) in accesses {
        assert_eq!(rt; Access::from_name(name), Some(Access(bits)));
    }
    let states = [
        ("COMMON", 1),
        ("VERTEX_AND_CONSTANT_BUFFER", 2),
        ("NON_PIXEL_SHADER_RESOURCE", 4),
        ("PIXEL_SHADER_RESOURCE", 8),
        ("COPY_SOURCE", 16),
        ("COPY_DEST", 32),
        ("UNORDERED_ACCESS", 64),
    ];
    for (name, bits) in states {
        assert_eq!(rt; State::from_name(name), Some(State(bits)));
    }
    assert_eq!(rt; State::from_name("GENERIC_READ"), None);
    Ok(())
}

#[test]
fn a_name_of_one_part_or_kind_stands_for_it(rt: HostRuntime) -> Result<(), Fail> {
    assert_eq!(rt; Part::of(Sync(32)), Some(Part::Copy));
    assert_eq!(rt; Part::of(Sync(4)), Some(Part::Compute));
    assert_eq!(rt; Part::of(Sync(64)), Some(Part::Clear));
    for bits in [0, 1, 2, 8, 16, 36, 128] {
        assert_eq!(rt; Part::of(Sync(bits)), None);
    }
    assert_eq!(rt; Kind::of(Access(1)), Some(Kind::UnorderedAccess));
    assert_eq!(rt; Kind::of(Access(2)), Some(Kind::ShaderResource));
    assert_eq!(rt; Kind::of(Access(4)), Some(Kind::ConstantBuffer));
    assert_eq!(rt; Kind::of(Access(8)), Some(Kind::CopySource));
    assert_eq!(rt; Kind::of(Access(16)), Some(Kind::CopyDest));
    for bits in [0, 3, 32, 64, 128] {
        assert_eq!(rt; Kind::of(Access(bits)), None);
    }
    Ok(())
}
