//! The tables, name by name. What is expected was written by hand.

use dx_flags::{Access, Layout, State, Sync};
use lower_tables::{
    access_name, access_named, access_of, first_row, layout_name, layout_named, layout_of,
    stage_of, state_name, state_named, state_of, sync_name, sync_named,
};
use vk_types::{Accesses, Stages, VkLayout};

/// Memory accesses, by the places of their bits.
const MEMORY_READ: u32 = 1;

const MEMORY_WRITE: u32 = 2;

const STORAGE_READ: u32 = 4;

const STORAGE_WRITE: u32 = 8;

const SHADER_READ: u32 = 16;

const UNIFORM_READ: u32 = 32;

const TRANSFER_READ: u32 = 64;

const TRANSFER_WRITE: u32 = 128;

#[test]
fn each_sync_has_its_name_and_its_stage(rt: HostRuntime) {
    let rows = [
        ("NONE", Sync::NONE, Stages::ALL_COMMANDS),
        ("ALL", Sync::ALL, Stages::ALL_COMMANDS),
        (
            "COMPUTE_SHADING",
            Sync::COMPUTE_SHADING,
            Stages::COMPUTE_SHADER,
        ),
        ("ALL_SHADING", Sync::ALL_SHADING, Stages::COMPUTE_SHADER),
        (
            "NON_PIXEL_SHADING",
            Sync::NON_PIXEL_SHADING,
            Stages::COMPUTE_SHADER,
        ),
        ("COPY", Sync::COPY, Stages::COPY),
        (
            "CLEAR_UNORDERED_ACCESS_VIEW",
            Sync::CLEAR_UNORDERED_ACCESS_VIEW,
            Stages::COMPUTE_SHADER,
        ),
    ];
    for (text, one, stages) in rows {
        assert!(rt; sync_named(text) == Some(one), "{text}");
        assert!(rt; sync_name(one) == Some(text), "{text}");
        assert_eq!(rt; stage_of(one), stages, "{text}");
    }
}

#[test]
fn each_access_has_its_name_and_its_memory_accesses(rt: HostRuntime) {
    let rows = [
        (
            "UNORDERED_ACCESS",
            Access::UNORDERED_ACCESS,
            STORAGE_READ + STORAGE_WRITE,
        ),
        ("SHADER_RESOURCE", Access::SHADER_RESOURCE, SHADER_READ),
        ("CONSTANT_BUFFER", Access::CONSTANT_BUFFER, UNIFORM_READ),
        ("COPY_SOURCE", Access::COPY_SOURCE, TRANSFER_READ),
        ("COPY_DEST", Access::COPY_DEST, TRANSFER_WRITE),
        ("COMMON", Access::COMMON, MEMORY_READ + MEMORY_WRITE),
        ("NO_ACCESS", Access::NO_ACCESS, 0),
    ];
    for (text, one, accesses) in rows {
        assert!(rt; access_named(text) == Some(one), "{text}");
        assert!(rt; access_name(one) == Some(text), "{text}");
        assert_eq!(rt; access_of(one), Accesses(accesses), "{text}");
    }
}

#[test]
fn each_layout_has_its_name_and_its_layout_of_an_image(rt: HostRuntime) {
    let rows = [
        ("UNDEFINED", Layout::Undefined, VkLayout::Undefined),
        ("COMMON", Layout::Common, VkLayout::General),
        ("GENERIC_READ", Layout::GenericRead, VkLayout::General),
        (
            "UNORDERED_ACCESS",
            Layout::UnorderedAccess,
            VkLayout::General,
        ),
        (
            "SHADER_RESOURCE",
            Layout::ShaderResource,
            VkLayout::ShaderReadOnlyOptimal,
        ),
        (
            "COPY_SOURCE",
            Layout::CopySource,
            VkLayout::TransferSrcOptimal,
        ),
        ("COPY_DEST", Layout::CopyDest, VkLayout::TransferDstOptimal),
    ];
    for (text, one, layout) in rows {
        assert!(rt; layout_named(text) == Some(one), "{text}");
        assert!(rt; layout_name(one) == Some(text), "{text}");
        assert_eq!(rt; layout_of(one), layout, "{text}");
    }
}

/// Each state with its stage and its memory accesses.
const STATES: [(State, Stages, u32); 7] = [
    (
        State::COMMON,
        Stages::ALL_COMMANDS,
        MEMORY_READ + MEMORY_WRITE,
    ),
    (
        State::VERTEX_AND_CONSTANT_BUFFER,
        Stages::COMPUTE_SHADER,
        UNIFORM_READ,
    ),
    (
        State::NON_PIXEL_SHADER_RESOURCE,
        Stages::COMPUTE_SHADER,
        SHADER_READ,
    ),
    (
        State::PIXEL_SHADER_RESOURCE,
        Stages::COMPUTE_SHADER,
        SHADER_READ,
    ),
    (State::COPY_SOURCE, Stages::COPY, TRANSFER_READ),
    (State::COPY_DEST, Stages::COPY, TRANSFER_WRITE),
    (
        State::UNORDERED_ACCESS,
        Stages::COMPUTE_SHADER,
        STORAGE_READ + STORAGE_WRITE,
    ),
];

#[test]
fn each_state_has_its_side_of_a_barrier(rt: HostRuntime) {
    for (one, stages, accesses) in STATES {
        assert!(rt; state_of(one) == (stages, Accesses(accesses)), "{one:?}");
    }
}

#[test]
fn each_state_has_its_name(rt: HostRuntime) {
    let rows = [
        ("COMMON", State::COMMON),
        (
            "VERTEX_AND_CONSTANT_BUFFER",
            State::VERTEX_AND_CONSTANT_BUFFER,
        ),
        (
            "NON_PIXEL_SHADER_RESOURCE",
            State::NON_PIXEL_SHADER_RESOURCE,
        ),
        ("PIXEL_SHADER_RESOURCE", State::PIXEL_SHADER_RESOURCE),
        ("COPY_SOURCE", State::COPY_SOURCE),
        ("COPY_DEST", State::COPY_DEST),
        ("UNORDERED_ACCESS", State::UNORDERED_ACCESS),
    ];
    for (text, one) in rows {
        assert!(rt; state_named(text) == Some(one), "{text}");
        assert!(rt; state_name(one) == Some(text), "{text}");
    }
}

#[test]
fn a_set_becomes_a_union(rt: HostRuntime) {
    let copy_and_clear = Sync(Sync::COPY.0 + Sync::CLEAR_UNORDERED_ACCESS_VIEW.0);
    assert_eq!(rt;
        stage_of(copy_and_clear).0,
        Stages::COPY.0 + Stages::COMPUTE_SHADER.0
    );
    let both_shadings = Sync(Sync::ALL_SHADING.0 + Sync::NON_PIXEL_SHADING.0);
    assert_eq!(rt; stage_of(both_shadings), Stages::COMPUTE_SHADER);
    assert_eq!(rt; stage_of(Sync(0)).0, 0);
    let read_and_write = Access(Access::COPY_SOURCE.0 + Access::UNORDERED_ACCESS.0);
    assert_eq!(rt;
        access_of(read_and_write).0,
        TRANSFER_READ + STORAGE_READ + STORAGE_WRITE
    );
    assert_eq!(rt; access_of(Access(0)).0, 0);
    let (stages, accesses) = state_of(State::GENERIC_READ);
    assert_eq!(rt; stages.0, Stages::COMPUTE_SHADER.0 + Stages::COPY.0);
    assert_eq!(rt; accesses.0, UNIFORM_READ + SHADER_READ + TRANSFER_READ);
}

#[test]
fn what_is_no_single_name_has_none(rt: HostRuntime) {
    for text in [
        "",
        "none",
        "NON",
        "NONE ",
        "COPY|NONE",
        "GENERIC_READ|COMMON",
        "COPY_SOURC",
    ] {
        assert!(rt; sync_named(text).is_none(), "{text}");
        assert!(rt; access_named(text).is_none(), "{text}");
        assert!(rt; layout_named(text).is_none(), "{text}");
        assert!(rt; state_named(text).is_none(), "{text}");
    }
    assert!(rt; state_named("GENERIC_READ").is_none());
    assert!(rt; access_named("ALL").is_none() && sync_named("COMMON").is_none());
    for bits in [0, 3, 96, 127, 128, 129] {
        assert!(rt; sync_name(Sync(bits)).is_none(), "{bits}");
        assert!(rt; access_name(Access(bits)).is_none(), "{bits}");
        assert!(rt; state_name(State(bits)).is_none(), "{bits}");
    }
    assert!(rt; state_name(State::GENERIC_READ).is_none());
}

#[test]
fn of_rows_with_one_key_the_first_counts(rt: HostRuntime) {
    let rows = [(5, 'a'), (7, 'b'), (5, 'c'), (7, 'd')];
    assert!(rt; first_row(&rows, 5) == Some('a'));
    assert!(rt; first_row(&rows, 7) == Some('b'));
    assert!(rt; first_row(&rows, 6).is_none());
    let none: [(u32, u8); 0] = [];
    assert!(rt; first_row(&none, 0).is_none());
}

#[test]
fn a_dispatch_before_a_copy_is_seen_by_it(rt: HostRuntime) {
    let before = (
        sync_named("COMPUTE_SHADING"),
        access_named("UNORDERED_ACCESS"),
    );
    let after = (sync_named("COPY"), access_named("COPY_SOURCE"));
    assert!(rt; before.0.map(|sync| stage_of(sync)) == Some(Stages::COMPUTE_SHADER));
    assert!(rt;
        before.1.map(|access| access_of(access)) == Some(Accesses(STORAGE_READ + STORAGE_WRITE))
    );
    assert!(rt; after.0.map(|sync| stage_of(sync)) == Some(Stages::COPY));
    assert!(rt; after.1.map(|access| access_of(access)) == Some(Accesses::TRANSFER_READ));
}
