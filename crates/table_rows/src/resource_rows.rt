//! Tables of what each creation answers, worked out by hand from the limits and the alignments.

use d3d_resources::{
    Extents, Footprint, Resource, Start, buffer, buffer_view, footprint, texture, texture_view,
};
use dx_base::{Class, Home, Hresult, ResourceId, View};
use dx_flags::{Layout, State};
use std::test::Fail;

/// A start that no texture is refused for.
const COMMON: Start = Start::Enhanced(Layout::Common);

/// A name for the resource of a view.
const NAME: ResourceId = ResourceId(7);

#[test]
fn each_mip_of_a_row_and_of_a_column_has_half_the_texels(rt: HostRuntime) -> Result<(), Fail> {
    let row = texture(COMMON, 4096, 1, 13, 2, false)?;
    let column = texture(COMMON, 1, 4096, 13, 2, false)?;
    let halves = [4096, 2048, 1024, 512, 256, 128, 64, 32, 16, 8, 4, 2, 1];
    for (mip, size) in halves.iter().enumerate() {
        for layer in [0, 1] {
            let sub = mip as u32 + layer * 13;
            let wide = Extents {
                width: *size,
                height: 1,
            };
            let high = Extents {
                width: 1,
                height: *size,
            };
            assert!(rt; row.extents(sub) == Some(wide), "row, {sub}");
            assert!(rt; column.extents(sub) == Some(high), "column, {sub}");
            assert!(rt; sub < row.subs() && sub < column.subs());
            assert_eq!(rt; row.sub_words(sub), *size);
            assert_eq!(rt; column.sub_words(sub), *size);
        }
    }
    assert!(rt; row.extents(26).is_none() && column.extents(26).is_none());
    assert_eq!(rt; (row.subs(), row.words()), (26, 2 * 8191));
    assert_eq!(rt; (column.subs(), column.words()), (26, 2 * 8191));
    Ok(())
}

#[test]
fn a_mip_is_cut_and_never_below_one_texel(rt: HostRuntime) -> Result<(), Fail> {
    let odd = texture(COMMON, 7, 2, 3, 1, true)?;
    for (sub, width, height) in [(0, 7, 2), (1, 3, 1), (2, 1, 1)] {
        assert!(rt;
            odd.extents(sub) == Some(Extents { width, height }),
            "at {sub}"
        );
    }
    assert_eq!(rt; odd.words(), 14 + 3 + 1);
    Ok(())
}

#[test]
fn a_buffer_has_whole_words_up_to_a_limit(rt: HostRuntime) {
    let rows = [
        (0, None),
        (1, None),
        (3, None),
        (4, Some(1)),
        (6, None),
        (8, Some(2)),
        (1_048_572, Some(262_143)),
        (1_048_576, Some(262_144)),
        (1_048_577, None),
        (1_048_580, None),
        (18_446_744_073_709_551_612, None),
    ];
    for (bytes, want) in rows {
        let home = Home::Readback;
        let want = match want {
            Some(words) => Ok(Resource::Buffer { home, words }),
            None => Err(Hresult::InvalidArg),
        };
        assert!(rt; buffer(home, bytes) == want, "{bytes} bytes");
    }
}

/// Width, height, mips and layers, and whether a texture may have them.
const SHAPES: [((u32, u32, u32, u32), bool); 29] = [
    // The extents.
    ((0, 1, 1, 1), false),
    ((1, 0, 1, 1), false),
    ((1, 1, 1, 1), true),
    ((4096, 1, 1, 1), true),
    ((4097, 1, 1, 1), false),
    ((1, 4096, 1, 1), true),
    ((1, 4097, 1, 1), false),
    // The layers.
    ((1, 1, 1, 0), false),
    ((1, 1, 1, 64), true),
    ((1, 1, 1, 65), false),
    // The mips: the binary digits of the greater extent.
    ((4, 4, 0, 1), false),
    ((1, 1, 2, 1), false),
    ((2, 1, 2, 1), true),
    ((3, 3, 3, 1), false),
    ((3, 4, 3, 1), true),
    ((4, 3, 4, 1), false),
    ((1, 4095, 12, 1), true),
    ((4095, 1, 13, 1), false),
    ((4096, 1, 13, 1), true),
    ((4096, 1, 14, 1), false),
    // The words of all layers and mips.
    ((512, 512, 1, 1), true),
    ((513, 512, 1, 1), false),
    ((512, 512, 2, 1), false),
    ((64, 64, 1, 64), true),
    ((64, 64, 2, 64), false),
    ((65, 64, 1, 64), false),
    ((4096, 64, 1, 1), true),
    ((4096, 64, 1, 2), false),
    ((4096, 4096, 13, 64), false),
];

#[test]
fn a_texture_is_refused_just_past_each_limit(rt: HostRuntime) {
    for ((width, height, mips, layers), good) in SHAPES {
        let answer = texture(COMMON, width, height, mips, layers, true);
        let want = if good {
            Ok(Resource::Texture {
                start: COMMON,
                width,
                height,
                mips,
                layers,
                shared: true,
            })
        } else {
            Err(Hresult::InvalidArg)
        };
        assert!(rt; answer == want, "{width} {height} {mips} {layers}");
    }
}

#[test]
fn a_texture_starts_in_a_valid_state_or_in_a_layout_that_is_not_undefined(rt: HostRuntime) {
    let rows = [
        (Start::Legacy(State::COMMON), true),
        (Start::Legacy(State::VERTEX_AND_CONSTANT_BUFFER), true),
        (Start::Legacy(State::NON_PIXEL_SHADER_RESOURCE), true),
        (Start::Legacy(State::PIXEL_SHADER_RESOURCE), true),
        (Start::Legacy(State::COPY_SOURCE), true),
        (Start::Legacy(State::COPY_DEST), true),
        (Start::Legacy(State::UNORDERED_ACCESS), true),
        (
            Start::Legacy(State::COPY_SOURCE | State::PIXEL_SHADER_RESOURCE),
            true,
        ),
        (Start::Legacy(State::COPY_SOURCE | State::COPY_DEST), false),
        (Start::Legacy(State::COMMON | State::COPY_SOURCE), false),
        (Start::Enhanced(Layout::Undefined), false),
        (Start::Enhanced(Layout::Common), true),
        (Start::Enhanced(Layout::GenericRead), true),
        (Start::Enhanced(Layout::UnorderedAccess), true),
        (Start::Enhanced(Layout::ShaderResource), true),
        (Start::Enhanced(Layout::CopySource), true),
        (Start::Enhanced(Layout::CopyDest), true),
    ];
    for (start, good) in rows {
        assert_eq!(rt;
            texture(start, 4, 4, 1, 1, false).is_ok(),
            good,
            "{start:?}"
        );
    }
}

#[test]
fn four_mips_of_four_texels_and_an_undefined_start_are_refused_and_three_mips_are_not(
    rt: HostRuntime,
) {
    let refused = Err(Hresult::InvalidArg);
    let undefined = Start::Enhanced(Layout::Undefined);
    assert!(rt; texture(COMMON, 4, 4, 4, 1, false) == refused);
    assert!(rt; texture(undefined, 4, 4, 1, 1, false) == refused);
    assert!(rt; texture(COMMON, 4, 4, 3, 1, false).is_ok());
}

/// Class, offset and bytes of a view of an upload buffer of 131,072 bytes, and the first word and the words
/// that it has, or None where it is refused.
const RANGES: [(Class, u64, u64, Option<(u32, u32)>); 18] = [
    // Words.
    (Class::Srv, 0, 4, Some((0, 1))),
    (Class::Srv, 4, 131_068, Some((1, 32_767))),
    (Class::Srv, 4, 131_072, None),
    (Class::Srv, 8, 131_068, None),
    (Class::Srv, 2, 4, None),
    (Class::Srv, 4, 6, None),
    (Class::Srv, 0, 0, None),
    (Class::Srv, 131_072, 0, None),
    (Class::Srv, 18_446_744_073_709_551_612, 8, None),
    // Units of 256 bytes, and at most 65,536.
    (Class::Cbv, 0, 256, Some((0, 64))),
    (Class::Cbv, 256, 65_536, Some((64, 16_384))),
    (Class::Cbv, 0, 65_792, None),
    (Class::Cbv, 4, 256, None),
    (Class::Cbv, 0, 260, None),
    (Class::Cbv, 0, 0, None),
    (Class::Cbv, 130_816, 256, Some((32_704, 64))),
    (Class::Cbv, 130_816, 512, None),
    // No unordered access of what the host writes.
    (Class::Uav, 0, 4, None),
];

#[test]
fn a_view_of_a_buffer_has_whole_units_inside_it(rt: HostRuntime) -> Result<(), Fail> {
    let upload = buffer(Home::Upload, 131_072)?;
    for (class, offset, bytes, want) in RANGES {
        let answer = buffer_view(class, NAME, &upload, offset, bytes);
        let want = match want {
            Some((first, words)) => Ok(View {
                class,
                resource: NAME,
                sub: 0,
                first,
                words,
            }),
            None => Err(Hresult::InvalidArg),
        };
        assert!(rt; answer == want, "{class:?} {offset} {bytes}");
    }
    Ok(())
}

#[test]
fn only_the_device_s_own_buffers_have_unordered_access(rt: HostRuntime) -> Result<(), Fail> {
    let rows = [
        (Home::Upload, false),
        (Home::Readback, false),
        (Home::Legacy, true),
        (Home::Enhanced, true),
    ];
    for (home, good) in rows {
        let of = buffer(home, 16)?;
        for (class, want) in [(Class::Srv, true), (Class::Uav, good)] {
            assert_eq!(rt;
                buffer_view(class, NAME, &of, 4, 12).is_ok(),
                want,
                "{home:?}"
            );
        }
    }
    Ok(())
}

#[test]
fn a_view_of_a_texture_has_all_words_of_its_subresource(rt: HostRuntime) -> Result<(), Fail> {
    let of = texture(COMMON, 16, 4, 3, 2, false)?;
    for (sub, words) in [(0, 64), (1, 16), (2, 4), (3, 64), (4, 16), (5, 4)] {
        let want = View {
            class: Class::Uav,
            resource: NAME,
            sub,
            first: 0,
            words,
        };
        assert!(rt;
            texture_view(Class::Uav, NAME, &of, sub) == Ok(want),
            "at {sub}"
        );
    }
    let refused = Err(Hresult::InvalidArg);
    assert!(rt; texture_view(Class::Srv, NAME, &of, 6) == refused);
    assert!(rt; texture_view(Class::Srv, NAME, &buffer(Home::Legacy, 16)?, 0) == refused);
    assert!(rt; buffer_view(Class::Srv, NAME, &of, 0, 4) == refused);
    Ok(())
}

#[test]
fn the_rows_of_a_texture_fit_a_buffer_to_the_last_word(rt: HostRuntime) -> Result<(), Fail> {
    let of = texture(COMMON, 80, 3, 2, 1, false)?;
    let rows = [
        // Mip 0: three rows of 320 bytes, the last of which begins at twice the pitch.
        (0, 1344, 0, 512, Some((0, 128))),
        (0, 1340, 0, 512, None),
        (0, 1856, 512, 512, Some((128, 128))),
        (0, 1852, 512, 512, None),
        (0, 1856, 256, 512, None),
        (0, 1344, 0, 256, None),
        (0, 4096, 0, 384, None),
        (0, 4096, 0, 768, Some((0, 192))),
        // A pitch whose double is 2^64, and an offset near it.
        (0, 4096, 0, 9_223_372_036_854_775_808, None),
        (0, 4096, 18_446_744_073_709_551_104, 512, None),
        // Mip 1: a single row of 160 bytes, which has any pitch.
        (1, 160, 0, 256, Some((0, 64))),
        (1, 156, 0, 256, None),
        (1, 160, 0, 1_048_576, Some((0, 262_144))),
        (1, 160, 0, 17_179_868_928, Some((0, 4_294_967_232))),
        (1, 160, 0, 17_179_869_184, Some((0, 4_294_967_295))),
        // There is no mip 2.
        (2, 4096, 0, 512, None),
    ];
    for (sub, bytes, offset, pitch, want) in rows {
        let answer = footprint(&of, sub, &buffer(Home::Upload, bytes)?, offset, pitch);
        let want = match want {
            Some((first, pitch)) => Ok(Footprint {
                first,
                pitch,
                width: 80 >> sub,
                height: if sub == 0 { 3 } else { 1 },
            }),
            None => Err(Hresult::InvalidArg),
        };
        assert!(rt; answer == want, "{sub} {bytes} {offset} {pitch}");
    }
    Ok(())
}

#[test]
fn a_pitch_of_256_holds_64_texels_and_no_more(rt: HostRuntime) -> Result<(), Fail> {
    let of = buffer(Home::Upload, 1024)?;
    let full = texture(COMMON, 64, 2, 1, 1, false)?;
    let wider = texture(COMMON, 65, 2, 1, 1, false)?;
    let placed = Footprint {
        first: 0,
        pitch: 64,
        width: 64,
        height: 2,
    };
    assert!(rt; footprint(&full, 0, &of, 0, 256) == Ok(placed));
    assert!(rt; footprint(&wider, 0, &of, 0, 256) == Err(Hresult::InvalidArg));
    Ok(())
}

#[test]
fn a_footprint_is_of_a_texture_in_a_buffer(rt: HostRuntime) -> Result<(), Fail> {
    let square = texture(COMMON, 4, 4, 1, 1, false)?;
    let of = buffer(Home::Upload, 1024)?;
    let placed = Footprint {
        first: 0,
        pitch: 64,
        width: 4,
        height: 4,
    };
    let refused = Err(Hresult::InvalidArg);
    assert!(rt; footprint(&square, 0, &of, 0, 256) == Ok(placed));
    assert!(rt; footprint(&of, 0, &square, 0, 256) == refused);
    assert!(rt; footprint(&of, 0, &of, 0, 256) == refused);
    assert!(rt; footprint(&square, 0, &square, 0, 256) == refused);
    Ok(())
}
