//! Tables of what signatures are refused, what flags promise, and where registers lie, worked out by hand.

use arrayvec::ArrayVec;
use dx_base::{Class, Memory, Seq};
use root_signature::{
    BuildFault, Effective, Fixity, Param, Place, Range, Signature, Version, build, cost, effective,
};
use std::alloc::Global;
use std::process::Abort;
use std::test::Fail;

/// Class, first register, count and flags.
type Registers = (Class, u32, u32, u32);

/// A parameter as a row has it.
#[derive(Clone, Copy)]
enum Row {
    No,
    Consts(u32, u32),
    Root(Class, u32, u32),
    One(Registers),
    Two(Registers, Registers),
}

fn range(of: Registers) -> Range {
    Range {
        class: of.0,
        register: of.1,
        count: of.2,
        flags: of.3,
    }
}

fn table(first: Registers, second: Option<Registers>) -> Param {
    let mut ranges = ArrayVec::new();
    if ranges.try_push(range(first)).is_err() {
        return Param::Table { ranges };
    }
    if let Some(second) = second {
        if ranges.try_push(range(second)).is_err() {
            return Param::Table { ranges };
        }
    }
    Param::Table { ranges }
}

fn param(row: Row) -> Option<Param> {
    match row {
        Row::No => None,
        Row::Consts(register, count) => Some(Param::Const { register, count }),
        Row::Root(class, register, flags) => Some(Param::Root {
            class,
            register,
            flags,
        }),
        Row::One(range) => Some(table(range, None)),
        Row::Two(first, second) => Some(table(first, Some(second))),
    }
}

/// The parameters of rows.
fn params(alloc: Global, rows: &[Row]) -> Result<Seq<Param>, Memory> {
    let mut made = Seq::new(alloc);
    for row in rows {
        if let Some(param) = param(*row) {
            made.push(param)?;
        }
    }
    Ok(made)
}

/// Whether a signature was built, where memory was not refused.
fn is_built(answer: Result<Signature, BuildFault>) -> Result<bool, Memory> {
    match answer {
        Ok(made) => {
            drop(made);
            Ok(true)
        }
        Err(BuildFault::InvalidArg) => Ok(false),
        Err(BuildFault::Memory) => Err(Memory),
    }
}

/// Whether rows are built.
fn builds(alloc: Global, version: Version, rows: &[Row]) -> Result<bool, Memory> {
    let params = params(alloc, rows)?;
    let answer = build(alloc, version, params.as_slice());
    drop(params);
    is_built(answer)
}

/// Parameters, and whether they are a signature of version 1.0.
const SHAPES: [(Row, Row, bool); 43] = [
    // None at all.
    (Row::No, Row::No, true),
    // The cost is at most 64: a word for each constant, two for a root descriptor, one for a table.
    (Row::Consts(0, 64), Row::No, true),
    (Row::Consts(0, 64), Row::One((Class::Srv, 0, 1, 0)), false),
    (Row::Consts(0, 63), Row::One((Class::Srv, 0, 1, 0)), true),
    (Row::Consts(0, 63), Row::Root(Class::Srv, 0, 0), false),
    (Row::Consts(0, 62), Row::Root(Class::Srv, 0, 0), true),
    // A count is at least 1.
    (Row::Consts(0, 0), Row::No, false),
    (Row::Consts(0, 1), Row::No, true),
    (Row::One((Class::Srv, 0, 0, 0)), Row::No, false),
    (Row::One((Class::Srv, 0, 1, 0)), Row::No, true),
    (
        Row::Two((Class::Srv, 0, 1, 0), (Class::Uav, 0, 0, 0)),
        Row::No,
        false,
    ),
    // Register plus count is at most 64, also where the sum passes 2^32.
    (Row::One((Class::Srv, 0, 64, 0)), Row::No, true),
    (Row::One((Class::Srv, 0, 65, 0)), Row::No, false),
    (Row::One((Class::Srv, 1, 64, 0)), Row::No, false),
    (Row::One((Class::Srv, 63, 1, 0)), Row::No, true),
    (Row::One((Class::Srv, 64, 1, 0)), Row::No, false),
    (Row::One((Class::Srv, 4_294_967_295, 1, 0)), Row::No, false),
    (Row::One((Class::Srv, 1, 4_294_967_295, 0)), Row::No, false),
    (Row::Consts(63, 1), Row::No, true),
    (Row::Consts(64, 1), Row::No, false),
    (Row::Consts(2, 62), Row::No, true),
    (Row::Consts(2, 63), Row::No, false),
    (Row::Consts(0, 4_294_967_295), Row::Consts(0, 2), false),
    (Row::Root(Class::Uav, 63, 0), Row::No, true),
    (Row::Root(Class::Uav, 64, 0), Row::No, false),
    (Row::Root(Class::Uav, 4_294_967_295, 0), Row::No, false),
    // One register of one class is covered once.
    (Row::Consts(0, 2), Row::Consts(1, 1), false),
    (Row::Consts(0, 2), Row::Consts(2, 1), true),
    (Row::Consts(5, 2), Row::Consts(4, 2), false),
    (Row::Consts(5, 2), Row::Consts(4, 1), true),
    (Row::Consts(0, 2), Row::Root(Class::Cbv, 1, 0), false),
    (Row::Consts(0, 2), Row::Root(Class::Cbv, 2, 0), true),
    (Row::Consts(0, 2), Row::Root(Class::Srv, 1, 0), true),
    (
        Row::Root(Class::Srv, 7, 0),
        Row::Root(Class::Srv, 7, 0),
        false,
    ),
    (
        Row::Root(Class::Srv, 7, 0),
        Row::Root(Class::Uav, 7, 0),
        true,
    ),
    (Row::One((Class::Cbv, 1, 1, 0)), Row::Consts(0, 2), false),
    (
        Row::Two((Class::Srv, 0, 4, 0), (Class::Srv, 3, 1, 0)),
        Row::No,
        false,
    ),
    (
        Row::Two((Class::Srv, 0, 4, 0), (Class::Srv, 4, 1, 0)),
        Row::No,
        true,
    ),
    (
        Row::Two((Class::Srv, 0, 4, 0), (Class::Uav, 3, 1, 0)),
        Row::No,
        true,
    ),
    (
        Row::One((Class::Uav, 3, 2, 0)),
        Row::One((Class::Uav, 0, 4, 0)),
        false,
    ),
    (
        Row::One((Class::Uav, 3, 2, 0)),
        Row::One((Class::Uav, 0, 3, 0)),
        true,
    ),
    (
        Row::One((Class::Srv, 0, 64, 0)),
        Row::Root(Class::Srv, 20, 0),
        false,
    ),
    (
        Row::Root(Class::Srv, 20, 0),
        Row::One((Class::Srv, 0, 64, 0)),
        false,
    ),
];

fn check_shapes(rt: &impl Abort, alloc: Global) -> Result<(), Memory> {
    for (at, (first, second, good)) in SHAPES.iter().enumerate() {
        let built = builds(alloc, Version::V10, &[*first, *second])?;
        assert_eq!(rt; built, *good, "row {at}");
    }
    Ok(())
}

#[test]
fn a_signature_is_refused_just_past_each_limit(rt: HostRuntime) -> Result<(), Fail> {
    check_shapes(&rt, rt.alloc())?;
    Ok(())
}

/// A flag word, and whether a range of version 1.0, one of 1.1 and a root descriptor of 1.1 may have it.
const WORDS: [(u32, bool, bool, bool); 26] = [
    (0, true, true, true),
    (1, false, true, false),
    (2, false, true, true),
    (4, false, true, true),
    (8, false, true, true),
    (0x1_0000, false, true, false),
    // Bits that are no flag.
    (0x10, false, false, false),
    (0x8000, false, false, false),
    (0x2_0000, false, false, false),
    (0x8000_0000, false, false, false),
    (0x12, false, false, false),
    // Two flags for data.
    (6, false, false, false),
    (10, false, false, false),
    (12, false, false, false),
    (14, false, false, false),
    (0x1_0006, false, false, false),
    // Both flags for descriptors.
    (0x1_0001, false, false, false),
    (0x1_0003, false, false, false),
    // Static data of volatile descriptors.
    (9, false, false, false),
    (3, false, true, false),
    (5, false, true, false),
    (0x1_0002, false, true, false),
    (0x1_0004, false, true, false),
    (0x1_0008, false, true, false),
    (0x1_0009, false, false, false),
    (0x1_000f, false, false, false),
];

fn check_words(rt: &impl Abort, alloc: Global) -> Result<(), Memory> {
    for (word, old, new, root) in WORDS {
        let table = [Row::One((Class::Uav, 0, 1, word))];
        let built = builds(alloc, Version::V10, &table)?;
        assert_eq!(rt; built, old, "1.0, {word:x}");
        let built = builds(alloc, Version::V11, &table)?;
        assert_eq!(rt; built, new, "1.1, {word:x}");
        let built = builds(alloc, Version::V11, &[Row::Root(Class::Srv, 0, word)])?;
        assert_eq!(rt; built, root, "root descriptor, {word:x}");
    }
    Ok(())
}

#[test]
fn a_flag_word_is_refused_for_each_pair_of_flags_that_contradict(
    rt: HostRuntime,
) -> Result<(), Fail> {
    check_words(&rt, rt.alloc())?;
    Ok(())
}

/// A flag word of version 1.1, and what it promises of descriptors, of data of a cbv or an srv, and of a uav.
const PROMISES: [(u32, Fixity, Fixity, Fixity); 9] = [
    (0, Fixity::Static, Fixity::AtExecute, Fixity::Volatile),
    (1, Fixity::Volatile, Fixity::AtExecute, Fixity::Volatile),
    (2, Fixity::Static, Fixity::Volatile, Fixity::Volatile),
    (3, Fixity::Volatile, Fixity::Volatile, Fixity::Volatile),
    (4, Fixity::Static, Fixity::AtExecute, Fixity::AtExecute),
    (5, Fixity::Volatile, Fixity::AtExecute, Fixity::AtExecute),
    (8, Fixity::Static, Fixity::Static, Fixity::Static),
    (
        0x1_0000,
        Fixity::Static,
        Fixity::AtExecute,
        Fixity::Volatile,
    ),
    (0x1_0008, Fixity::Static, Fixity::Static, Fixity::Static),
];

#[test]
fn flags_promise_what_their_table_says(rt: HostRuntime) {
    for (word, descriptors, read, written) in PROMISES {
        for (class, values) in [
            (Class::Cbv, read),
            (Class::Srv, read),
            (Class::Uav, written),
        ] {
            let want = Effective {
                descriptors,
                values,
            };
            assert!(rt;
                effective(Version::V11, class, word) == want,
                "{class:?} {word:x}"
            );
            let old = Effective {
                descriptors: Fixity::Volatile,
                values: Fixity::Volatile,
            };
            assert!(rt;
                effective(Version::V10, class, word) == old,
                "{class:?} {word:x}"
            );
        }
    }
}

/// A root descriptor, constants, a table of two ranges and one of one.
const PARAMS: [Row; 4] = [
    Row::Root(Class::Cbv, 4, 0),
    Row::Consts(0, 3),
    Row::Two((Class::Srv, 0, 2, 0), (Class::Uav, 1, 3, 0)),
    Row::One((Class::Srv, 9, 2, 0)),
];

/// A register, and its parameter, range and slot.
const PLACES: [(Class, u32, Option<(u32, u32, u32)>); 18] = [
    (Class::Cbv, 0, Some((1, 0, 0))),
    (Class::Cbv, 2, Some((1, 0, 2))),
    (Class::Cbv, 3, None),
    (Class::Cbv, 4, Some((0, 0, 0))),
    (Class::Cbv, 5, None),
    (Class::Srv, 0, Some((2, 0, 0))),
    (Class::Srv, 1, Some((2, 0, 1))),
    (Class::Srv, 2, None),
    (Class::Srv, 4, None),
    (Class::Srv, 8, None),
    (Class::Srv, 9, Some((3, 0, 0))),
    (Class::Srv, 10, Some((3, 0, 1))),
    (Class::Srv, 11, None),
    (Class::Uav, 0, None),
    (Class::Uav, 1, Some((2, 1, 2))),
    (Class::Uav, 3, Some((2, 1, 4))),
    (Class::Uav, 4, None),
    (Class::Uav, 4_294_967_295, None),
];

fn check_places(rt: &impl Abort, signature: &Signature) {
    assert!(rt; signature.version() == Version::V11);
    assert_eq!(rt;
        (signature.params().len(), cost(signature.params())),
        (4, 7)
    );
    for (class, register, want) in PLACES {
        let place = signature.place(class, register);
        let want = match want {
            Some((param, range, slot)) => Some(Place { param, range, slot }),
            None => None,
        };
        assert!(rt; place == want, "{class:?} {register}");
    }
}

fn places(rt: &impl Abort, alloc: Global) -> Result<(), BuildFault> {
    let params = params(alloc, &PARAMS)?;
    let built = build(alloc, Version::V11, params.as_slice());
    drop(params);
    let signature = built?;
    check_places(rt, &signature);
    drop(signature);
    Ok(())
}

#[test]
fn a_register_lies_in_one_place_of_a_signature(rt: HostRuntime) -> Result<(), Fail> {
    assert!(rt; places(&rt, rt.alloc()).is_ok());
    Ok(())
}
