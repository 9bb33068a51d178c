//! Executes of a few commands: which rule each breaks first, or none.

use super::*;

/// A command of a table.
#[derive(Clone, Copy, Debug)]
enum Command {
    None,
    /// Copies between the four words of a buffer and the first four of another.
    Copy(u32, u32),
    /// Copies no words of D.
    CopyNothing,
    /// Copies words of D to such that are partly the same.
    CopyWithin,
    /// Copies four rows of four words of U, 64 words apart, into X.
    IntoX,
    /// Copies X to four rows of four words of B, 64 words apart.
    OutOfX,
    /// Writes X through an unordered access view.
    View,
    /// Copies words of U into a subresource of Y.
    IntoY(u32),
    /// Copies a subresource of Y into B.
    OutOfY(u32),
    /// A barrier of copies, from a write of a copy to a kind of access.
    Written(Scope, Access),
    /// A barrier of all resources.
    All(Sync, Access, Sync, Access),
    /// A barrier of X or Y between a copy into it and a copy from it.
    Copied(u32, Option<u32>, Layout, Layout),
    /// A barrier of X with nothing before it.
    FromNone(Layout, Layout),
    /// A change of X from UNDEFINED behind which all accesses are covered.
    ToAny(Layout),
}

use Command::{
    All, Copied, Copy, CopyNothing, CopyWithin, FromNone, IntoX, IntoY, None as No, OutOfX, OutOfY,
    ToAny, View, Written,
};

const OF_D: Scope = Scope::Buffer(ResourceId(D));

const OF_E: Scope = Scope::Buffer(ResourceId(E));

const TO_SHADING: Command = All(
    Sync::COPY,
    Access::COPY_DEST,
    Sync::COMPUTE_SHADING,
    Access::COMMON,
);

const FROM_SHADING: Command = All(
    Sync::COMPUTE_SHADING,
    Access::COMMON,
    Sync::COPY,
    Access::COMMON,
);

const FROM_NONE: Command = All(Sync::NONE, Access::NO_ACCESS, Sync::COPY, Access::COMMON);

const READ: Command = All(
    Sync::COPY,
    Access::COPY_SOURCE,
    Sync::COPY,
    Access::COPY_SOURCE,
);

const COMMON: Layout = Layout::Common;

const SOURCE: Layout = Layout::CopySource;

const DEST: Layout = Layout::CopyDest;

const UNDEFINED: Layout = Layout::Undefined;

/// The commands of an execute, and the rule that is broken.
type Row = ([Command; 4], Option<Rule>);

const ROWS: [Row; 32] = [
    ([Copy(U, D), No, No, No], None),
    // B2: a word is accessed twice, once writing.
    ([Copy(U, D), Copy(U, D), No, No], Some(Rule::B2)),
    ([Copy(U, D), CopyNothing, No, No], None),
    (
        [
            Copy(U, D),
            Written(OF_D, Access::COPY_SOURCE),
            Copy(D, B),
            No,
        ],
        None,
    ),
    (
        [Copy(U, D), Written(OF_D, Access::COPY_DEST), Copy(D, B), No],
        Some(Rule::B2),
    ),
    (
        [
            Copy(U, D),
            Written(OF_E, Access::COPY_SOURCE),
            Copy(D, B),
            No,
        ],
        Some(Rule::B2),
    ),
    (
        [
            Written(OF_D, Access::COPY_SOURCE),
            Copy(U, D),
            Copy(D, B),
            No,
        ],
        Some(Rule::B2),
    ),
    ([CopyWithin, No, No, No], Some(Rule::B2)),
    (
        [
            Copy(U, D),
            Written(Scope::Global, Access::COMMON),
            Copy(D, B),
            No,
        ],
        None,
    ),
    ([Copy(U, D), TO_SHADING, FROM_SHADING, Copy(D, B)], None),
    ([Copy(U, D), TO_SHADING, Copy(D, B), No], Some(Rule::B2)),
    ([Copy(U, D), TO_SHADING, READ, Copy(D, B)], Some(Rule::B2)),
    (
        [IntoY(0), Copied(Y, Some(0), COMMON, COMMON), OutOfY(0), No],
        None,
    ),
    (
        [IntoY(0), Copied(Y, Some(1), COMMON, COMMON), OutOfY(0), No],
        Some(Rule::B2),
    ),
    (
        [IntoY(1), Copied(Y, None, COMMON, COMMON), OutOfY(1), No],
        None,
    ),
    // B3: a home or a layout does not take the access.
    ([Copy(D, U), No, No, No], Some(Rule::B3)),
    ([Copy(B, D), No, No, No], Some(Rule::B3)),
    ([ToAny(SOURCE), IntoX, No, No], Some(Rule::B3)),
    ([ToAny(DEST), IntoX, No, No], None),
    ([View, No, No, No], Some(Rule::B3)),
    // B4: the layout before is not the current one.
    ([FromNone(DEST, SOURCE), No, No, No], Some(Rule::B4)),
    ([FromNone(COMMON, SOURCE), No, No, No], None),
    (
        [FromNone(COMMON, SOURCE), FromNone(COMMON, COMMON), No, No],
        Some(Rule::B4),
    ),
    // B5: nothing comes before, and the scope used it already.
    ([IntoX, FromNone(COMMON, COMMON), No, No], Some(Rule::B5)),
    ([FromNone(COMMON, COMMON), IntoX, No, No], None),
    ([Copy(U, D), FROM_NONE, No, No], Some(Rule::B5)),
    ([CopyNothing, FROM_NONE, No, No], None),
    // B12: lost words are read.
    ([OutOfX, No, No, No], Some(Rule::B12)),
    (
        [FromNone(UNDEFINED, SOURCE), OutOfX, No, No],
        Some(Rule::B12),
    ),
    (
        [IntoX, Copied(X, Some(0), UNDEFINED, SOURCE), OutOfX, No],
        Some(Rule::B12),
    ),
    (
        [IntoX, Copied(X, Some(0), COMMON, SOURCE), OutOfX, No],
        None,
    ),
    (
        [IntoY(1), Copied(Y, None, UNDEFINED, COMMON), OutOfY(1), No],
        Some(Rule::B12),
    ),
];

fn words(resource: u32, first: u64, words: u64) -> Stretch {
    Stretch {
        resource,
        sub: 0,
        first,
        words,
    }
}

fn sub_of_y(sub: u32) -> Stretch {
    Stretch {
        resource: Y,
        sub,
        first: 0,
        words: 16,
    }
}

/// A barrier that changes no layout.
fn keeping(scope: Scope, before: (Sync, Access), after: (Sync, Access)) -> Barrier {
    Barrier {
        scope,
        sync_before: before.0,
        sync_after: after.0,
        access_before: before.1,
        access_after: after.1,
        layout_before: Layout::Common,
        layout_after: Layout::Common,
    }
}

/// A barrier with other layouts.
fn changing(barrier: Barrier, layout_before: Layout, layout_after: Layout) -> Barrier {
    Barrier {
        layout_before,
        layout_after,
        ..barrier
    }
}

/// The barrier of a command, where it is one.
fn barrier_of(command: Command) -> Option<Barrier> {
    let copy_dest = (Sync::COPY, Access::COPY_DEST);
    let copy_source = (Sync::COPY, Access::COPY_SOURCE);
    let nothing = (Sync::NONE, Access::NO_ACCESS);
    let of_x = Scope::Texture(ResourceId(X), Some(0));
    match command {
        Written(scope, access) => Some(keeping(scope, copy_dest, (Sync::COPY, access))),
        All(sync, access, to, made) => Some(keeping(Scope::Global, (sync, access), (to, made))),
        Copied(texture, sub, before, after) => {
            let scope = Scope::Texture(ResourceId(texture), sub);
            Some(changing(keeping(scope, copy_dest, copy_source), before, after))
        }
        FromNone(before, after) => {
            Some(changing(keeping(of_x, nothing, copy_source), before, after))
        }
        ToAny(after) => {
            let scope = Scope::Texture(ResourceId(X), None);
            let any = (Sync::ALL, Access::COMMON);
            Some(changing(keeping(scope, nothing, any), Layout::Undefined, after))
        }
        _ => None,
    }
}

fn push_read(pieces: &mut Vec<Piece>, place: u32, stretch: Stretch) -> Result<(), Memory> {
    let what = What::Reads(Part::Copy, Kind::CopySource, stretch);
    pieces.push(Piece { place, what })?;
    Ok(())
}

fn push_write(pieces: &mut Vec<Piece>, place: u32, stretch: Stretch) -> Result<(), Memory> {
    let what = What::Writes(Part::Copy, Kind::CopyDest, stretch);
    pieces.push(Piece { place, what })?;
    Ok(())
}

fn push_copy(
    pieces: &mut Vec<Piece>,
    place: u32,
    from: Stretch,
    to: Stretch,
) -> Result<(), Memory> {
    push_read(pieces, place, from)?;
    push_write(pieces, place, to)
}

fn push_rows_in(pieces: &mut Vec<Piece>, place: u32) -> Result<(), Memory> {
    for first in [0u64, 64, 128, 192] {
        push_read(pieces, place, words(U, first, 4))?;
    }
    push_write(pieces, place, words(X, 0, 16))
}

fn push_rows_out(pieces: &mut Vec<Piece>, place: u32) -> Result<(), Memory> {
    push_read(pieces, place, words(X, 0, 16))?;
    for first in [0u64, 64, 128, 192] {
        push_write(pieces, place, words(B, first, 4))?;
    }
    Ok(())
}

fn push_view(pieces: &mut Vec<Piece>, place: u32) -> Result<(), Memory> {
    let what = What::Writes(Part::Compute, Kind::UnorderedAccess, words(X, 0, 16));
    pieces.push(Piece { place, what })?;
    Ok(())
}

fn push_barrier(pieces: &mut Vec<Piece>, place: u32, command: Command) -> Result<(), Memory> {
    if let Some(barrier) = barrier_of(command) {
        let what = What::Bars(barrier);
        pieces.push(Piece { place, what })?;
    }
    Ok(())
}

fn push_command(pieces: &mut Vec<Piece>, place: u32, command: Command) -> Result<(), Memory> {
    match command {
        Copy(from, to) => push_copy(pieces, place, words(from, 0, 4), words(to, 0, 4)),
        CopyNothing => push_copy(pieces, place, words(D, 2, 0), words(B, 0, 0)),
        CopyWithin => push_copy(pieces, place, words(D, 0, 3), words(D, 2, 2)),
        IntoX => push_rows_in(pieces, place),
        OutOfX => push_rows_out(pieces, place),
        View => push_view(pieces, place),
        IntoY(sub) => push_copy(pieces, place, words(U, 0, 16), sub_of_y(sub)),
        OutOfY(sub) => push_copy(pieces, place, sub_of_y(sub), words(B, 0, 16)),
        _ => push_barrier(pieces, place, command),
    }
}

/// The parts of the commands of a row.
fn push_commands(pieces: &mut Vec<Piece>, commands: &[Command; 4]) -> Result<(), Memory> {
    let mut place = 0u32;
    for command in commands {
        push_command(pieces, place, *command)?;
        place = place.saturating_add(1);
    }
    Ok(())
}

fn pieces_of(alloc: Global, commands: &[Command; 4]) -> Result<Vec<Piece>, Memory> {
    let mut pieces = Vec::new(alloc);
    match push_commands(&mut pieces, commands) {
        Ok(()) => Ok(pieces),
        Err(memory) => {
            drop(pieces);
            Err(memory)
        }
    }
}

/// What is said of one execute.
fn said_of(second: &mut Second, pieces: Vec<Piece>) -> Result<Verdict, Memory> {
    second.feed(Happening::Calls(0, Deed::Gives(0, Work::Executes(pieces))))?;
    second.feed(Happening::Completes(0))
}

fn said_of_commands(
    alloc: Global,
    second: &mut Second,
    commands: &[Command; 4],
) -> Result<Verdict, Memory> {
    let pieces = pieces_of(alloc, commands)?;
    said_of(second, pieces)
}

fn said(alloc: Global, commands: &[Command; 4]) -> Result<Verdict, Memory> {
    let mut judge = second(alloc)?;
    let said = said_of_commands(alloc, &mut judge, commands);
    drop(judge);
    said
}

fn wanted(rule: Option<Rule>) -> Verdict {
    match rule {
        Some(rule) => Verdict::Broken(rule, 2),
        None => Verdict::Clean,
    }
}

/// The verdict on one execute is that of its row, at the second event.
fn judge_rows(rt: &impl Abort, alloc: Global) -> Result<(), Memory> {
    for (commands, rule) in &ROWS {
        let said = said(alloc, commands)?;
        assert!(rt; said == wanted(*rule), "{commands:?}: {said:?}");
    }
    Ok(())
}

#[test]
fn scopes_break_the_rules_that_they_break(rt: HostRuntime) -> Result<(), Fail> {
    judge_rows(&rt, rt.alloc())?;
    Ok(())
}
