//! What names name.

ghost use Rattle.std.specs.Prelude.{◌≡◌, ◌<◌};
ghost use Rattle.trace_lines.specs.Things.{same_kind, kind_code};

use line_forms::Kind;

/// All kinds, by their places.
pub const KINDS: [Kind; 6] = [
    Kind::Queue,
    Kind::Fence,
    Kind::Resource,
    Kind::Allocator,
    Kind::List,
    Kind::Thread,
];

/// The place of a kind among all kinds, counted from 0.
pub fn place_of(kind: Kind) -> usize
    ensures value { result ≡ kind_code kind }
    ensures small { result < 6 }
{
    match kind {
        Kind::Queue => 0,
        Kind::Fence => 1,
        Kind::Resource => 2,
        Kind::Allocator => 3,
        Kind::List => 4,
        Kind::Thread => 5,
    }
}

/// The two kinds are one.
pub fn same_kind(one: Kind, other: Kind) -> bool
    ensures { result ≡ same_kind one other }
{
    one == other
}

/// A thing that has a name: its kind, and its number among those of its kind, counted from 0.
#[derive(Clone, Copy, Debug, PartialEq, Eq)]
pub struct Thing {
    pub kind: Kind,
    pub number: u32,
}
