//! How much of each register a routine uses.

ghost use Rattle.std.specs.Prelude.{◌≡◌, ◌+◌, ◌/◌, ◌≤◌, true, false};
ghost use Rattle.routines.specs.Uses.{uses_of, words_used, read_of_u0 as read_of};

use dx_base::Routine;

/// How many words of a register a routine uses, from the first one on.
#[derive(Clone, Copy, Debug, PartialEq, Eq)]
pub enum Extent {
    /// None.
    Nothing,
    /// The first word.
    First,
    /// One for each invocation.
    Invocations,
    /// One for each 64 invocations, and for those that are left.
    Groups,
    /// All.
    Whole,
}

/// How a routine uses its registers: t0, t1 and b0 are read, and u0 is written.
#[derive(Clone, Copy, Debug, PartialEq, Eq)]
pub struct Uses {
    pub t0: Extent,
    pub t1: Extent,
    pub b0: Extent,
    pub u0: Extent,
    /// Whether the words of u0 are read, too.
    pub updates: bool,
}

/// The groups of 64 of so many invocations, the last of which may be smaller.
pub(crate) fn groups(n: u32) -> u32
    ensures { result ≡ (n + 63) / 64 }
{
    ((n as u64 + 63) / 64) as u32
}

impl Extent {
    /// How many words of a register that has so many are used by `n` invocations.
    pub fn words(self, n: u32, has: u32) -> u32
        ensures value { result ≡ words_used self n has }
        ensures most { result ≤ has }
    {
        match self {
            Extent::Nothing => 0,
            Extent::First => { if n == 0 { 0 } else { has.min(1) } }
            Extent::Invocations => n.min(has),
            Extent::Groups => groups(n).min(has),
            Extent::Whole => { if n == 0 { 0 } else { has } }
        }
    }
}

impl Uses {
    /// How a routine uses its registers.
    pub fn of(routine: Routine) -> Uses
        ensures { result ≡ uses_of routine }
    {
        match routine {
            Routine::Fill => writing(Extent::Nothing, Extent::Nothing, Extent::First),
            Routine::Move => writing(Extent::Invocations, Extent::Nothing, Extent::Nothing),
            Routine::Add => writing(Extent::Invocations, Extent::Invocations, Extent::Nothing),
            Routine::Mul => writing(Extent::Invocations, Extent::Nothing, Extent::First),
            Routine::Gather => writing(Extent::Whole, Extent::Invocations, Extent::Nothing),
            Routine::Scatter => updating(Extent::Invocations),
            Routine::Sums => Uses {
                u0: Extent::Groups,
                ..writing(Extent::Invocations, Extent::Nothing, Extent::Nothing)
            },
            Routine::Histogram => updating(Extent::Nothing),
        }
    }
}

/// What a routine reads of u0.
pub fn read_of_u0(routine: Routine) -> Extent
    ensures { result ≡ read_of routine }
{
    let used = Uses::of(routine);
    if used.updates {
        used.u0
    } else {
        Extent::Nothing
    }
}

/// The registers of a routine that writes a word for each invocation.
fn writing(t0: Extent, t1: Extent, b0: Extent) -> Uses
    ensures { result ≡ record { t0 = t0; t1 = t1; b0 = b0; u0 = Extent.Invocations; updates = false } }
{
    Uses {
        t0,
        t1,
        b0,
        u0: Extent::Invocations,
        updates: false,
    }
}

/// The registers of a routine that writes any word of u0, and reads those, too.
fn updating(t1: Extent) -> Uses
    ensures { result ≡ record { t0 = Extent.Invocations; t1 = t1; b0 = Extent.Nothing; u0 = Extent.Whole; updates = true } }
{
    Uses {
        t0: Extent::Invocations,
        t1,
        b0: Extent::Nothing,
        u0: Extent::Whole,
        updates: true,
    }
}
