//! Sets of synchronization scopes.

ghost use Rattle.std.specs.Prelude.{◌≡◌};
ghost use Rattle.dx_flags.specs.declared.atoms.Part.{Part};
ghost use Rattle.dx_flags.specs.Syncs.{is_well_formed_sync, sync_has};
ghost use Rattle.dx_flags.specs.Parts.{has_part, has_shading, name_of_part, parts_of};

use crate::atoms::Part;
use bitflags::{Flag, Flags, bitflag_items};

/// A set of names of synchronization scopes (D3D12_BARRIER_SYNC). The bits are the project's own.
#[derive(Clone, Copy, Debug, PartialEq, Eq)]
pub struct Sync(pub u32);

bitflag_items! {
    impl Sync: u32 {
        const NONE = 1;
        const ALL = 2;
        const COMPUTE_SHADING = 4;
        const ALL_SHADING = 8;
        const NON_PIXEL_SHADING = 16;
        const COPY = 32;
        const CLEAR_UNORDERED_ACCESS_VIEW = 64;
    }
}

impl Flags for Sync {
    ghost use Rattle.std.specs.Prelude.{⊤};
    ghost use Rattle.dx_flags.specs.SyncNames.{sync_table};

    type Bits = u32;

    ghost exact = { ⊤ };

    ghost table = { sync_table };

    ghost set_of = { λ it. it.0 };

    fn flags<'a>() -> &'a [Flag<Sync>] {
        Sync::FLAGS
    }

    fn bits(&self) -> u32 {
        self.0
    }

    fn from_bits_retain(bits: u32) -> Sync {
        Sync(bits)
    }
}

impl Sync {
    /// The names that may stand beside others.
    const JOINING: Sync = Sync(
        Sync::COMPUTE_SHADING.0
            | Sync::ALL_SHADING.0
            | Sync::NON_PIXEL_SHADING.0
            | Sync::COPY.0
            | Sync::CLEAR_UNORDERED_ACCESS_VIEW.0,
    );

    /// Whether the set has a name and no unknown bit, and NONE or ALL only alone.
    #[tactic(auto, using(crate::proofs::WellFormed::sync_by_bits))]
    pub fn is_well_formed(self) -> bool
        ensures { result ≡ is_well_formed_sync self }
    {
        let alone = self == Sync::NONE || self == Sync::ALL;
        let joined = !self.is_empty() && Sync::JOINING.contains(self);
        alone || joined
    }

    /// Whether some sync of the set has the part.
    #[tactic(auto, unfolding(crate::specs::Parts::has_part, crate::specs::Parts::has_shading, crate::specs::Syncs::sync_has))]
    pub fn has_part(self, part: Part) -> bool
        ensures { result ≡ has_part part self }
    {
        match part {
            Part::Copy => self.contains(Sync::ALL) || self.contains(Sync::COPY),
            Part::Compute => self.contains(Sync::ALL) || self.shades(),
            Part::Clear => self.contains(Sync::ALL)
                || self.shades()
                || self.contains(Sync::CLEAR_UNORDERED_ACCESS_VIEW),
        }
    }

    /// Whether the set has a shading sync.
    #[tactic(auto, unfolding(crate::specs::Parts::has_shading, crate::specs::Syncs::sync_has))]
    fn shades(self) -> bool
        ensures { result ≡ has_shading self }
    {
        self.contains(Sync::COMPUTE_SHADING)
            || self.contains(Sync::ALL_SHADING)
            || self.contains(Sync::NON_PIXEL_SHADING)
    }
}

/// The parts of a set of syncs: each part is in the result exactly where some sync of the set has it, by
/// its bit COPY, COMPUTE_SHADING or CLEAR_UNORDERED_ACCESS_VIEW, and nothing else is.
#[tactic(auto, unfolding(crate::specs::Parts::parts_of, crate::specs::Syncs::sync_has))]
pub fn parts(sync: Sync) -> Sync
    ensures value { result ≡ parts_of sync }
    ensures each { (part : Part) → sync_has result (name_of_part part) ≡ has_part part sync }
{
    let mut parts = Sync::empty();
    if sync.has_part(Part::Copy) {
        parts.insert(Sync::COPY);
    }
    if sync.has_part(Part::Compute) {
        parts.insert(Sync::COMPUTE_SHADING);
    }
    if sync.has_part(Part::Clear) {
        parts.insert(Sync::CLEAR_UNORDERED_ACCESS_VIEW);
    }
    parts
}
