//! Which accesses fit which syncs.

ghost use Rattle.std.specs.Prelude.{◌≡◌, ◌==◌, ◌||◌, not, bit_and};
ghost use Rattle.std.specs.List.{list_all};
ghost use Rattle.dx_flags.specs.Fits.{fits_of};
ghost use Rattle.dx_flags.specs.Rows.{fits_row};

use crate::accesses::Access;
use crate::syncs::Sync;
use bitflags::Flags;

/// The accesses.
const ACCESSES: [Access; 7] = [
    Access::UNORDERED_ACCESS,
    Access::SHADER_RESOURCE,
    Access::CONSTANT_BUFFER,
    Access::COPY_SOURCE,
    Access::COPY_DEST,
    Access::COMMON,
    Access::NO_ACCESS,
];

/// COMMON, which fits each sync but NONE, and NO_ACCESS, which fits each.
const ANYWHERE: u32 = Access::COMMON.0 | Access::NO_ACCESS.0;

/// The accesses of copies.
const COPIES: u32 = Access::COPY_SOURCE.0 | Access::COPY_DEST.0;

/// The accesses through views.
const VIEWS: u32 = Access::UNORDERED_ACCESS.0
    | Access::SHADER_RESOURCE.0
    | Access::CONSTANT_BUFFER.0;

/// The accesses that fit each sync.
const FITTING: [(Sync, Access); 7] = [
    (Sync::NONE, Access::NO_ACCESS),
    (Sync::ALL, Access(VIEWS | COPIES | ANYWHERE)),
    (Sync::COMPUTE_SHADING, Access(VIEWS | ANYWHERE)),
    (Sync::ALL_SHADING, Access(VIEWS | ANYWHERE)),
    (Sync::NON_PIXEL_SHADING, Access(VIEWS | ANYWHERE)),
    (Sync::COPY, Access(COPIES | ANYWHERE)),
    (
        Sync::CLEAR_UNORDERED_ACCESS_VIEW,
        Access(Access::UNORDERED_ACCESS.0 | ANYWHERE),
    ),
];

/// Whether each access of a set fits some sync of a set.
#[tactic(auto, using(crate::proofs::FitsByRows::fits_by_rows))]
pub fn fits(sync: Sync, access: Access) -> bool
    ensures { result ≡ fits_of sync access }
{
    each_fits(sync, access)
}

/// Whether each access of a set fits some sync of a set, by the rows.
fn each_fits(sync: Sync, access: Access) -> bool
    ensures { result ≡ list_all (λ one. fits_row sync one || not (bit_and access.0 one.0 == one.0)) ACCESSES }
{
    ACCESSES
        .iter()
        .all(|one| fits_one(sync, *one) || !access.contains(*one))
}

/// Whether an access fits some sync of a set.
fn fits_one(sync: Sync, one: Access) -> bool
    ensures { result ≡ fits_row sync one }
{
    FITTING.iter().any(|(name, fitting)| fitting.contains(one) && sync.contains(*name))
}
