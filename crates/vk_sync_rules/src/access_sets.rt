//! What sets of memory accesses share.

ghost use Rattle.std.specs.Prelude.{◌≡◌};
ghost use Rattle.vk_sync_rules.specs.AccessSets.{whole_accesses as whole_of, share, is_some_access};

use vk_types::Accesses;

/// The bits of the accesses that a set stands for: MEMORY_READ is every read, MEMORY_WRITE every write.
fn whole_accesses(accesses: Accesses) -> u32
    ensures { result ≡ whole_of accesses }
{
    let reads = if accesses.0 & 1 == 0 { 0 } else { 373 };
    let writes = if accesses.0 & 2 == 0 { 0 } else { 138 };
    accesses.0 | (reads | writes)
}

/// Whether two sets share an access.
pub(crate) fn do_share(one: Accesses, other: Accesses) -> bool
    ensures { result ≡ share one other }
{
    whole_accesses(one) & whole_accesses(other) != 0
}

/// Whether a set has an access.
pub(crate) fn is_some(accesses: Accesses) -> bool
    ensures { result ≡ is_some_access accesses }
{
    accesses.0 != 0
}
