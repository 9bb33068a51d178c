//! What a barrier covers.

ghost use Rattle.std.specs.Prelude.{◌≡◌};
ghost use Rattle.enhanced_barriers.specs.Cover.{covers_of};

use crate::barriers::Barrier;
use dx_flags::{Access, Kind, Part, Sync};

/// Whether the before side of a barrier has the pair of a part and a kind: the part, given as COPY,
/// COMPUTE_SHADING or CLEAR_UNORDERED_ACCESS_VIEW, is one of its sync before, and the kind, given by its
/// name, is one of its access before. False where a set is given that stands for no part or no kind.
#[tactic(auto, unfolding(crate::specs::Cover::covers_of, crate::specs::Cover::before_has))]
pub fn covers(barrier: &Barrier, sync: Sync, access: Access) -> bool
    ensures { result ≡ covers_of barrier.now sync access }
{
    match (Part::of(sync), Kind::of(access)) {
        (Some(part), Some(kind)) => {
            barrier.sync_before.has_part(part) && barrier.access_before.has_kind(kind)
        }
        _ => false,
    }
}
