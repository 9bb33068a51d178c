//! Decay of states.

ghost use Rattle.std.specs.Prelude.{◌≡◌};
ghost use Rattle.legacy_states.specs.Decay.{is_copy_queue, decays, decayed_of};

use crate::currents::{Current, Kind, is_promoted_read};
use dx_base::ListType;
use dx_flags::State;

/// Whether a queue has copies alone.
fn is_copy_queue(queue: ListType) -> bool
    ensures { result ≡ is_copy_queue queue }
{
    match queue {
        ListType::Direct | ListType::Compute => false,
        ListType::Copy => true,
    }
}

/// Whether a subresource goes back to COMMON.
fn decays(kind: Kind, queue: ListType, now: Current) -> bool
    ensures { result ≡ decays kind queue now }
{
    match kind {
        Kind::Buffer | Kind::Shared => true,
        Kind::Plain => is_copy_queue(queue) || is_promoted_read(now),
    }
}

/// The state of a subresource at the end of a scope of a queue that accessed or transitioned it (Direct3D 12
/// programming guide, "State Decay to Common"): COMMON for a buffer, for a shared texture, on a copy queue, and
/// where a union of read states was promoted. Otherwise the state stays, and counts as not promoted.
pub fn decay(kind: Kind, queue: ListType, now: Current) -> Current
    ensures { result ≡ decayed_of kind queue now }
{
    let state = if decays(kind, queue, now) {
        State::COMMON
    } else {
        now.state
    };
    Current {
        state,
        promoted: false,
    }
}
