//! Promotion of states.

ghost use Rattle.std.specs.Prelude.{◌≡◌};
ghost use Rattle.legacy_states.specs.Currents.{joined};
ghost use Rattle.legacy_states.specs.Promotion.{may_plain_be_promoted_to, may_be_promoted_to, promoted_from, promoted_of};

use crate::currents::{Current, Kind, is_promoted_read, is_read_state};
use bitflags::Flags;
use dx_flags::State;

/// Whether a plain texture may be promoted from COMMON to a state.
fn may_plain_be_promoted_to(need: State) -> bool
    ensures { result ≡ may_plain_be_promoted_to need }
{
    need == State::NON_PIXEL_SHADER_RESOURCE
        || need == State::PIXEL_SHADER_RESOURCE
        || need == State::COPY_SOURCE
        || need == State::COPY_DEST
}

/// Whether a resource may be promoted from COMMON to a state.
fn may_be_promoted_to(kind: Kind, need: State) -> bool
    ensures { result ≡ may_be_promoted_to kind need }
{
    match kind {
        Kind::Buffer | Kind::Shared => need.is_valid(),
        Kind::Plain => may_plain_be_promoted_to(need),
    }
}

/// The union of two sets of states.
fn joined(state: State, other: State) -> State
    ensures { result ≡ joined state other }
{
    State(state.0 | other.0)
}

/// The state after an access that promotes to one to which COMMON may be promoted.
fn promoted_from(now: Current, need: State) -> Option<Current>
    ensures { result ≡ promoted_from now need }
{
    if now.state == State::COMMON {
        return Some(Current {
            state: need,
            promoted: true,
        });
    }
    if is_promoted_read(now) && is_read_state(need) {
        return Some(Current {
            state: joined(now.state, need),
            promoted: true,
        });
    }
    None
}

/// The state of a subresource after an access that needs a state, or None where the access is not allowed
/// (Direct3D 12 programming guide, "Implicit State Transitions"):
///
/// - where the state contains the need, it stays;
/// - from COMMON, a buffer and a shared texture are promoted to any valid state, a plain texture to
///   NON_PIXEL_SHADER_RESOURCE, PIXEL_SHADER_RESOURCE, COPY_SOURCE and COPY_DEST;
/// - a union of read states that was promoted is joined with a further one to which COMMON may be promoted;
/// - all else is None.
pub fn promote(kind: Kind, now: Current, need: State) -> Option<Current>
    ensures { result ≡ promoted_of kind now need }
{
    if now.state.contains(need) {
        return Some(now);
    }
    if !may_be_promoted_to(kind, need) {
        return None;
    }
    promoted_from(now, need)
}
