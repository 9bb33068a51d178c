//! Transitions of states.

ghost use Rattle.std.specs.Prelude.{◌≡◌};
ghost use Rattle.legacy_states.specs.Transitions.{transition_of};

use crate::currents::Current;
use dx_flags::State;

/// The state of a subresource after a transition from one state to another (D3D12_RESOURCE_TRANSITION_BARRIER).
/// None exactly where it is not in the first.
pub fn transition(now: Current, before: State, after: State) -> Option<Current>
    ensures { result ≡ transition_of now before after }
{
    if now.state != before {
        return None;
    }
    Some(Current {
        state: after,
        promoted: false,
    })
}
