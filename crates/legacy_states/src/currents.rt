//! The state that a subresource is in.

ghost use Rattle.std.specs.Prelude.{◌≡◌};
ghost use Rattle.legacy_states.specs.Currents.{is_read_state, is_promoted_read};

use bitflags::Flags;
use dx_flags::State;

/// What a legacy resource is, as far as its states depend on it.
#[derive(Clone, Copy, Debug, PartialEq, Eq)]
pub enum Kind {
    /// A buffer.
    Buffer,
    /// A texture of simultaneous access (D3D12_RESOURCE_FLAG_ALLOW_SIMULTANEOUS_ACCESS).
    Shared,
    /// Any other texture.
    Plain,
}

/// The state of a subresource at some moment.
#[derive(Clone, Copy, Debug, PartialEq, Eq)]
pub struct Current {
    pub state: State,
    /// Whether an access brought it there from COMMON in this scope, and no transition.
    pub promoted: bool,
}

/// Whether a state is a union of read states.
pub(crate) fn is_read_state(state: State) -> bool
    ensures { result ≡ is_read_state state }
{
    state.is_valid() && State::GENERIC_READ.contains(state)
}

/// Whether a read brought the subresource to its state.
pub(crate) fn is_promoted_read(now: Current) -> bool
    ensures { result ≡ is_promoted_read now }
{
    now.promoted && is_read_state(now.state)
}
