//! Sets of resource states.

ghost use Rattle.std.specs.Prelude.{◌≡◌};
ghost use Rattle.dx_flags.specs.States.{is_valid};

use bitflags::{Flag, Flags, bitflag_items};

/// A set of names of resource states (D3D12_RESOURCE_STATES). The bits are the project's own.
#[derive(Clone, Copy, Debug, PartialEq, Eq)]
pub struct State(pub u32);

bitflag_items! {
    impl State: u32 {
        const COMMON = 1;
        const VERTEX_AND_CONSTANT_BUFFER = 2;
        const NON_PIXEL_SHADER_RESOURCE = 4;
        const PIXEL_SHADER_RESOURCE = 8;
        const COPY_SOURCE = 16;
        const COPY_DEST = 32;
        const UNORDERED_ACCESS = 64;
    }
}

impl Flags for State {
    ghost use Rattle.std.specs.Prelude.{⊤};
    ghost use Rattle.dx_flags.specs.StateNames.{state_table};

    type Bits = u32;

    ghost exact = { ⊤ };

    ghost table = { state_table };

    ghost set_of = { λ it. it.0 };

    fn flags<'a>() -> &'a [Flag<State>] {
        State::FLAGS
    }

    fn bits(&self) -> u32 {
        self.0
    }

    fn from_bits_retain(bits: u32) -> State {
        State(bits)
    }
}

impl State {
    /// The read states, each union of which is a state: that union whole is GENERIC_READ.
    pub const GENERIC_READ: State = State(
        State::VERTEX_AND_CONSTANT_BUFFER.0
            | State::NON_PIXEL_SHADER_RESOURCE.0
            | State::PIXEL_SHADER_RESOURCE.0
            | State::COPY_SOURCE.0,
    );

    /// Whether a resource may be in the state: COMMON, COPY_DEST or UNORDERED_ACCESS alone, or a union of
    /// read states (Direct3D 12 programming guide, "Using Resource Barriers to Synchronize Resource States").
    #[tactic(auto, using(crate::proofs::WellFormed::state_by_bits))]
    pub fn is_valid(self) -> bool
        ensures { result ≡ is_valid self }
    {
        let alone = self == State::COMMON
            || self == State::COPY_DEST
            || self == State::UNORDERED_ACCESS;
        let read = !self.is_empty() && State::GENERIC_READ.contains(self);
        alone || read
    }
}
