//! The states of legacy resources: how an access promotes one, how it decays at the end of a scope, and what a
//! transition makes of it.
#![tactic(auto)]

mod currents;
mod laws;
mod promotion;
mod scope_ends;
mod transitions;

pub use currents::{Current, Kind};
pub use laws::{decays_are_sound, promotions_are_sound, rows_of_states};
pub use promotion::promote;
pub use scope_ends::decay;
pub use transitions::transition;
