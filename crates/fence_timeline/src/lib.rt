//! Fences as lists of updates: those that were applied, and those that are still pending on queues.
#![tactic(auto)]

mod fence;
mod laws;
mod pending;
mod runs;
mod update;
mod updates;
mod wait;
mod waits;

pub use fence::Fence;
pub use laws::{
    a_mark_is_an_update_that_suffices, a_target_is_the_first_that_suffices,
    nothing_that_a_wait_needs_is_lost, pending_updates_are_applied_in_order,
};
pub use update::{Target, Update};
pub use wait::Wait;
