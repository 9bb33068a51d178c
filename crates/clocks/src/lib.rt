//! Clocks: which operations of queues and which calls of threads are known to have come before.
#![tactic(auto)]

mod clock;
pub mod laws;
mod numbers;

pub use clock::Clock;
