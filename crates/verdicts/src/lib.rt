//! What is said of a history: that it breaks no rule of Direct3D, or which one is broken first.
#![tactic(auto)]

mod rules;

pub use rules::{Rule, Verdict};
