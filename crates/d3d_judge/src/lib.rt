//! The judge of races: which event of a history is the first that breaks a rule, and which rule.
#![tactic(auto)]

mod actor_tables;
mod actors;
mod carried_clocks;
mod copies;
mod cover_places;
mod host_accesses;
mod judge;
mod judge_parts;
mod judge_state;
mod kept;
mod late;
pub mod laws;
mod made;
pub mod rows;
mod sub_tables;
mod word_touches;

pub use actors::Actor;
pub use judge::{FeedFault, Judge};
pub use verdicts::{Rule, Verdict};
