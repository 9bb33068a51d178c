//! Numbers of words that only grow, with the greatest of a range at hand.
#![tactic(auto)]

mod nodes;
mod table;

pub use table::Table;
