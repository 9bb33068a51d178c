//! The routines that dispatches run: which words of their registers they read and write, and which words
//! they store.
#![tactic(auto)]

mod bounds;
mod counts;
mod laws;
mod memory;
mod numbers;
mod puts;
mod stores;
mod touches;
mod uses;

pub use bounds::{Bound, Source0};
pub use laws::{
    actions_that_are_apart_commute, routines_are_actions, stores_are_writes, stores_go_by_reads,
};
pub use memory::WordsOf;
pub use numbers::Numbers;
pub use puts::{Put, puts_by};
pub use stores::{Store, effect};
pub use touches::{Touch, accesses};
pub use uses::{Extent, Uses, read_of_u0};
