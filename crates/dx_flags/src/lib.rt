//! Sets of synchronization scopes, of accesses and of resource states, and the tables of what they stand for.
#![tactic(auto)]

mod accesses;
mod atoms;
mod fitting;
mod laws;
mod layouts;
mod states;
mod syncs;

pub use accesses::{Access, kinds};
pub use atoms::{Kind, Part};
pub use fitting::fits;
pub use laws::{
    atoms_stay, generic_read_is_the_read_states, layouts_and_common, sets_are_their_names,
    singles_have_one, tables_go_by_names, unions_have_both, well_formed_sets_have_names,
};
pub use layouts::{Layout, allowed};
pub use states::State;
pub use syncs::{Sync, parts};
