//! The tables that lower Direct3D's syncs, accesses, layouts and states to Vulkan's, and their names.
#![tactic(auto)]

mod laws;
mod lowering;
mod names;
mod rows;
mod unions;

pub use laws::{
    accesses_take_in_kinds, layouts_allow_kinds, names_are_of_singles, names_go_both_ways,
    stages_take_in_parts, states_take_in_pairs, syncs_have_stages, the_first_row_counts,
};
pub use lowering::{access_of, layout_of, stage_of, state_of};
pub use names::{
    access_name, access_named, layout_name, layout_named, state_name, state_named, sync_name,
    sync_named,
};
pub use rows::first_row;
