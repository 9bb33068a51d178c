//! Recorded copies and barriers become commands of a device, and the layouts of its images go along.
#![tactic(auto)]

mod barriers;
mod image_changes;
mod laws;
mod layouts;
mod lowered;
mod lowering;
mod numbers;
mod recorded;
mod records;
mod startup;

pub use laws::{
    barriers_keep_their_scopes, changes_are_exact, layouts_decide_no_more, layouts_stay_whole,
    lists_come_in_turn, lowered_is_supported, startup_gives_first_layouts, tables_keep_order,
};
pub use layouts::Layouts;
pub use lowered::Lowered;
pub use lowering::lower;
pub use numbers::Numbers;
pub use recorded::are_recorded;
pub use records::Record;
pub use startup::startup_commands;
