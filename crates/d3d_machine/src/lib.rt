//! The Direct3D machine: a world's objects and scripts, calls with their replies, command lists, and the
//! machine itself, which takes the steps. What a run of calls means stands in specs/.
#![tactic(auto)]

mod calls;
mod checks;
mod events;
mod laws;
mod listed;
mod lists;
mod machine;
mod naming;
mod thread_places;
mod words;
mod world;

pub use calls::{Call, Record, Reply};
pub use checks::{argument_error, read_refusal, write_refusal};
pub use events::{Command, Event, ListState, Listed, Operation};
pub use laws::{
    pasts_are_right, pasts_have_operations, recorded_commands_lie_inside,
    refused_calls_have_no_effect, runs_follow_scripts, the_steps_are_the_events_that_may_come,
    waits_are_met_since, words_are_apart,
};
pub use lists::Lists;
pub use machine::Machine;
pub use world::{Resource, World};
