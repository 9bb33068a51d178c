//! The Vulkan machine: the rules of queues, barriers, timeline semaphores and memory accesses (Vulkan 1.3,
//! chapter 7) as definitions with their laws, and `VkMachine`, which judges a list of steps by them.
#![tactic(auto)]

mod access_sets;
mod accesses;
mod command_rules;
mod commands;
mod copies;
mod counts;
mod dispatches;
mod enabled;
mod first_state;
mod host;
mod journal;
mod last_tests;
mod last_writes;
mod laws;
mod layouts;
mod machine;
mod made;
mod moves;
mod numbers;
mod numbers_read;
mod orders;
mod pending;
mod pieces;
mod places;
mod progress;
mod ranges;
mod registers;
mod routine_numbers;
mod rules;
mod runs;
mod scopes;
mod sizes;
mod slots;
mod state_parts;
mod updates;
mod verdicts;

pub use accesses::{DoneAccess, Gain, Maker};
pub use counts::{Counts, Done};
pub use laws::{
    accesses_stay_behind_barriers, accesses_stay_owned, batches_know, batches_stay_ended,
    batches_stay_passed, earlier_accesses_enter, ends_signal_accesses,
    entered_accesses_come_before, first_states_begin, full_barriers_clear, gains_add_scopes,
    host_barriers_show, host_reads_see, knowledge_goes_on, known_accesses_enter,
    known_batches_are_done, last_writes_are_last, nothing_shrinks, rows_compute, runs_stay_sound,
    submissions_order_the_host, values_rise,
};
pub use machine::VkMachine;
pub use places::Place;
pub use progress::Progress;
pub use ranges::{VkResource, WordRange};
pub use rules::VkRule;
pub use verdicts::VkVerdict;
