//! The port to a Vulkan device: its contract, and a plain device that meets it.
#![tactic(auto)]

mod ahead;
mod batches;
mod calls;
mod device;
mod faults;
mod find;
mod found;
mod fronts;
mod kept;
mod lanes;
mod laws;
mod plain;
mod queues;
mod read_laws;
mod sets;
mod steps;
mod store;
mod tracked;
mod words;

pub use device::VkDevice;
pub use faults::DeviceFault;
pub use kept::{Kept, Note};
pub use lanes::{Lane, Running};
pub use laws::{
    a_submission_adds_its_steps, each_step_leaves_fewer, each_step_means_what_it_says,
    states_keep_their_objects, states_show_the_machine, states_stay_valid,
    what_is_offered_is_enabled, what_may_be_done_is_offered,
};
pub use plain::PlainDevice;
pub use read_laws::{
    barriers_are_named, host_reads_what_stands, known_words_stay_known,
    led_commands_read_what_stands, queues_stay_settled, read_rows_compute, seen_answers_are_fixed,
    settled_copies_are_known, settled_host_reads_are_known, states_stay_begun,
};
pub use sets::{NoSets, Sets};
pub use steps::Stepped;
pub use vk_types::{
    Accesses, Batch, Change, Count, DevicePlan, PlanBuffer, PlanImage, PlanView, Register, Stages,
    VkCommand, VkLayout,
};
