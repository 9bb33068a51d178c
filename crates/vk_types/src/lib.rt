//! The data of the Vulkan side: stages and accesses, commands and batches, the objects of a device, and
//! the steps that its machine is told of.
#![tactic(auto)]

mod accesses;
mod batches;
mod commands;
mod laws;
mod layouts;
mod plan;
mod registers;
mod stages;
mod steps;
mod support;
mod timelines;

pub use accesses::{Access, AccessGroup, Accesses};
pub use batches::Batch;
pub use commands::VkCommand;
pub use laws::support_means_what_it_says;
pub use layouts::{Change, VkLayout};
pub use plan::{DevicePlan, PlanBuffer, PlanImage, PlanView};
pub use registers::{Count, Register};
pub use stages::{Stage, Stages};
pub use steps::VkStep;
pub use support::{supports, supports_access};
pub use timelines::{are_reached, set_timelines, timeline_value};
