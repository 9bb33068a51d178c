//! The Vulkan machine.

use crate::accesses::DoneAccess;
use crate::counts::{Counts, Done};
use crate::numbers::NumberTable;
use crate::progress::Progress;
use crate::rules::VkRule;
use dx_base::Seq;
use std::alloc::Global;
use vk_types::{DevicePlan, VkLayout};

/// The Vulkan machine: what it knows of batches, commands, accesses, layouts and numbers.
#[derive(Drop)]
pub struct VkMachine {
    pub(crate) alloc: Global,
    pub(crate) plan: DevicePlan,
    pub(crate) numbers: NumberTable,
    pub(crate) layouts: Seq<Seq<VkLayout>>,
    pub(crate) progress: Progress<Counts>,
    pub(crate) done: Seq<Done>,
    pub(crate) accesses: Seq<DoneAccess>,
    pub(crate) broken: Option<VkRule>,
    pub(crate) serial: bool,
}
