//! The whole system: it serves the calls of threads, lowers operations to batches, and runs a device.
#![tactic(auto)]

mod device_steps;
mod faults;
mod fences;
mod finished;
mod laws;
mod lowering;
mod nth;
mod over;
mod parts;
mod serve;
mod sys;
mod threads;
mod waits;
mod worker;

pub use faults::SysFault;
pub use laws::a_step_is_enabled_where_the_machine_has_one;
pub use lowering::{batch_of, plan_of};
pub use over::Over;
pub use parts::{Armed, Held, Parts, Seat, Signalled};
pub use sys::Sys;
