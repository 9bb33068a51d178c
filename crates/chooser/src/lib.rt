//! Where the choices of a run come from.
#![tactic(auto)]

mod choice;
mod list_chooser;
mod pcg_chooser;

pub use choice::Chooser;
pub use list_chooser::ListChooser;
pub use pcg_chooser::PcgChooser;
