//! A second judge, written word by word from the rules and as slow as it likes, which the judge is compared with.
#![tactic(auto)]

mod chance;
mod dice;
mod events;
mod happenings;
mod known;
#[cfg(test)]
mod list_rows;
#[cfg(test)]
mod machine_rows;
mod player;
mod rules;
mod scopes;
mod scripts;
mod second;
#[cfg(test)]
mod tests;
mod words;

pub use chance::some_script;
pub use dice::Dice;
pub use events::{Events, subs_of};
pub use happenings::{Deed, Happening, Piece, What, Work};
pub use known::Known;
pub use player::{Judged, Player, Turn};
pub use scripts::{FIRST, READBACK, SECOND, Step, UPLOAD, call_of, scripts_of, world};
pub use second::Second;
pub use words::{Doing, Stretch, Sub, Word};
