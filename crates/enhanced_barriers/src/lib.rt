//! Enhanced barriers: which are legal, and which accesses they cover.
#![tactic(auto)]

mod barriers;
mod cover;
mod laws;
mod legality;

pub use barriers::{Barrier, Scope};
pub use cover::covers;
pub use laws::{
    copies_are_legal_everywhere, covers_goes_by_pairs, legal_means_what_it_says,
    no_legal_layout_is_lost,
};
pub use legality::legal;
