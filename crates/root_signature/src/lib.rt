//! Root signatures: which are refused, what they cost, what their flags promise, and where a register lies in
//! one.
#![tactic(auto)]

mod costs;
mod fixities;
mod flags;
mod laws;
mod params;
mod places;
mod ranges;
mod refusals;
mod signatures;
mod twice;
mod versions;

pub use costs::cost;
pub use fixities::{Effective, Fixity};
pub use flags::{
    DATA_STATIC, DATA_STATIC_WHILE_SET_AT_EXECUTE, DATA_VOLATILE,
    DESCRIPTORS_STATIC_KEEPING_BUFFER_BOUNDS_CHECKS, DESCRIPTORS_VOLATILE, effective,
};
pub use laws::signatures_are_sound;
pub use params::Param;
pub use places::Place;
pub use ranges::Range;
pub use signatures::{BuildFault, Signature, build};
pub use versions::Version;
