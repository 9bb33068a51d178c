//! The lines of traces: their forms, what they mean, and how they are printed.
#![tactic(auto)]

mod form;
mod item;
mod known;
mod later;
mod object;
mod printed;
mod printed_calls;
mod things;

pub use form::{Class, Form, form_of};
pub use item::{Item, item_of};
pub use known::{Known, behind, name_of, names_of_kind};
pub use later::is_later;
pub use object::{Declared, is_refused_size, put_object};
pub use printed::{put_end, put_header, put_start};
pub use printed_calls::put_calls;
pub use things::{KINDS, Thing, place_of, same_kind};
