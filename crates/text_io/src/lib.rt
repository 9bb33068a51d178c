//! Where the bytes of a text come from and go to, with counts of the faults on the way.
#![tactic(auto)]

mod all;
mod bytes_sink;
mod bytes_source;
mod calls;
mod no_sink;
mod outside;
mod std_sink;
mod std_source;

pub use all::{ReadAll, read_all, write_all};
pub use bytes_sink::BytesSink;
pub use bytes_source::BytesSource;
pub use no_sink::NoSink;
pub use outside::{Failed, Sink, Source};
pub use std_sink::StdSink;
pub use std_source::StdSource;
