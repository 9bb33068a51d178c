//! A sink that takes everything and keeps nothing.

ghost use Rattle.std.specs.Prelude.{◌≡◌, ◌<◌, length, Ok};

use crate::outside::{Failed, Sink};

/// A sink that takes each slice whole, and tells nothing.
#[derive(Clone, Copy, Debug)]
pub struct NoSink;

impl NoSink {
    /// The sink; it takes no memory.
    pub fn new() -> NoSink {
        NoSink
    }
}

impl Sink for NoSink {
    ghost faults = { λ _. 0 };

    /// Takes the whole slice.
    fn write(&mut self, from: &[u8]) -> Result<usize, Failed>
        requires { 0 < length from.now }
        ensures { result ≡ Ok (length from.now) }
    {
        Ok(from.len())
    }
}
