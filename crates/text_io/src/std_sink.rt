//! A sink over one of the standard library's writers.

ghost use Rattle.std.specs.Prelude.{◌≡◌, ◌<◌, ◌≤◌, ◌^◌, ◌-◌, length, IfOk, IsErr, if◌then◌else◌};
ghost use Rattle.std.specs.Result.{is_err};
ghost use Rattle.std.specs.Io.KnownBytes.{WriteAppends};
ghost use Rattle.text_io.specs.Calls.{one_more};

use crate::outside::{Failed, Sink};
use std::io::Write;
use std::marker::Model;

/// A sink over a writer. It tells nothing of its bytes.
#[derive(Debug, Drop)]
pub struct StdSink<W> {
    inner: W,
    faults: u64,
}

impl<W> Model for StdSink<W> {
    ghost use Rattle.text_io.specs.Views.{StdView};

    ghost Value = { StdView W };

    ghost view = { λ s. record { inner = s.inner; faults = s.faults } };
}

impl<W> StdSink<W> {
    /// A sink over this writer, with no fault so far.
    pub fn new(inner: W) -> StdSink<W>
        ensures { result ≡ record { inner = inner; faults = 0 } }
    {
        StdSink { inner, faults: 0 }
    }

    /// The writer.
    pub fn into_inner(self) -> W
        ensures { result ≡ self.inner }
    {
        self.inner
    }
}

impl<W: Write> Sink for StdSink<W> {
    ghost faults = { λ s. s.faults };

    /// Writes once, and counts as a fault an error of the writer, and also that it took nothing.
    /// Where the count stands at the last number of its type, it fails without a call.
    fn write(&mut self, from: &[u8]) -> Result<usize, Failed>
        requires { 0 < length from.now }
        ensures some { IfOk result (λ n. 0 < n) }
        ensures bound { IfOk result (λ n. n ≤ length from.now) }
        ensures bytes { WriteAppends (W.contents self.old.inner) (W.contents self.new.inner) result from.now }
        ensures faults { self.new.faults ≡ (if is_err result then one_more self.old.faults else self.old.faults) }
        ensures spent { self.old.faults ≡ 2 ^ 64 - 1 → IsErr result }
        ensures spent_stays { self.old.faults ≡ 2 ^ 64 - 1 → self.new ≡ self.old }
    {
        if self.faults == u64::MAX {
            return Err(Failed);
        }
        match self.inner.write(from) {
            Ok(n) if n > 0 => Ok(n),
            _ => {
                self.faults += 1;
                Err(Failed)
            }
        }
    }
}
