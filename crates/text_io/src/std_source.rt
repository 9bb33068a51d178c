//! A source over one of the standard library's readers.

ghost use Rattle.std.specs.Prelude.{◌≡◌, ◌<◌, ◌≤◌, ◌^◌, ◌-◌, length, IfOk, IsErr, if◌then◌else◌};
ghost use Rattle.std.specs.Result.{is_err};
ghost use Rattle.std.specs.Io.KnownBytes.{ReadConsumes};
ghost use Rattle.text_io.specs.Calls.{one_more};

use crate::outside::{Failed, Source};
use std::io::Read;
use std::marker::Model;

/// A source over a reader. It tells nothing of its bytes.
#[derive(Debug, Drop)]
pub struct StdSource<R> {
    inner: R,
    faults: u64,
}

impl<R> Model for StdSource<R> {
    ghost use Rattle.text_io.specs.Views.{StdView};

    ghost Value = { StdView R };

    ghost view = { λ s. record { inner = s.inner; faults = s.faults } };
}

impl<R> StdSource<R> {
    /// A source over this reader, with no fault so far.
    pub fn new(inner: R) -> StdSource<R>
        ensures { result ≡ record { inner = inner; faults = 0 } }
    {
        StdSource { inner, faults: 0 }
    }

    /// The reader.
    pub fn into_inner(self) -> R
        ensures { result ≡ self.inner }
    {
        self.inner
    }
}

impl<R: Read> Source for StdSource<R> {
    ghost faults = { λ s. s.faults };

    /// Reads once, and counts an error of the reader as a fault. Where the count stands at the last
    /// number of its type, it fails without a call.
    fn read(&mut self, into: &mut [u8]) -> Result<usize, Failed>
        requires { 0 < length into.old }
        ensures bound { IfOk result (λ n. n ≤ length into.new) }
        ensures bytes { ReadConsumes (R.remaining self.old.inner) (R.remaining self.new.inner) result into.new }
        ensures faults { self.new.faults ≡ (if is_err result then one_more self.old.faults else self.old.faults) }
        ensures spent { self.old.faults ≡ 2 ^ 64 - 1 → IsErr result }
        ensures spent_stays { self.old.faults ≡ 2 ^ 64 - 1 → self.new ≡ self.old }
    {
        if self.faults == u64::MAX {
            return Err(Failed);
        }
        match self.inner.read(into) {
            Ok(n) => Ok(n),
            Err(_) => {
                self.faults += 1;
                Err(Failed)
            }
        }
    }
}
