//! A source in memory, for tests: it fails at the calls that it is told to.

ghost use Rattle.std.specs.Prelude.{◌≡◌, ◌≤◌, ◌<◌, ◌++◌, min, length, take, Some, IfOk, OnErr, if◌then◌else◌};
ghost use Rattle.std.specs.Result.{is_err};
ghost use Rattle.text_io.specs.Calls.{no_calls, fails_next, after_success, after_fault};

use crate::calls::CallCount;
use crate::outside::{Failed, Source};
use std::marker::Model;

/// A source of given bytes.
#[derive(Debug, Drop)]
pub struct BytesSource {
    bytes: Vec<u8>,
    taken: usize,
    calls: CallCount,
}

impl Model for BytesSource {
    ghost use Rattle.std.specs.Prelude.{◌≤◌, drop, vec_len};
    ghost use Rattle.text_io.specs.Views.{SourceView};

    ghost Value = { SourceView };

    ghost view = { λ s. record { left = drop s.taken s.bytes.items; calls = s.calls } };

    ghost invariant = { λ s. s.taken ≤ vec_len s.bytes };
}

impl BytesSource {
    /// A source of these bytes. Its calls with these numbers, counted from 1, fail.
    pub fn new(bytes: Vec<u8>, fails: Vec<u64>) -> BytesSource
        ensures { result ≡ record { left = bytes.items; calls = no_calls fails.items } }
    {
        BytesSource {
            bytes,
            taken: 0,
            calls: CallCount::new(fails),
        }
    }

    /// How many faults came so far.
    pub fn fault_count(&self) -> u64
        ensures { result ≡ self.now.calls.faults }
    {
        self.calls.faults()
    }
}

impl Source for BytesSource {
    ghost left = { λ s. Some s.left };

    ghost faults = { λ s. s.calls.faults };

    /// Gives as many bytes as the slice has room for, or all that are left.
    fn read(&mut self, into: &mut [u8]) -> Result<usize, Failed>
        requires { 0 < length into.old }
        ensures fails { is_err result ≡ fails_next self.old.calls }
        ensures bound { IfOk result (λ n. n ≤ length into.new) }
        ensures most { IfOk result (λ n. n ≡ min (length into.old) (length self.old.left)) }
        ensures next { IfOk result (λ n. self.old.left ≡ take n into.new ++ self.new.left) }
        ensures calls { self.new.calls
            ≡ (if fails_next self.old.calls then after_fault self.old.calls else after_success self.old.calls) }
        ensures kept { OnErr result (self.new.left ≡ self.old.left) }
    {
        if self.calls.fails_next() {
            self.calls.fail();
            return Err(Failed);
        }
        self.calls.succeed();
        let (_, left) = self.bytes.as_slice().split_at(self.taken);
        let n = into.len().min(left.len());
        into[..n].copy_from_slice(&left[..n]);
        self.taken += n;
        Ok(n)
    }
}
