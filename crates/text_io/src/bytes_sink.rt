//! A sink in memory, for tests: it fails at the calls that it is told to, and where it is full.

ghost use Rattle.std.specs.Prelude.{◌≡◌, ◌≤◌, ◌<◌, ◌-◌, [], ◌++◌, min, length, take, Some, IfOk, OnErr, if◌then◌else◌};
ghost use Rattle.std.specs.Result.{is_err};
ghost use Rattle.text_io.specs.Calls.{no_calls, after_success, after_fault};
ghost use Rattle.text_io.specs.Views.{refuses_next};

use crate::calls::CallCount;
use crate::outside::{Failed, Sink};
use dx_base::Memory;
use std::alloc::Global;
use std::marker::Model;

/// A sink that holds what it took.
#[derive(Debug, Drop)]
pub struct BytesSink {
    bytes: Vec<u8>,
    room: usize,
    calls: CallCount,
}

impl Model for BytesSink {
    ghost use Rattle.std.specs.Prelude.{◌+◌, ◌≤◌, vec_len, vec_capacity};
    ghost use Rattle.text_io.specs.Views.{SinkView};

    ghost Value = { SinkView };

    ghost view = { λ s. record { held = s.bytes.items; room = s.room; calls = s.calls } };

    ghost invariant = { λ s. vec_len s.bytes + s.room ≤ vec_capacity s.bytes };
}

impl BytesSink {
    /// A sink with room for so many bytes, which it takes here: a write takes no memory. Its calls
    /// with these numbers, counted from 1, fail.
    pub fn new(alloc: Global, room: usize, fails: Vec<u64>) -> Result<BytesSink, Memory>
        ensures { IfOk result (λ sink. sink ≡ record { held = []; room = room; calls = no_calls fails.items }) }
    {
        let bytes = Vec::with_capacity(alloc, room)?;
        Ok(BytesSink {
            bytes,
            room,
            calls: CallCount::new(fails),
        })
    }

    /// The bytes that it took.
    pub fn held(&self) -> &[u8]
        ensures { result.now ≡ self.now.held }
    {
        self.bytes.as_slice()
    }

    /// How many faults came so far.
    pub fn fault_count(&self) -> u64
        ensures { result ≡ self.now.calls.faults }
    {
        self.calls.faults()
    }
}

impl Sink for BytesSink {
    ghost held = { λ s. Some s.held };

    ghost faults = { λ s. s.calls.faults };

    /// Takes the whole slice, or as much of it as there is room for.
    fn write(&mut self, from: &[u8]) -> Result<usize, Failed>
        requires { 0 < length from.now }
        ensures fails { is_err result ≡ refuses_next self.old }
        ensures most { IfOk result (λ n. n ≡ min (length from.now) self.old.room) }
        ensures next { IfOk result (λ n. self.new.held ≡ self.old.held ++ take n from.now) }
        ensures room { IfOk result (λ n. self.new.room ≡ self.old.room - n) }
        ensures calls { self.new.calls
            ≡ (if refuses_next self.old then after_fault self.old.calls else after_success self.old.calls) }
        ensures kept { OnErr result (self.new.held ≡ self.old.held) }
        ensures kept_room { OnErr result (self.new.room ≡ self.old.room) }
    {
        if self.calls.fails_next() || self.room == 0 {
            self.calls.fail();
            return Err(Failed);
        }
        self.calls.succeed();
        let n = from.len().min(self.room);
        self.room -= n;
        match self.bytes.extend_from_slice(&from[..n]) {
            Ok(()) => Ok(n),
            Err(_) => unreachable!(),
        }
    }
}
