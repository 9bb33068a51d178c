//! The calls of a source or a sink in memory: which fail, how many were made, how many faults came.

ghost use Rattle.std.specs.Prelude.{◌≡◌};
ghost use Rattle.text_io.specs.Calls.{no_calls, fails_next, after_success, after_fault};

use std::marker::Model;

/// The calls so far. Both counts stop at the last number of their type.
#[derive(Debug, Drop)]
pub struct CallCount {
    fails: Vec<u64>,
    made: u64,
    faults: u64,
}

impl Model for CallCount {
    ghost use Rattle.text_io.specs.Calls.{Calls};

    ghost Value = { Calls };

    ghost view = { λ c. record { fails = c.fails.items; made = c.made; faults = c.faults } };
}

impl CallCount {
    /// No call was made. The calls with these numbers, counted from 1, are to fail.
    pub fn new(fails: Vec<u64>) -> CallCount
        ensures { result ≡ no_calls fails.items }
    {
        CallCount {
            fails,
            made: 0,
            faults: 0,
        }
    }

    /// How many faults came.
    pub fn faults(&self) -> u64
        ensures { result ≡ self.now.faults }
    {
        self.faults
    }

    /// Whether the next call is to fail.
    pub fn fails_next(&self) -> bool
        ensures { result ≡ fails_next self.now }
    {
        let made = self.made;
        self.fails
            .iter()
            .any(|k| u128::from(*k) == u128::from(made) + 1)
    }

    /// A call was made.
    pub fn succeed(&mut self)
        ensures { self.new ≡ after_success self.old }
    {
        self.made = self.made.saturating_add(1);
    }

    /// A call was made, and failed.
    pub fn fail(&mut self)
        ensures { self.new ≡ after_fault self.old }
    {
        self.made = self.made.saturating_add(1);
        self.faults = self.faults.saturating_add(1);
    }
}
