//! What is known to have come before.

use dx_base::Memory;
use std::alloc::Global;

/// Who did something: an operation of a queue, or a call of a thread, by its number, counted from 1.
#[derive(Clone, Copy)]
pub enum Doer {
    Operation(u32, u64),
    Call(u32, u64),
}

/// A queue or a thread, with the number up to which it is known.
#[derive(Clone, Copy)]
pub struct UpTo {
    pub queue: bool,
    pub at: u32,
    pub number: u64,
}

/// What is known: of each queue and thread of the list, each up to a number.
#[derive(Drop)]
pub struct Known {
    pub all: Vec<UpTo>,
}

impl Known {
    /// Nothing is known.
    pub fn nothing(alloc: Global) -> Known {
        Known {
            all: Vec::new(alloc),
        }
    }

    /// The same.
    pub fn copied(&self) -> Result<Known, Memory> {
        let all = self.all.clone()?;
        Ok(Known { all })
    }

    /// Up to which number a queue or a thread is known.
    pub fn number(&self, queue: bool, at: u32) -> u64 {
        let mut number = 0;
        for one in &self.all {
            if one.queue == queue && one.at == at && one.number > number {
                number = one.number;
            }
        }
        number
    }

    /// A queue or a thread is known up to that number at least.
    pub fn learn(&mut self, queue: bool, at: u32, number: u64) -> Result<(), Memory> {
        if self.number(queue, at) < number {
            self.all.retain(|one| one.queue != queue || one.at != at);
            self.all.push(UpTo { queue, at, number })?;
        }
        Ok(())
    }

    /// All that another knows is known.
    pub fn join(&mut self, other: &Known) -> Result<(), Memory> {
        for one in &other.all {
            self.learn(one.queue, one.at, one.number)?;
        }
        Ok(())
    }

    /// Whether something that was done is known.
    pub fn knows(&self, doer: Doer) -> bool {
        match doer {
            Doer::Operation(queue, number) => number <= self.number(true, queue),
            Doer::Call(thread, number) => number <= self.number(false, thread),
        }
    }
}
