//! What routines store.

use crate::parts::words_of_buffer;
use crate::registers::Columns;
use crate::slow_machine::SlowMachine;
use crate::words::Word;
use dx_base::{Memory, Routine, Seq};
use vk_types::{Count, Register};

/// A number that is stored into a word of u0.
#[derive(Clone, Copy)]
struct Store {
    at: u64,
    number: u32,
}

/// A dispatch: its routine, its invocations, and what it reads.
#[derive(Clone, Copy)]
struct Run {
    routine: Routine,
    n: u32,
    t0: Option<Columns>,
    t1: Option<Columns>,
    c: u32,
}

/// The word of a view at a place; None past its end.
fn word_at(view: Option<Columns>, at: u64) -> Option<Word> {
    let view = view?;
    if at < view.count {
        Some(Word {
            resource: view.resource,
            at: view.first.saturating_add(at),
        })
    } else {
        None
    }
}

impl SlowMachine {
    /// The number of a word of a view; 0 past its end.
    fn read_at(&self, view: Option<Columns>, at: u64) -> u32 {
        match word_at(view, at) {
            None => 0,
            Some(word) => self.number_of(word).unwrap_or(0),
        }
    }

    /// Stores a number into a word of a view; drops it past its end.
    pub(crate) fn store_at(&mut self, view: Option<Columns>, at: u64, number: u32) {
        if let Some(word) = word_at(view, at) {
            self.set_number(word, Some(number));
        }
    }

    /// How many invocations a dispatch has.
    fn invocations(&self, count: Count) -> u32 {
        match count {
            Count::Number(n) => n,
            Count::Word { buffer, word, most } => {
                let view = words_of_buffer(buffer, word as u64, 1);
                self.read_at(Some(view), 0).min(most)
            }
        }
    }

    /// The sum of at most 64 words, and none of `n` or behind it.
    fn sum_of(&self, view: Option<Columns>, first: u64, n: u64) -> u32 {
        let mut sum = 0u32;
        for at in first..first.saturating_add(64).min(n) {
            sum = sum.wrapping_add(self.read_at(view, at));
        }
        sum
    }

    /// What an invocation stores; None where it is not the first of its group, and the group stores.
    fn store_of(&self, run: Run, i: u64) -> Option<Store> {
        let one = self.read_at(run.t0, i);
        let other = self.read_at(run.t1, i);
        let (at, number) = match run.routine {
            Routine::Fill => (i, run.c),
            Routine::Move => (i, one),
            Routine::Add => (i, one.wrapping_add(other)),
            Routine::Mul => (i, one.wrapping_mul(run.c)),
            Routine::Gather => (i, self.read_at(run.t0, other as u64)),
            Routine::Scatter => (other as u64, one),
            Routine::Histogram => (one as u64, 1),
            Routine::Sums => {
                if i % 64 != 0 {
                    return None;
                }
                (i / 64, self.sum_of(run.t0, i, run.n as u64))
            }
        };
        Some(Store { at, number })
    }

    /// What each invocation stores.
    fn stores_of(&self, run: Run) -> Result<Seq<Store>, Memory> {
        let mut stores = Seq::new(self.alloc);
        for i in 0..run.n as u64 {
            if let Some(store) = self.store_of(run, i) {
                stores.push(store)?;
            }
        }
        Ok(stores)
    }

    /// Counts one more in a word of a view, by its place modulo their number.
    fn count_at(&mut self, view: Option<Columns>, at: u64) {
        let words = match view {
            None => 0,
            Some(view) => view.count,
        };
        if let Some(place) = at.checked_rem(words) {
            let grown = self.read_at(view, place).wrapping_add(1);
            self.store_at(view, place, grown);
        }
    }

    /// Does what a routine stores.
    fn store_each(&mut self, routine: Routine, u0: Option<Columns>, stores: &[Store]) {
        for store in stores {
            if routine == Routine::Histogram {
                self.count_at(u0, store.at);
            } else {
                self.store_at(u0, store.at, store.number);
            }
        }
    }

    /// The first word of b0.
    fn first_of_b0(&self, b0: Register, view: Option<Columns>) -> u32 {
        match b0 {
            Register::Constant(word) => word,
            Register::Unbound
            | Register::Root { .. }
            | Register::Fixed(_)
            | Register::Slot { .. } => self.read_at(view, 0),
        }
    }

    /// Runs a dispatch whose numbers are all known, and whose registers t0, t1, u0 and b0 view these words.
    pub(crate) fn dispatch(
        &mut self,
        routine: Routine,
        count: Count,
        b0: Register,
        views: [Option<Columns>; 4],
    ) -> Result<(), Memory> {
        let [t0, t1, u0, view] = views;
        let stores = self.stores_of(Run {
            routine,
            n: self.invocations(count),
            t0,
            t1,
            c: self.first_of_b0(b0, view),
        })?;
        self.store_each(routine, u0, stores.as_slice());
        drop(stores);
        Ok(())
    }
}
