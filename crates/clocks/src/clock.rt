//! The clock of a call, an operation, a queue or a fence's update.

ghost use Rattle.std.specs.Prelude.{◌≡◌, ◌<◌, length, IfOk};
ghost use Rattle.clocks.specs.Clocks.{zero_clock, joined, with_op, with_call, knows};
ghost use Rattle.clocks.specs.Clocks.{OfQueue, OfThread};

use crate::numbers::{number_at, raise_each, set_number, zeros};
use dx_base::{Memory, Seq};
use std::alloc::Global;

/// What is known to have come before: of each queue the number up to which its operations are known,
/// and of each thread the number up to which its calls are known. Numbers are counted from 1; 0 means
/// that nothing of the queue or thread is known.
#[derive(Debug, PartialEq, Eq, Drop)]
pub struct Clock {
    pub queues: Seq<u64>,
    pub threads: Seq<u64>,
}

impl Clock {
    /// A clock over that many queues and threads that knows nothing.
    pub fn new(alloc: Global, queues: usize, threads: usize) -> Result<Clock, Memory>
        ensures { IfOk result (λ clock. clock ≡ zero_clock queues threads) }
    {
        let queues = zeros(alloc, queues)?;
        let threads = zeros(alloc, threads)?;
        Ok(Clock { queues, threads })
    }

    /// An equal clock.
    pub fn copied(&self, alloc: Global) -> Result<Clock, Memory>
        ensures { IfOk result (λ clock. clock ≡ self.now) }
    {
        let queues = Seq::from_slice(alloc, self.queues.as_slice())?;
        let threads = Seq::from_slice(alloc, self.threads.as_slice())?;
        Ok(Clock { queues, threads })
    }

    /// Learns what another clock of the same queues and threads knows.
    pub fn join(&mut self, other: &Clock)
        requires queues { length self.old.queues ≡ length other.now.queues }
        requires threads { length self.old.threads ≡ length other.now.threads }
        ensures { self.new ≡ joined self.old other.now }
    {
        raise_each(self.queues.as_mut_slice(), other.queues.as_slice());
        raise_each(self.threads.as_mut_slice(), other.threads.as_slice());
    }

    /// Sets the number of a queue, which may be less than it was.
    pub fn set_op(&mut self, queue: u32, op: u64)
        requires { queue < length self.old.queues }
        ensures { self.new ≡ with_op self.old queue op }
    {
        set_number(self.queues.as_mut_slice(), queue as usize, op);
    }

    /// Sets the number of a thread, which may be less than it was.
    pub fn set_call(&mut self, thread: u32, call: u64)
        requires { thread < length self.old.threads }
        ensures { self.new ≡ with_call self.old thread call }
    {
        set_number(self.threads.as_mut_slice(), thread as usize, call);
    }

    /// Whether an operation of a queue is known.
    pub fn knows_op(&self, queue: u32, op: u64) -> bool
        ensures { result ≡ knows self.now (OfQueue queue op) }
    {
        op <= number_at(self.queues.as_slice(), queue as usize)
    }

    /// Whether a call of a thread is known.
    pub fn knows_call(&self, thread: u32, call: u64) -> bool
        ensures { result ≡ knows self.now (OfThread thread call) }
    {
        call <= number_at(self.threads.as_slice(), thread as usize)
    }
}
