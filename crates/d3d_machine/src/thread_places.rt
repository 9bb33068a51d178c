//! The places of threads in their scripts.

ghost use Rattle.std.specs.Prelude.{◌≡◌, ◌<◌, ◌+◌, ◌^◌, map, None, IfOk, is_some};
ghost use Rattle.d3d_machine.specs.State.{opening_place};
ghost use Rattle.d3d_machine.specs.Play.{is_marked};
ghost use Rattle.d3d_machine.specs.Effects.{begins_wait, marked_wait, marked_place};
ghost use Rattle.d3d_machine.specs.Machine.{waiting_of};

use crate::calls::Call;
use dx_base::{FenceId, Memory, Seq};
use std::alloc::Global;
use std::marker::Model;

/// A wait on a fence, with the mark that it is met.
#[derive(Clone, Copy, Debug, PartialEq, Eq)]
pub(crate) struct Wait {
    fence: FenceId,
    value: u64,
    marked: bool,
}

impl Wait {
    /// The wait when a fence has taken a value, which may meet it.
    fn after_value(self, fence: FenceId, value: u64) -> Wait
        ensures { waiting_of result ≡ marked_wait fence.0 value (waiting_of self) }
    {
        Wait {
            fence: self.fence,
            value: self.value,
            marked: self.marked || (self.fence.0 == fence.0 && self.value <= value),
        }
    }
}

/// A thread's place: how many of its calls are answered, and the wait from which it has not woken.
#[derive(Debug, Drop)]
pub(crate) struct ThreadPlace {
    made: usize,
    waits: Option<Wait>,
}

impl Model for ThreadPlace {
    ghost use Rattle.std.specs.Option.{option_map};
    ghost use Rattle.d3d_machine.specs.State.{Place};
    ghost use Rattle.d3d_machine.specs.Machine.{waiting_of};

    ghost Value = { Place };

    ghost view = { λ it. record { made = it.made; waits = option_map waiting_of it.waits } };
}

impl ThreadPlace {
    /// Before the first call.
    fn opening() -> ThreadPlace
        ensures { result ≡ opening_place }
    {
        ThreadPlace {
            made: 0,
            waits: None,
        }
    }

    /// How many calls are answered.
    pub fn made(&self) -> usize
        ensures { result ≡ self.now.made }
    {
        self.made
    }

    /// Whether the thread waits.
    pub fn is_waiting(&self) -> bool
        ensures { result ≡ is_some self.now.waits }
    {
        self.waits.is_some()
    }

    /// Whether the thread waits, and its wait is met.
    pub fn is_met(&self) -> bool
        ensures { result ≡ is_marked self.now.waits }
    {
        match self.waits {
            Some(wait) => wait.marked,
            None => false,
        }
    }

    /// Counts a call.
    pub fn count(&mut self)
        requires { self.old.made + 1 < 2 ^ 64 }
        ensures { self.new ≡ record self.old { made = self.old.made + 1 } }
    {
        self.made += 1;
    }

    /// Begins a wait on a fence that has the value `now`: it is met at once where that suffices.
    pub fn begin_wait(&mut self, now: u64, fence: FenceId, value: u64)
        ensures { self.new ≡ begins_wait now fence.0 value self.old }
    {
        self.waits = Some(Wait {
            fence,
            value,
            marked: value <= now,
        });
    }

    /// A fence takes a value, which may meet the wait.
    fn mark(&mut self, fence: FenceId, value: u64)
        ensures { self.new ≡ marked_place fence.0 value self.old }
    {
        match self.waits {
            Some(wait) => self.waits = Some(wait.after_value(fence, value)),
            None => (),
        }
    }

    /// Goes on behind the wait.
    pub fn wake(&mut self)
        ensures { self.new ≡ record self.old { waits = None } }
    {
        self.waits = None;
    }
}

/// A place for each thread, before its first call.
#[tactic(auto, using(dx_base::proofs::Lists::same_for_more))]
pub(crate) fn opening_places(
    alloc: Global,
    scripts: &[Seq<Call>],
) -> Result<Seq<ThreadPlace>, Memory>
    ensures { IfOk result (λ places. places ≡ map (λ _. opening_place) scripts.now) }
{
    let mut places = Seq::new(alloc);
    for script in scripts {
        let _calls = script.len();
        places.push(ThreadPlace::opening())?;
    }
    Ok(places)
}

/// A fence takes a value, which may meet waits on it.
pub(crate) fn mark_all(places: &mut Seq<ThreadPlace>, fence: FenceId, value: u64)
    ensures { places.new ≡ map (marked_place fence.0 value) places.old }
{
    for at in 0..places.len() {
        places.at_mut(at).mark(fence, value);
    }
}
