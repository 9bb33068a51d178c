//! The scripts of threads, counted.

ghost use Rattle.std.specs.Prelude.{◌≡◌, ◌++◌, [], ◌∷◌, length, false, OnOk};
ghost use Rattle.d3d_machine.specs.Counts.{lists_of_call};
ghost use Rattle.trace_text.specs.Scripts.{is_call_too_many, with_call};

use d3d_machine::Call;
use dx_base::{CALLS, EXECUTED_LISTS, Memory, Seq};
use std::alloc::Global;
use std::marker::Model;

/// The calls of each thread, in order, with their counts.
#[derive(Drop)]
pub struct Scripts {
    all: Seq<Seq<Call>>,
    calls: usize,
    lists: usize,
}

impl Model for Scripts {
    ghost use Rattle.std.specs.Prelude.{List, ◌≡◌, ◌≤◌};
    ghost use Rattle.d3d_machine.specs.declared.calls.Call.{Call};
    ghost use Rattle.d3d_machine.specs.Counts.{calls_in_all, lists_in_all};

    ghost Value = { List (List Call) };

    ghost view = { λ s. s.all };

    ghost invariant = { λ s. (s.calls ≡ calls_in_all s.all) × (s.lists ≡ lists_in_all s.all) × (s.calls ≤ 65536) × (s.lists ≤ 4096) };
}

/// How many lists a call names to be executed, each naming counted.
fn lists_named(call: &Call) -> usize
    ensures { result ≡ lists_of_call call.now }
{
    match call {
        Call::Execute { queue: _, lists } => lists.len(),
        Call::Recording { list: _, what: _ }
        | Call::Close { list: _ }
        | Call::Reset {
            list: _,
            allocator: _,
        }
        | Call::Signal {
            queue: _,
            fence: _,
            value: _,
        }
        | Call::HostSignal { fence: _, value: _ }
        | Call::HostWait { fence: _, value: _ }
        | Call::Value { fence: _ }
        | Call::Write {
            buffer: _,
            offset: _,
            words: _,
        }
        | Call::Read {
            buffer: _,
            offset: _,
            bytes: _,
        } => 0,
    }
}

impl Scripts {
    /// No scripts; takes no memory.
    pub fn new(alloc: Global) -> Scripts
        ensures { result ≡ [] }
    {
        Scripts {
            all: Seq::new(alloc),
            calls: 0,
            lists: 0,
        }
    }

    pub fn into_seq(self) -> Seq<Seq<Call>>
        ensures { result ≡ self }
    {
        self.all
    }

    /// How many threads there are.
    pub fn len(&self) -> usize
        ensures { result ≡ length self.now }
    {
        self.all.len()
    }

    /// One more call would be too many, or name too many lists with the others.
    #[tactic(auto, unfolding(crate::specs::Scripts::is_call_too_many))]
    pub fn is_call_too_many(&self, call: &Call) -> bool
        ensures { result ≡ is_call_too_many self.now call.now }
    {
        CALLS <= self.calls || EXECUTED_LISTS - self.lists < lists_named(call)
    }

    /// Begins the script of one more thread.
    pub fn start(&mut self, alloc: Global) -> Result<(), Memory>
        ensures { OnOk result (self.new ≡ self.old ++ [] ∷ []) }
    {
        self.all.push(Seq::new(alloc))
    }

    /// Takes one more call of the last thread; where there is none, nothing happens.
    #[tactic(auto, unfolding(crate::specs::Scripts::is_call_too_many, crate::specs::Scripts::with_call))]
    pub fn push(&mut self, call: Call) -> Result<(), Memory>
        requires { is_call_too_many self.old call ≡ false }
        ensures { OnOk result (self.new ≡ with_call self.old call) }
    {
        let Some(last) = self.all.len().checked_sub(1) else {
            return Ok(());
        };
        let lists = lists_named(&call);
        self.all.at_mut(last).push(call)?;
        self.calls += 1;
        self.lists += lists;
        Ok(())
    }
}
