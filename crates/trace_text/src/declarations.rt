//! The objects that are declared, counted.

ghost use Rattle.std.specs.Prelude.{◌≡◌, ◌++◌, [], ◌∷◌, false, OnOk};
ghost use Rattle.trace_lines.specs.Kinds.{count_of, most_of, is_one_too_many, next_thing};

use dx_base::{ALL_WORDS, ALLOCATORS, FENCES, LISTS, Memory, QUEUES, RESOURCES, Seq, THREADS};
use line_forms::Kind;
use std::alloc::Global;
use std::marker::Model;
use trace_lines::{Declared, Thing, place_of};

/// The objects that are declared, in order, with their counts by the places of their kinds.
#[derive(Drop)]
pub struct Declarations {
    list: Seq<Declared>,
    counts: [u32; 6],
    words: u64,
}

impl Model for Declarations {
    ghost use Rattle.std.specs.Prelude.{List};
    ghost use Rattle.trace_lines.specs.declared.object.Declared.{Declared};
    ghost use Rattle.trace_text.specs.Counted.{IsCounted};

    ghost Value = { List Declared };

    ghost view = { λ d. d.list };

    ghost invariant = { λ d. IsCounted d.list d.counts d.words };
}

/// How many things of a kind a trace has at most.
fn most(kind: Kind) -> u32
    ensures { result ≡ most_of kind }
{
    match kind {
        Kind::Queue => QUEUES as u32,
        Kind::Fence => FENCES as u32,
        Kind::Resource => RESOURCES as u32,
        Kind::Allocator => ALLOCATORS as u32,
        Kind::List => LISTS as u32,
        Kind::Thread => THREADS as u32,
    }
}

impl Declarations {
    /// No objects; takes no memory.
    pub fn new(alloc: Global) -> Declarations
        ensures { result ≡ [] }
    {
        Declarations {
            list: Seq::new(alloc),
            counts: [0; 6],
            words: 0,
        }
    }

    pub fn into_seq(self) -> Seq<Declared>
        ensures { result ≡ self }
    {
        self.list
    }

    /// How many objects of a kind there are.
    pub fn count(&self, kind: Kind) -> u32
        ensures { result ≡ count_of kind self.now }
    {
        self.counts[place_of(kind)]
    }

    /// One more object would be too many, or have too many words with the others.
    #[tactic(auto, unfolding(trace_lines::specs::Kinds::is_one_too_many))]
    pub fn is_one_too_many(&self, object: &Declared) -> bool
        ensures { result ≡ is_one_too_many self.now object.now }
    {
        most(object.kind()) <= self.count(object.kind())
            || u64::from(ALL_WORDS) < self.words + object.words()
    }

    /// What the next object's name names.
    pub fn next(&self, object: &Declared) -> Thing
        ensures { result ≡ next_thing self.now object.now }
    {
        Thing {
            kind: object.kind(),
            number: self.count(object.kind()),
        }
    }

    /// Takes one more object.
    #[tactic(auto, unfolding(trace_lines::specs::Kinds::is_one_too_many))]
    pub fn push(&mut self, object: Declared) -> Result<(), Memory>
        requires { is_one_too_many self.old object ≡ false }
        ensures { OnOk result (self.new ≡ self.old ++ object ∷ []) }
    {
        let (kind, words) = (object.kind(), object.words());
        self.list.push(object)?;
        self.words += words;
        self.counts[place_of(kind)] += 1;
        Ok(())
    }
}
