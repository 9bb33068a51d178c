//! The names that are declared.

ghost use Rattle.std.specs.Prelude.{◌≡◌, [], map, IfOk, OnOk, OnErr, true};
ghost use Rattle.trace_words.specs.Words.{is_name};
ghost use Rattle.std.specs.Option.{option_copied};
ghost use Rattle.std.specs.Str.{bytes_eq};
ghost use Rattle.indexmap.specs.IndexMap.{insert_entry};
ghost use Rattle.trace_lines.specs.Things.{thing_of, number_named, new_name};

use dx_base::{Memory, Seq};
use indexmap::IndexMap;
use line_forms::{Cause, Kind, Naming};
use std::alloc::Global;
use std::marker::Model;
use trace_lines::{Thing, same_kind};
use trace_words::{Name, is_name};

/// The names that are declared, each with what it names, in order of declaration.
#[derive(Drop)]
pub struct NameTable {
    things: IndexMap<Name, Thing>,
}

impl Model for NameTable {
    ghost use Rattle.std.specs.Prelude.{ℕ, List};
    ghost use Rattle.trace_lines.specs.declared.things.Thing.{Thing};

    ghost Value = { List (List ℕ × Thing) };

    ghost view = { λ n. n.things.entries };
}

impl NameTable {
    /// No names; takes no memory.
    pub fn new(alloc: Global) -> NameTable
        ensures { result ≡ [] }
    {
        NameTable {
            things: IndexMap::new(alloc),
        }
    }

    /// What a word names.
    #[tactic(auto, unfolding(trace_lines::specs::Things::thing_of))]
    fn find(&self, word: &[u8]) -> Option<Thing>
        requires { is_name word.now ≡ true }
        ensures { result ≡ thing_of self.now word.now }
    {
        let name = Name::new(word)?;
        self.things.get(&name).copied()
    }

    /// The number of the thing of that kind that a word names. `Form`: the word is spelled as no name; `Name`: it
    /// names no thing of that kind.
    #[tactic(auto, unfolding(trace_lines::specs::Things::number_named))]
    fn number_of(&self, kind: Kind, word: &[u8]) -> Result<u32, Cause>
        ensures { result ≡ number_named kind self.now word.now }
    {
        if !is_name(word) {
            return Err(Cause::Form);
        }
        match self.find(word) {
            Some(thing) if same_kind(kind, thing.kind) => Ok(thing.number),
            _ => Err(Cause::Name),
        }
    }

    /// A word as a new name. `Form`: the word is spelled as no name; `Again`: it is declared; `Limit`: it is too
    /// long.
    #[tactic(auto, unfolding(trace_lines::specs::Things::new_name))]
    fn new_name(&self, word: &[u8]) -> Result<Name, Cause>
        ensures { result ≡ new_name self.now word.now }
    {
        if !is_name(word) {
            return Err(Cause::Form);
        }
        let Some(name) = Name::new(word) else {
            return Err(Cause::Limit);
        };
        if self.things.contains_key(&name) {
            return Err(Cause::Again);
        }
        Ok(name)
    }

    /// Declares a name. Refused for memory, the names stay.
    pub fn declare(&mut self, name: Name, thing: Thing) -> Result<(), Memory>
        ensures ok { OnOk result (self.new ≡ insert_entry bytes_eq self.old name thing) }
        ensures same { OnErr result (self.new ≡ self.old) }
    {
        self.things.insert(name, thing)?;
        Ok(())
    }

    /// The names alone, in order of declaration.
    pub fn into_names(self, alloc: Global) -> Result<Seq<Name>, Memory>
        ensures { IfOk result (λ names. names ≡ map (λ e. e.0) self) }
    {
        let names = self.things.into_keys().collect(alloc)?;
        Ok(Seq::from_vec(names))
    }
}

impl Naming for NameTable {
    ghost use Rattle.trace_text.specs.Reading.{naming_of};

    ghost names = { naming_of };

    fn number(&self, kind: Kind, word: &[u8]) -> Result<u32, Cause> {
        match kind {
            Kind::Queue | Kind::Fence | Kind::Resource | Kind::Allocator | Kind::List => {
                self.number_of(kind, word)
            }
            Kind::Thread => Err(Cause::Name),
        }
    }

    fn fresh(&self, word: &[u8]) -> Result<Name, Cause> {
        self.new_name(word)
    }
}
