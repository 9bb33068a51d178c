//! The words of all resources.

ghost use Rattle.std.specs.Prelude.{ℕ, ◌≡◌, ◌≤◌, ◌/◌, map, take, length, IfOk};
ghost use Rattle.dx_base.specs.Lists.{changed_at, put, range_of};
ghost use Rattle.d3d_machine.specs.State.{words_at, zeros as zeros_of};
ghost use Rattle.d3d_machine.specs.Effects.{after_record, after_commands};
ghost use Rattle.d3d_machine.specs.Machine.{HasSpace};

use crate::calls::Record;
use crate::events::Command;
use crate::world::Resource;
use dx_base::{Memory, ResourceId, Seq};
use std::alloc::Global;
use std::marker::Model;

/// The words of each resource, and space for a copy of as many as the longest has.
#[derive(Debug, Drop)]
pub(crate) struct Words {
    resources: Seq<Seq<u32>>,
    space: Seq<u32>,
}

impl Model for Words {
    ghost use Rattle.std.specs.Prelude.{ℕ, List};
    ghost use Rattle.d3d_machine.specs.Machine.{HasSpace};

    ghost Value = { List (List ℕ) };

    ghost view = { λ it. it.resources };

    ghost invariant = { λ it. HasSpace it.space it.resources };
}

impl Words {
    /// Zeros for each live resource.
    #[tactic(auto, using(crate::proofs::Resources::space_made))]
    pub fn new(alloc: Global, resources: &[Option<Resource>]) -> Result<Words, Memory>
        ensures { IfOk result (λ words. words ≡ map zeros_of resources.now) }
    {
        let mut words = Seq::new(alloc);
        for resource in resources {
            words.push(zeros(alloc, *resource)?)?;
        }
        let space = Seq::from_vec(vec![in alloc; 0; longest(&words)]?);
        Ok(Words {
            resources: words,
            space,
        })
    }

    /// Puts words into a resource from the word `first` on; what would lie past its end is left out.
    #[tactic(auto, using(crate::proofs::Resources::space_put))]
    pub fn put(&mut self, resource: ResourceId, first: u64, new: &[u32])
        ensures { self.new ≡ changed_at (put first new.now) resource.0 self.old }
    {
        put_at(&mut self.resources, resource, first, new);
    }

    /// A copy of words of a resource from the word `first` on, as far as there are.
    pub fn range(
        &self,
        alloc: Global,
        resource: ResourceId,
        first: u64,
        count: u64,
    ) -> Result<Seq<u32>, Memory>
        ensures { IfOk result (λ words. words ≡ range_of first count (words_at self.now resource.0)) }
    {
        Seq::from_slice(alloc, range(&self.resources, resource, first, count))
    }

    /// Does what a recorded command does. Takes no memory.
    #[tactic(auto, using(crate::proofs::Resources::space_put))]
    fn run(&mut self, what: Record)
        ensures { self.new ≡ after_record what self.old }
    {
        match what {
            Record::Copy {
                to,
                to_offset,
                from,
                from_offset,
                bytes,
            } => {
                let count = load(
                    &mut self.space,
                    &self.resources,
                    from,
                    from_offset / 4,
                    bytes / 4,
                );
                let (chosen, _) = self.space.as_slice().split_at(count);
                put_at(&mut self.resources, to, to_offset / 4, chosen);
            }
        }
    }

    /// Does what commands do, in order. Takes no memory.
    pub fn run_all(&mut self, commands: &[Command])
        ensures { self.new ≡ after_commands commands.now self.old }
    {
        for command in commands {
            self.run(command.what);
        }
    }
}

/// The words of a resource at first: zeros, and none where it is dead.
fn zeros(alloc: Global, resource: Option<Resource>) -> Result<Seq<u32>, Memory>
    ensures { IfOk result (λ words. words ≡ zeros_of resource) }
{
    match resource {
        Some(Resource::Buffer { home: _, words }) => {
            Ok(Seq::from_vec(vec![in alloc; 0; words as usize]?))
        }
        None => Ok(Seq::new(alloc)),
    }
}

/// The length of the longest list.
fn longest(lists: &Seq<Seq<u32>>) -> usize
    ensures { (r : ℕ) → length (words_at lists.now r) ≤ result }
{
    let mut most = 0;
    for list in lists.as_slice() {
        most = list.len().max(most);
    }
    most
}

/// Puts words into a list from the word `first` on; what would lie past its end is left out.
fn put_words(words: &mut Seq<u32>, first: u64, new: &[u32])
    ensures { words.new ≡ put first new.now words.old }
{
    let start = (first as usize).min(words.len());
    let count = new.len().min(words.len() - start);
    words.as_mut_slice()[start..start + count].copy_from_slice(&new[..count]);
}

/// Puts words into one of some lists; into none, where it is not there.
#[tactic(auto, using(dx_base::proofs::Lists::write_is_changed, dx_base::proofs::Lists::changed_past))]
fn put_at(lists: &mut Seq<Seq<u32>>, resource: ResourceId, first: u64, new: &[u32])
    ensures { lists.new ≡ changed_at (put first new.now) resource.0 lists.old }
{
    let at = resource.0 as usize;
    if at < lists.len() {
        put_words(lists.at_mut(at), first, new);
    }
}

/// Words of one of some lists from the word `first` on, as far as there are; none, where it is not there.
#[tactic(auto, using(crate::proofs::Resources::range_none))]
fn range(lists: &Seq<Seq<u32>>, resource: ResourceId, first: u64, count: u64) -> &[u32]
    ensures { result.now ≡ range_of first count (words_at lists.now resource.0) }
{
    match lists.get(resource.0 as usize) {
        Some(words) => {
            let (_, rest) = words.as_slice().split_at((first as usize).min(words.len()));
            let (chosen, _) = rest.split_at((count as usize).min(rest.len()));
            chosen
        }
        None => &[],
    }
}

/// Copies words of one of some lists into the space, and answers how many they are.
fn load(
    space: &mut Seq<u32>,
    lists: &Seq<Seq<u32>>,
    resource: ResourceId,
    first: u64,
    count: u64,
) -> usize
    requires { HasSpace space.old lists.now }
    ensures words { take result space.new ≡ range_of first count (words_at lists.now resource.0) }
    ensures inside { result ≤ length space.new }
    ensures length { length space.new ≡ length space.old }
{
    let chosen = range(lists, resource, first, count);
    put_words(space, 0, chosen);
    chosen.len()
}
