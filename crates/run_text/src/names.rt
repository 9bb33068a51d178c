//! What a run's output speaks of: the names of objects, and what is left at the end of the run.

ghost use Rattle.std.specs.Prelude.{◌≡◌, map, IfOk};
ghost use Rattle.run_text.specs.History.{names_from};

use dx_base::{Memory, Seq};
use line_forms::Kind;
use std::alloc::Global;
use trace_lines::{Declared, behind, names_of_kind};
use trace_words::Name;

/// The names of a trace's objects by kind, each list in the order of numbers.
#[derive(Debug, PartialEq, Eq, Drop)]
pub struct Names {
    pub threads: Seq<Seq<u8>>,
    pub queues: Seq<Seq<u8>>,
    pub fences: Seq<Seq<u8>>,
}

/// What a run leaves: each fence's value, and the numbers of the unfinished threads and of the queues that are
/// not empty.
#[derive(Debug, PartialEq, Eq, Drop)]
pub struct Ending {
    pub fences: Seq<u64>,
    pub threads: Seq<u32>,
    pub queues: Seq<u32>,
}

/// A copy of names.
fn copied_names(alloc: Global, names: &[Name]) -> Result<Seq<Seq<u8>>, Memory>
    ensures { IfOk result (λ copy. copy ≡ names.now) }
{
    let mut copy = Seq::new(alloc);
    for name in names {
        copy.push(Seq::from_slice(alloc, name.as_bytes())?)?;
    }
    Ok(copy)
}

/// A copy of names that are lent.
fn copied_lent(alloc: Global, names: &[&Name]) -> Result<Seq<Seq<u8>>, Memory>
    ensures { IfOk result (λ copy. copy ≡ map (λ n. n.now) names.now) }
{
    let mut copy = Seq::new(alloc);
    for name in names {
        copy.push(Seq::from_slice(alloc, name.as_bytes())?)?;
    }
    Ok(copy)
}

/// The names of the threads, queues and fences of a trace, by the names of all its objects and threads.
pub fn names_of(alloc: Global, names: &[Name], declared: &[Declared]) -> Result<Names, Memory>
    ensures { IfOk result (λ found. found ≡ names_from names.now declared.now) }
{
    let queues = names_of_kind(alloc, Kind::Queue, names, declared)?;
    let fences = names_of_kind(alloc, Kind::Fence, names, declared)?;
    Ok(Names {
        threads: copied_names(alloc, behind(names, declared.len()))?,
        queues: copied_lent(alloc, &queues)?,
        fences: copied_lent(alloc, &fences)?,
    })
}
