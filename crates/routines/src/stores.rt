//! What a routine stores.

ghost use Rattle.std.specs.Prelude.{◌≡◌, ◌+◌, ◌<◌, ◌≤◌, ◌^◌, map, IfOk};
ghost use Rattle.routines.specs.Effect.{store_in, stores_of};
ghost use Rattle.routines.specs.Puts.{PutsLieIn};
ghost use Rattle.routines.specs.Touches.{AreViews};

use crate::bounds::Bound;
use crate::memory::WordsOf;
use crate::numbers::Numbers;
use crate::puts::{Put, puts_by};
use dx_base::{Memory, ResourceId, Routine, Seq, View};
use std::alloc::Global;

/// A number for a word of a subresource, counted from the subresource's first word.
#[derive(Clone, Copy, Debug, PartialEq, Eq)]
pub struct Store {
    pub resource: ResourceId,
    pub sub: u32,
    pub word: u32,
    pub value: u32,
}

/// What is put, as stores through a view.
fn stores_in(alloc: Global, view: View, made: &[Put]) -> Result<Seq<Store>, Memory>
    requires inside { PutsLieIn view.words made.now }
    requires bound { view.first + view.words < 2 ^ 32 }
    ensures { IfOk result (λ stores. stores ≡ map (store_in view) made.now) }
{
    let mut stores = Seq::new(alloc);
    for put in made {
        stores.push(Store {
            resource: view.resource,
            sub: view.sub,
            word: view.first + put.word,
            value: put.value,
        })?;
    }
    Ok(stores)
}

/// What a routine with `n` invocations stores, in order; the memory itself is not changed. All reads are of
/// `memory`, but for the growing of a histogram, which builds on its own stores. A read out of range gives 0,
/// and a write out of range is dropped; where u0 is not bound or has no words there are no stores.
pub fn effect<W: WordsOf>(
    alloc: Global,
    routine: Routine,
    bound: &Bound,
    n: u32,
    memory: &W,
) -> Result<Vec<Store>, Memory>
    requires { AreViews bound.now }
    ensures { IfOk result (λ stores. stores.items ≡ stores_of (W.number memory.now) routine bound.now n) }
{
    let Some(view) = bound.u0 else {
        return Ok(Vec::new(alloc));
    };
    let numbers = Numbers::read(alloc, memory, routine, bound, n)?;
    let made = puts_by(alloc, routine, n, view.words, &numbers)?;
    Ok(stores_in(alloc, view, made.as_slice())?.into_vec())
}
