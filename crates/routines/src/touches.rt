//! The accesses of a routine.

ghost use Rattle.std.specs.Prelude.{◌≡◌, ◌++◌, true, false, IfOk, OnOk};
ghost use Rattle.routines.specs.Touches.{touch_of, touches_of, view_of};

use crate::bounds::{Bound, Source0};
use crate::uses::{Extent, Uses};
use dx_base::{Memory, ResourceId, Routine, Seq, View};
use dx_flags::Access;
use std::alloc::Global;

/// Words of a subresource, `words` of them from the word `first` on, that a routine reads or writes, or both.
#[derive(Clone, Copy, Debug, PartialEq, Eq)]
pub struct Touch {
    pub resource: ResourceId,
    pub sub: u32,
    pub first: u32,
    pub words: u32,
    pub access: Access,
    pub reads: bool,
    pub writes: bool,
}

/// How a register is used.
#[derive(Clone, Copy, Debug, PartialEq, Eq)]
struct Usage {
    extent: Extent,
    access: Access,
    reads: bool,
    writes: bool,
}

/// Appends what `n` invocations use of a register.
fn push_touch(
    touches: &mut Seq<Touch>,
    bound: Option<View>,
    n: u32,
    usage: Usage,
) -> Result<(), Memory>
    ensures { OnOk result (touches.new ≡ touches.old ++ touch_of bound usage.extent n usage.access usage.reads usage.writes) }
{
    let Some(view) = bound else {
        return Ok(());
    };
    let words = usage.extent.words(n, view.words);
    if words == 0 {
        return Ok(());
    }
    touches.push(Touch {
        resource: view.resource,
        sub: view.sub,
        first: view.first,
        words,
        access: usage.access,
        reads: usage.reads,
        writes: usage.writes,
    })
}

/// A register that is read with that access.
fn read_as(extent: Extent, access: Access) -> Usage
    ensures extent { result.extent ≡ extent }
    ensures access { result.access ≡ access }
    ensures reads { result.reads ≡ true }
    ensures writes { result.writes ≡ false }
{
    Usage {
        extent,
        access,
        reads: true,
        writes: false,
    }
}

impl Source0 {
    /// The view that stands for the register, if one does.
    pub fn view(&self) -> Option<View>
        ensures { result ≡ view_of self.now }
    {
        match self {
            Source0::None => None,
            Source0::Word(_) => None,
            Source0::Buffer(view) => Some(*view),
        }
    }
}

/// The accesses of a routine with `n` invocations, cut to the views: first those of t0 and t1, then b0's where
/// it is a buffer, then u0's. They go by the views and by `n`, and never by memory; with `n` = 0 there are
/// none, and none of a register that is not bound.
pub fn accesses(
    alloc: Global,
    routine: Routine,
    bound: &Bound,
    n: u32,
) -> Result<Vec<Touch>, Memory>
    ensures { IfOk result (λ touches. touches.items ≡ touches_of routine bound.now n) }
{
    let used = Uses::of(routine);
    let mut touches = Seq::new(alloc);
    push_touch(
        &mut touches,
        bound.t0,
        n,
        read_as(used.t0, Access::SHADER_RESOURCE),
    )?;
    push_touch(
        &mut touches,
        bound.t1,
        n,
        read_as(used.t1, Access::SHADER_RESOURCE),
    )?;
    push_touch(
        &mut touches,
        bound.b0.view(),
        n,
        read_as(used.b0, Access::CONSTANT_BUFFER),
    )?;
    let written = Usage {
        extent: used.u0,
        access: Access::UNORDERED_ACCESS,
        reads: used.updates,
        writes: true,
    };
    push_touch(&mut touches, bound.u0, n, written)?;
    Ok(touches.into_vec())
}
