//! The numbers that a routine reads.

ghost use Rattle.std.specs.Prelude.{◌≡◌, ◌+◌, ◌<◌, ◌^◌, IfOk};
ghost use Rattle.routines.specs.Numbers.{first_numbers as numbers_from, numbers_at as numbers_used, constant_of, numbers_of};
ghost use Rattle.routines.specs.Puts.{number_at};
ghost use Rattle.routines.specs.Touches.{AreViews, EndsBelow, view_of};

use crate::bounds::{Bound, Source0};
use crate::memory::WordsOf;
use crate::uses::{Extent, Uses, read_of_u0};
use dx_base::{Memory, Routine, Seq, View};
use std::alloc::Global;

/// The numbers of the words that a routine reads of each register, from the register's first word on. A
/// word behind them is read as 0.
#[derive(Debug, PartialEq, Eq, Drop)]
pub struct Numbers {
    pub t0: Seq<u32>,
    pub t1: Seq<u32>,
    pub u0: Seq<u32>,
    /// The word of b0.
    pub c: u32,
}

/// A number of a list, and 0 past its end.
pub(crate) fn number(numbers: &Seq<u32>, k: u32) -> u32
    ensures { result ≡ number_at numbers.now k }
{
    let numbers = numbers.as_slice();
    if (k as usize) < numbers.len() {
        numbers[k as usize]
    } else {
        0
    }
}

/// The numbers of the first words of a view.
fn first_numbers<W: WordsOf>(
    alloc: Global,
    memory: &W,
    view: View,
    count: u32,
) -> Result<Seq<u32>, Memory>
    requires { view.first + count < 2 ^ 32 }
    ensures { IfOk result (λ numbers. numbers ≡ numbers_from (W.number memory.now) view count) }
{
    let mut numbers = Seq::new(alloc);
    for k in 0..count {
        numbers.push(memory.get(view.resource, view.sub, view.first + k))?;
    }
    Ok(numbers)
}

/// The numbers of the words that are used of a register.
fn numbers_at<W: WordsOf>(
    alloc: Global,
    memory: &W,
    bound: Option<View>,
    extent: Extent,
    n: u32,
) -> Result<Seq<u32>, Memory>
    requires { EndsBelow bound }
    ensures { IfOk result (λ numbers. numbers ≡ numbers_used (W.number memory.now) bound extent n) }
{
    match bound {
        None => Ok(Seq::new(alloc)),
        Some(view) => first_numbers(alloc, memory, view, extent.words(n, view.words)),
    }
}

/// The word of the constant register.
fn constant<W: WordsOf>(
    alloc: Global,
    memory: &W,
    bound: Source0,
    extent: Extent,
    n: u32,
) -> Result<u32, Memory>
    requires { EndsBelow (view_of bound) }
    ensures { IfOk result (λ c. c ≡ constant_of (W.number memory.now) bound extent n) }
{
    match bound {
        Source0::None => Ok(0),
        Source0::Word(c) => Ok(c),
        Source0::Buffer(view) => {
            let numbers = numbers_at(alloc, memory, Some(view), extent, n)?;
            Ok(number(&numbers, 0))
        }
    }
}

impl Numbers {
    /// What a routine with `n` invocations reads.
    pub fn read<W: WordsOf>(
        alloc: Global,
        memory: &W,
        routine: Routine,
        bound: &Bound,
        n: u32,
    ) -> Result<Numbers, Memory>
        requires { AreViews bound.now }
        ensures { IfOk result (λ numbers. numbers ≡ numbers_of (W.number memory.now) routine bound.now n) }
    {
        let used = Uses::of(routine);
        Ok(Numbers {
            t0: numbers_at(alloc, memory, bound.t0, used.t0, n)?,
            t1: numbers_at(alloc, memory, bound.t1, used.t1, n)?,
            u0: numbers_at(alloc, memory, bound.u0, read_of_u0(routine), n)?,
            c: constant(alloc, memory, bound.b0, used.b0, n)?,
        })
    }
}
