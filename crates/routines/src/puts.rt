//! What a routine puts into the words of its destination.

ghost use Rattle.std.specs.Prelude.{◌≡◌, ◌≢◌, ◌++◌, ◌*◌, ◌%◌, ◌<◌, ◌≤◌, ◌^◌, sum, length, IfOk, OnOk, OnErr};
ghost use Rattle.dx_base.specs.Lists.{range_of};
ghost use Rattle.routines.specs.Puts.{put_at as put_for, word_at, value_at, bin_of, kept, puts_before, writers as count_of_writers, puts_of};

use crate::counts::counted;
use crate::numbers::{Numbers, number};
use crate::uses::groups;
use dx_base::{Memory, Routine, Seq};
use std::alloc::Global;

/// A number for a word of the register u0, counted from the register's first word.
#[derive(Clone, Copy, Debug, PartialEq, Eq)]
pub struct Put {
    pub word: u32,
    pub value: u32,
}

/// Some of the numbers from one on, as far as there are.
fn members_of(numbers: &Seq<u32>, first: usize, count: usize) -> &[u32]
    ensures value { result.now ≡ range_of first count numbers.now }
    ensures most { length result.now ≤ count }
{
    let (_, rest) = numbers.as_slice().split_at(first.min(numbers.len()));
    let (members, _) = rest.split_at(count.min(rest.len()));
    members
}

/// The sum of a group of 64 numbers, cut to 32 bits.
fn group_sum(numbers: &Seq<u32>, group: u32) -> u32
    ensures { result ≡ sum (range_of (64 * group) 64 numbers.now) % 2 ^ 32 }
{
    let mut total: u64 = 0;
    for member in members_of(numbers, 64 * group as usize, 64) {
        total += *member as u64;
    }
    (total % (1 << 32)) as u32
}

/// The word, of a destination of `m` words, that an invocation writes.
fn word_for(routine: Routine, m: u32, numbers: &Numbers, i: u32) -> u32
    requires { 0 < m }
    ensures { result ≡ word_at routine m numbers.now i }
{
    match routine {
        Routine::Fill => i,
        Routine::Move => i,
        Routine::Add => i,
        Routine::Mul => i,
        Routine::Gather => i,
        Routine::Scatter => number(&numbers.t1, i),
        Routine::Sums => i,
        Routine::Histogram => number(&numbers.t0, i) % m,
    }
}

/// The number that an invocation writes there.
fn value_for(routine: Routine, m: u32, numbers: &Numbers, i: u32) -> u32
    requires { routine ≢ Routine.Histogram }
    ensures { result ≡ value_at routine m numbers.now i }
{
    match routine {
        Routine::Fill => numbers.c,
        Routine::Move => number(&numbers.t0, i),
        Routine::Add => number(&numbers.t0, i).wrapping_add(number(&numbers.t1, i)),
        Routine::Mul => number(&numbers.t0, i).wrapping_mul(numbers.c),
        Routine::Gather => number(&numbers.t0, number(&numbers.t1, i)),
        Routine::Scatter => number(&numbers.t0, i),
        Routine::Sums => group_sum(&numbers.t0, i),
        Routine::Histogram => unreachable!(),
    }
}

/// Appends what falls into a destination of `m` words.
pub(crate) fn push_kept(puts: &mut Seq<Put>, m: u32, put: Put) -> Result<(), Memory>
    ensures { OnOk result (puts.new ≡ puts.old ++ kept m put) }
{
    if put.word < m {
        puts.push(put)?;
    }
    Ok(())
}

/// What the first invocations put, each by the numbers that are read alone.
fn put_in_order(
    alloc: Global,
    routine: Routine,
    m: u32,
    numbers: &Numbers,
    count: u32,
) -> Result<Seq<Put>, Memory>
    requires room { 0 < m }
    requires routine { routine ≢ Routine.Histogram }
    ensures { IfOk result (λ puts. puts ≡ puts_before routine m numbers.now count) }
{
    let mut puts: Seq<Put> = Seq::new(alloc);
    for i in 0..count {
        let word = word_for(routine, m, numbers, i);
        let value = value_for(routine, m, numbers, i);
        push_kept(&mut puts, m, Put { word, value })?;
    }
    Ok(puts)
}

/// How many write: each of `n` invocations, or of sums one of each 64.
fn writers(routine: Routine, n: u32) -> u32
    ensures { result ≡ count_of_writers routine n }
{
    match routine {
        Routine::Fill => n,
        Routine::Move => n,
        Routine::Add => n,
        Routine::Mul => n,
        Routine::Gather => n,
        Routine::Scatter => n,
        Routine::Sums => groups(n),
        Routine::Histogram => n,
    }
}

/// What a routine with `n` invocations puts into a destination of `m` words, in order, by the numbers that it
/// reads.
pub fn puts_by(
    alloc: Global,
    routine: Routine,
    n: u32,
    m: u32,
    numbers: &Numbers,
) -> Result<Vec<Put>, Memory>
    ensures { IfOk result (λ puts. puts.items ≡ puts_of routine n m numbers.now) }
{
    if m == 0 {
        return Ok(Vec::new(alloc));
    }
    let made = match routine {
        Routine::Histogram => counted(alloc, m, numbers, n)?,
        _ => put_in_order(alloc, routine, m, numbers, writers(routine, n))?,
    };
    Ok(made.into_vec())
}
