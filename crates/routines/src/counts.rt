//! What a histogram puts: each invocation counts one more in the word that its number falls into.

ghost use Rattle.std.specs.Prelude.{◌≡◌, ℕ, ◌+◌, ◌%◌, ◌^◌, ◌<◌, length, slice_set, IfOk};
ghost use Rattle.routines.specs.Puts.{number_at, puts_before};

use crate::numbers::{Numbers, number};
use crate::puts::{Put, push_kept};
use dx_base::{Memory, Routine, Seq};
use std::alloc::Global;

/// The first `m` numbers of a list, and zeros where it is shorter.
fn first_counts(alloc: Global, m: u32, numbers: &Seq<u32>) -> Result<Seq<u32>, Memory>
    ensures length { IfOk result (λ counts. length counts ≡ m) }
    ensures value { IfOk result (λ counts. (k : ℕ) → k < m → number_at counts k ≡ number_at numbers.now k % 2 ^ 32) }
{
    let mut counts = Seq::new(alloc);
    for k in 0..m {
        counts.push(number(numbers, k))?;
    }
    Ok(counts)
}

/// One more in a word; gives what it then is.
fn grow(counts: &mut Seq<u32>, word: u32) -> u32
    requires { word < length counts.old }
    ensures value { result ≡ (number_at counts.old word + 1) % 2 ^ 32 }
    ensures counts { counts.new ≡ slice_set counts.old word result }
{
    let count = counts.at_mut(word as usize);
    *count = count.wrapping_add(1);
    *count
}

/// What the first `n` invocations put into a destination of `m` words.
pub(crate) fn counted(alloc: Global, m: u32, numbers: &Numbers, n: u32) -> Result<Seq<Put>, Memory>
    requires { 0 < m }
    ensures { IfOk result (λ puts. puts ≡ puts_before Routine.Histogram m numbers.now n) }
{
    let mut counts = first_counts(alloc, m, &numbers.u0)?;
    let mut puts = Seq::new(alloc);
    for i in 0..n {
        let word = number(&numbers.t0, i) % m;
        let value = grow(&mut counts, word);
        push_kept(&mut puts, m, Put { word, value })?;
    }
    Ok(puts)
}
