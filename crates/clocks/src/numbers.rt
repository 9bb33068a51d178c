//! The numbers of a clock.

ghost use Rattle.std.specs.Prelude.{◌≡◌, ◌<◌, length, IfOk, replicate};
ghost use Rattle.clocks.specs.Clocks.{number, numbered, greater};

use dx_base::{Memory, Seq};
use std::alloc::Global;

/// That many zeros.
pub(crate) fn zeros(alloc: Global, count: usize) -> Result<Seq<u64>, Memory>
    ensures { IfOk result (λ numbers. numbers ≡ replicate count 0) }
{
    let numbers = vec![in alloc; 0u64; count]?;
    Ok(Seq::from_vec(numbers))
}

/// The number at a place; 0 past the end.
#[tactic(auto, using(crate::proofs::Places::number_found, crate::proofs::Places::number_past))]
pub(crate) fn number_at(numbers: &[u64], place: usize) -> u64
    ensures { result ≡ number numbers.now place }
{
    if place < numbers.len() {
        numbers[place]
    } else {
        0
    }
}

/// Sets the number at a place.
#[tactic(auto, using(crate::proofs::Places::set_is_numbered))]
pub(crate) fn set_number(numbers: &mut [u64], place: usize, wanted: u64)
    requires { place < length numbers.old }
    ensures { numbers.new ≡ numbered place wanted numbers.old }
{
    numbers[place] = wanted;
}

/// The greater number at each place.
pub(crate) fn raise_each(numbers: &mut [u64], others: &[u64])
    requires { length numbers.old ≡ length others.now }
    ensures { numbers.new ≡ greater numbers.old others.now }
{
    for place in 0..numbers.len() {
        numbers[place] = numbers[place].max(others[place]);
    }
}
