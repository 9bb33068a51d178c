//! The search for a step at a place of a list of steps.

ghost use Rattle.std.specs.Prelude.{◌≡◌, [], ◌∷◌};

use crate::steps::Stepped;

/// What a search for the step at a place of a list comes to.
#[derive(Clone, Copy, Debug, PartialEq, Eq)]
pub enum Found {
    /// The step at that place.
    At(Stepped),
    /// The list ended before it; the place that is left, counted from the list's end.
    Left(usize),
}

ghost use Rattle.vk_port.specs.Found.{found, one_if};

/// Searches a list of one step.
pub fn find_one(step: Stepped, k: usize) -> Found
    ensures { result ≡ found (step ∷ []) k }
{
    match k {
        0 => Found::At(step),
        _ => Found::Left(k - 1),
    }
}

/// Searches a list that has the step, if there is one.
pub fn find_if(ready: bool, step: Stepped, k: usize) -> Found
    ensures { result ≡ found (one_if ready step) k }
{
    if ready {
        find_one(step, k)
    } else {
        Found::Left(k)
    }
}
