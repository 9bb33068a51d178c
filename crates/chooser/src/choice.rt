//! The giver of choices, as the layers above see it.

ghost use Rattle.std.specs.Prelude.{◌≡◌, ℕ, List, [], ◌∷◌, ◌++◌, Option, Some, IfOk, OnErr};

use dx_base::Memory;

/// What gives the choices of a run, as numbers.
pub trait Chooser {
    // The numbers given since the last start.
    ghost given: { Self → List ℕ };

    // The number that it was last started with, if it was started.
    ghost started: { Self → Option ℕ };

    /// Starts over, at a number.
    fn start(&mut self, number: u64)
        ensures given { given self.new ≡ [] }
        ensures started { started self.new ≡ Some number };

    /// The next number. Refused for memory, nothing changes.
    fn next(&mut self) -> Result<u64, Memory>
        ensures given { IfOk result (λ k. given self.new ≡ given self.old ++ k ∷ []) }
        ensures started { started self.new ≡ started self.old }
        ensures same { OnErr result (self.new ≡ self.old) };
}
