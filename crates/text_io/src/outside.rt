//! The source and the sink of bytes, as the layers above see them.

ghost use Rattle.std.specs.Prelude.{◌≡◌, ℕ, List, ◌≤◌, ◌<◌, length, take, Option, None, IfOk, OnErr};
ghost use Rattle.std.specs.Option.{is_some};
ghost use Rattle.std.specs.Io.KnownBytes.{Appends, Consumes, IsAtEnd};
ghost use Rattle.dx_base.specs.Faults.{HasRisen};

/// A read or a write failed.
#[derive(Clone, Copy, Debug, PartialEq, Eq)]
pub struct Failed;

/// Where bytes come from.
pub trait Source {
    // The bytes still to come, where the source tells them.
    ghost left: { Self → Option (List ℕ) } = { λ _. None };

    // How many faults came so far.
    ghost faults: { Self → ℕ };

    /// Gives the next bytes, at the front of a slice that is not empty, and how many they are. 0 says
    /// that the input has ended. `Failed` comes only where a fault came in this call, and then
    /// nothing was taken.
    fn read(&mut self, into: &mut [u8]) -> Result<usize, Failed>
        requires { 0 < length into.old }
        ensures bound { IfOk result (λ n. n ≤ length into.new) }
        ensures next { IfOk result (λ n. Consumes (left self.old) (left self.new) (take n into.new)) }
        ensures end { IfOk result (λ n. n ≡ 0 → IsAtEnd (left self.new)) }
        ensures told { is_some (left self.new) ≡ is_some (left self.old) }
        ensures count { faults self.old ≤ faults self.new }
        ensures cause { OnErr result (HasRisen (faults self.old) (faults self.new)) }
        ensures kept { OnErr result (left self.new ≡ left self.old) };
}

/// Where bytes go to.
pub trait Sink {
    // The bytes taken so far, where the sink tells them.
    ghost held: { Self → Option (List ℕ) } = { λ _. None };

    // How many faults came so far.
    ghost faults: { Self → ℕ };

    /// Takes bytes from the front of a slice that is not empty, one at least, and says how many.
    /// `Failed` comes only where a fault came in this call, and then nothing was taken.
    fn write(&mut self, from: &[u8]) -> Result<usize, Failed>
        requires { 0 < length from.now }
        ensures some { IfOk result (λ n. 0 < n) }
        ensures bound { IfOk result (λ n. n ≤ length from.now) }
        ensures next { IfOk result (λ n. Appends (held self.old) (held self.new) (take n from.now)) }
        ensures told { is_some (held self.new) ≡ is_some (held self.old) }
        ensures count { faults self.old ≤ faults self.new }
        ensures cause { OnErr result (HasRisen (faults self.old) (faults self.new)) }
        ensures kept { OnErr result (held self.new ≡ held self.old) };
}
