//! The calls of a device, counted, and which of them are lost.

ghost use Rattle.std.specs.Prelude.{◌≡◌, ◌≤◌, ◌+◌, ◌-◌, ◌^◌, min, is_err, IfErr};
ghost use Rattle.vk_port.specs.Causes.{HasCause};
ghost use Rattle.vk_port.specs.Lost.{is_lost, calls_made};
ghost use Rattle.vk_port.specs.declared.faults.DeviceFault.TheVariants.{Lost};

use crate::faults::DeviceFault;
use dx_base::Seq;

/// The calls of a device, counted from 1, and which of them answer `Lost`.
#[derive(Debug, Drop)]
pub struct Calls {
    /// The numbers of the calls that answer `Lost`.
    pub fails: Seq<u64>,
    /// How many calls there were; the count stays at the last `u64`.
    pub made: u64,
    /// How many of them answered `Lost`; the count stays at the last `u64`.
    pub faults: u64,
}

impl Calls {
    /// Whether the next call is lost.
    fn is_next_lost(&self) -> bool
        ensures { result ≡ is_lost self.now }
    {
        match self.made.checked_add(1) {
            None => false,
            Some(number) => self.fails.as_slice().contains(&number),
        }
    }

    /// Counts a call; `Lost` where it is one that is lost.
    pub fn begin(&mut self) -> Result<(), DeviceFault>
        ensures lost { is_err result ≡ is_lost self.old }
        ensures error { IfErr result (λ e. e ≡ Lost) }
        ensures fails { self.new.fails ≡ self.old.fails }
        ensures made { self.new.made ≡ calls_made self.old }
        ensures faults { self.old.faults ≤ self.new.faults }
        ensures cause { HasCause self.old.faults self.new.faults result }
    {
        let lost = self.is_next_lost();
        self.made = self.made.saturating_add(1);
        if lost {
            self.faults = self.faults.saturating_add(1);
            return Err(DeviceFault::Lost);
        }
        Ok(())
    }
}
