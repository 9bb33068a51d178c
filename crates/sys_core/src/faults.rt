//! Why a step is refused.

ghost use Rattle.std.specs.Prelude.{◌≡◌};
ghost use Rattle.sys_core.specs.FaultOf.{fault_of};

use dx_base::Memory;
use vk_port::DeviceFault;

/// Why a step was refused.
#[derive(Clone, Copy, Debug, PartialEq, Eq)]
pub enum SysFault {
    /// Memory was refused.
    Memory,
    /// The device was lost.
    Lost,
}

impl From<Memory> for SysFault {
    ghost use Rattle.sys_core.specs.declared.faults.SysFault.TheVariants.{Memory as want_of_memory};

    ghost from_gives = { λ _ e. e ≡ want_of_memory };

    fn from(_error: Memory) -> SysFault {
        SysFault::Memory
    }
}

impl From<DeviceFault> for SysFault {
    ghost from_gives = { λ fault e. e ≡ fault_of fault };

    fn from(fault: DeviceFault) -> SysFault {
        match fault {
            DeviceFault::Lost => SysFault::Lost,
            DeviceFault::Memory => SysFault::Memory,
        }
    }
}
