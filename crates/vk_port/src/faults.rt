//! Why a device refuses a call.

ghost use Rattle.std.specs.Prelude.{◌≡◌};

use dx_base::Memory;

/// Why a device refuses a call.
#[derive(Clone, Copy, Debug, PartialEq, Eq)]
pub enum DeviceFault {
    /// The device was lost (VK_ERROR_DEVICE_LOST).
    Lost,
    /// Memory was refused.
    Memory,
}

impl From<Memory> for DeviceFault {
    ghost use Rattle.vk_port.specs.declared.faults.DeviceFault.TheVariants.{Memory as want_of_memory};

    ghost from_gives = { λ _ e. e ≡ want_of_memory };

    fn from(_error: Memory) -> DeviceFault {
        DeviceFault::Memory
    }
}
