//! The error codes that calls answer, and want of memory.

ghost use Rattle.std.specs.Prelude.{◌≡◌};
ghost use Rattle.dx_base.specs.Hresult.{code_of};

use std::alloc::{AllocError, AllocFailed};

/// Memory was refused.
#[derive(Clone, Copy, Debug, PartialEq, Eq)]
pub struct Memory;

impl From<AllocError> for Memory {
    fn from(_error: AllocError) -> Memory {
        Memory
    }
}

impl<T: Drop> From<AllocFailed<T>> for Memory {
    fn from(_error: AllocFailed<T>) -> Memory {
        Memory
    }
}

/// An error code of Direct3D (Windows, "Common HRESULT values").
#[derive(Clone, Copy, Debug, PartialEq, Eq)]
pub enum Hresult {
    /// E_INVALIDARG: an argument is not one that the call takes.
    InvalidArg,
    /// E_FAIL: the state of an object does not allow the call.
    Fail,
    /// E_OUTOFMEMORY: memory was refused.
    OutOfMemory,
    /// DXGI_ERROR_DEVICE_REMOVED: the device was lost.
    DeviceRemoved,
}

impl Hresult {
    /// The 32-bit code.
    pub fn code(self) -> u32
        ensures { result ≡ code_of self }
    {
        match self {
            Hresult::InvalidArg => 0x8007_0057,
            Hresult::Fail => 0x8000_4005,
            Hresult::OutOfMemory => 0x8007_000e,
            Hresult::DeviceRemoved => 0x887a_0005,
        }
    }
}
