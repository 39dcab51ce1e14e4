ghost use Rattle.std.specs.Prelude.{◌≡◌};
ghost use Rattle.outside.specs.declared.errors.DeviceError.TheVariants as errors;

use nop_types::NoMemory;
use std::alloc::{AllocError, AllocFailed};

/// A device failed.
#[derive(Clone, Copy, PartialEq, Eq)]
pub struct Failed;

/// Why a call on a device failed.
#[derive(Clone, Copy, Debug, PartialEq, Eq)]
pub enum DeviceError {
    Failed,
    NoMemory,
}

/// Why a write failed. A single write then added nothing; `write_all` may have written a front of its bytes.
pub type WriteError = DeviceError;

/// Why a link gave or sent nothing.
pub type LinkError = DeviceError;

/// Why a port has no link.
pub type AttachError = DeviceError;

impl From<Failed> for DeviceError {
    ghost from_gives = { λ _ e. e ≡ errors.Failed };

    fn from(_e: Failed) -> DeviceError {
        DeviceError::Failed
    }
}

impl From<NoMemory> for DeviceError {
    ghost from_gives = { λ _ e. e ≡ errors.NoMemory };

    fn from(_e: NoMemory) -> DeviceError {
        DeviceError::NoMemory
    }
}

impl From<AllocError> for DeviceError {
    ghost from_gives = { λ _ e. e ≡ errors.NoMemory };

    fn from(_e: AllocError) -> DeviceError {
        DeviceError::NoMemory
    }
}

impl<T: Drop> From<AllocFailed<T>> for DeviceError {
    ghost from_gives = { λ _ e. e ≡ errors.NoMemory };

    fn from(_e: AllocFailed<T>) -> DeviceError {
        DeviceError::NoMemory
    }
}
