use nop_types::NoMemory as OutOfMemory;
use std::alloc::{AllocError, AllocFailed};

/// How a replay ended before all was read and written.
#[derive(Clone, Copy, PartialEq, Eq)]
pub enum ReplayError {
    /// The line with this number, counted from 1, breaks this rule first.
    Malformed { line: u32, rule: u8 },
    ReadFault,
    WriteFault,
    NoMemory,
}

impl From<OutOfMemory> for ReplayError {
    ghost use Rattle.std.specs.Prelude.{◌≡◌};
    ghost use Rattle.replay.specs.declared.error.ReplayError.TheVariants.{NoMemory};

    ghost from_gives = { λ _ e. e ≡ NoMemory };

    fn from(_e: OutOfMemory) -> ReplayError {
        ReplayError::NoMemory
    }
}

impl From<AllocError> for ReplayError {
    ghost use Rattle.std.specs.Prelude.{◌≡◌};
    ghost use Rattle.replay.specs.declared.error.ReplayError.TheVariants.{NoMemory};

    ghost from_gives = { λ _ e. e ≡ NoMemory };

    fn from(_e: AllocError) -> ReplayError {
        ReplayError::NoMemory
    }
}

impl<T: Drop> From<AllocFailed<T>> for ReplayError {
    ghost use Rattle.std.specs.Prelude.{◌≡◌};
    ghost use Rattle.replay.specs.declared.error.ReplayError.TheVariants.{NoMemory};

    ghost from_gives = { λ _ e. e ≡ NoMemory };

    fn from(_e: AllocFailed<T>) -> ReplayError {
        ReplayError::NoMemory
    }
}

/// How a generation ended before its summary was written.
#[derive(Clone, Copy, PartialEq, Eq)]
pub enum GenError {
    WriteFault,
    NoMemory,
}

impl From<OutOfMemory> for GenError {
    ghost use Rattle.std.specs.Prelude.{◌≡◌};
    ghost use Rattle.replay.specs.declared.error.GenError.TheVariants.{NoMemory};

    ghost from_gives = { λ _ e. e ≡ NoMemory };

    fn from(_e: OutOfMemory) -> GenError {
        GenError::NoMemory
    }
}
