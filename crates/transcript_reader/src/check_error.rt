use line_reader::ReadError;
use nop_types::NoMemory as OutOfMemory;
use std::alloc::{AllocError, AllocFailed};

/// Why a transcript is not called legal.
#[derive(Clone, Copy, PartialEq, Eq)]
pub enum CheckError {
    /// The line with this number, counted from 1, breaks this clause.
    Refuted { line: u32, clause: u8 },
    ReadFault,
    NoMemory,
}

impl From<OutOfMemory> for CheckError {
    ghost use Rattle.std.specs.Prelude.{◌≡◌};
    ghost use Rattle.transcript_reader.specs.declared.check_error.CheckError.TheVariants.{NoMemory};

    ghost from_gives = { λ _ e. e ≡ NoMemory };

    fn from(_e: OutOfMemory) -> CheckError {
        CheckError::NoMemory
    }
}

impl From<AllocError> for CheckError {
    ghost use Rattle.std.specs.Prelude.{◌≡◌};
    ghost use Rattle.transcript_reader.specs.declared.check_error.CheckError.TheVariants.{NoMemory};

    ghost from_gives = { λ _ e. e ≡ NoMemory };

    fn from(_e: AllocError) -> CheckError {
        CheckError::NoMemory
    }
}

impl<T: Drop> From<AllocFailed<T>> for CheckError {
    ghost use Rattle.std.specs.Prelude.{◌≡◌};
    ghost use Rattle.transcript_reader.specs.declared.check_error.CheckError.TheVariants.{NoMemory};

    ghost from_gives = { λ _ e. e ≡ NoMemory };

    fn from(_e: AllocFailed<T>) -> CheckError {
        CheckError::NoMemory
    }
}
