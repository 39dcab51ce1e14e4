use nop_types::NoMemory as OutOfMemory;
use std::alloc::{AllocError, AllocFailed};

/// How an audit ended that found no whole trace.
#[derive(Clone, Copy, PartialEq, Eq)]
pub enum AuditError {
    /// The line with this number, counted from 1, is the first that has a fault, and this is the number of its first one.
    Refuted { line: u32, fault: u8 },
    ReadFault,
    WriteFault,
    NoMemory,
}

impl From<OutOfMemory> for AuditError {
    ghost use Rattle.std.specs.Prelude.{◌≡◌};
    ghost use Rattle.audit.specs.declared.error.AuditError.TheVariants.{NoMemory};

    ghost from_gives = { λ _ e. e ≡ NoMemory };

    fn from(_e: OutOfMemory) -> AuditError {
        AuditError::NoMemory
    }
}

impl From<AllocError> for AuditError {
    ghost use Rattle.std.specs.Prelude.{◌≡◌};
    ghost use Rattle.audit.specs.declared.error.AuditError.TheVariants.{NoMemory};

    ghost from_gives = { λ _ e. e ≡ NoMemory };

    fn from(_e: AllocError) -> AuditError {
        AuditError::NoMemory
    }
}

impl<T: Drop> From<AllocFailed<T>> for AuditError {
    ghost use Rattle.std.specs.Prelude.{◌≡◌};
    ghost use Rattle.audit.specs.declared.error.AuditError.TheVariants.{NoMemory};

    ghost from_gives = { λ _ e. e ≡ NoMemory };

    fn from(_e: AllocFailed<T>) -> AuditError {
        AuditError::NoMemory
    }
}
