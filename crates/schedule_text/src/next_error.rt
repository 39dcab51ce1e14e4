use outside::Failed;
use std::alloc::AllocError;

/// Why a reader gave no event.
#[derive(Clone, Copy, PartialEq, Eq)]
pub enum NextError {
    /// The line with this number, counted from 1, breaks this rule first.
    BadLine { line: u32, rule: u8 },
    ReadFault,
    NoMemory,
}

impl From<Failed> for NextError {
    ghost use Rattle.std.specs.Prelude.{◌≡◌};
    ghost use Rattle.schedule_text.specs.declared.next_error.NextError.TheVariants.{ReadFault};

    ghost from_gives = { λ _ e. e ≡ ReadFault };

    fn from(_e: Failed) -> NextError {
        NextError::ReadFault
    }
}

impl From<AllocError> for NextError {
    ghost use Rattle.std.specs.Prelude.{◌≡◌};
    ghost use Rattle.schedule_text.specs.declared.next_error.NextError.TheVariants.{NoMemory};

    ghost from_gives = { λ _ e. e ≡ NoMemory };

    fn from(_e: AllocError) -> NextError {
        NextError::NoMemory
    }
}
