//! Why no order was written, and how much is read and written.

use line_reader::ReadError;
use outside::WriteError;
use std::alloc::AllocError;

/// The most lines of all traces, their first line included.
pub const MAX_TRACE_LINES: u32 = 4_000_000;

// A number that code and contracts name would be proved whatever it was: here it stands once more.
const _: () = prove!(MAX_TRACE_LINES == 4_000_000);

/// Why no order was written, or not all of it.
#[derive(Clone, Copy, PartialEq, Eq)]
pub enum BraidError {
    /// The line with this number, counted from 1, is too long, or is one more than there may be.
    Refuted { line: u32 },
    ReadFault,
    WriteFault,
    NoMemory,
}

impl From<AllocError> for BraidError {
    ghost use Rattle.std.specs.Prelude.{◌≡◌};
    ghost use Rattle.braiding.specs.declared.error.BraidError.TheVariants.{NoMemory};

    ghost from_gives = { λ _ e. e ≡ NoMemory };

    fn from(_e: AllocError) -> BraidError {
        BraidError::NoMemory
    }
}

impl From<WriteError> for BraidError {
    ghost use Rattle.std.specs.Prelude.{◌≡◌};
    ghost use Rattle.braiding.specs.Ending.{of_sink};

    ghost from_gives = { λ e d. d ≡ of_sink e };

    fn from(e: WriteError) -> BraidError {
        match e {
            WriteError::Failed => BraidError::WriteFault,
            WriteError::NoMemory => BraidError::NoMemory,
        }
    }
}
