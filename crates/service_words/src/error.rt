use line_reader::ReadError;
use nop_types::NoMemory as OutOfMemory;
use outside::WriteError;

/// Why not all lines were written.
#[derive(Clone, Copy, PartialEq, Eq)]
pub enum WordsError {
    /// The line with this number, counted from 1, is too long, or is one more than there may be.
    Refused { line: u32 },
    ReadFault,
    WriteFault,
    NoMemory,
}

impl From<OutOfMemory> for WordsError {
    ghost use Rattle.std.specs.Prelude.{◌≡◌};
    ghost use Rattle.service_words.specs.declared.error.WordsError.TheVariants.{NoMemory};

    ghost from_gives = { λ _ e. e ≡ NoMemory };

    fn from(_e: OutOfMemory) -> WordsError {
        WordsError::NoMemory
    }
}

impl From<ReadError> for WordsError {
    ghost use Rattle.std.specs.Prelude.{◌≡◌};
    ghost use Rattle.service_words.specs.Errors.{of_reader};

    ghost from_gives = { λ e d. d ≡ of_reader e };

    fn from(e: ReadError) -> WordsError {
        match e {
            ReadError::ReadFault => WordsError::ReadFault,
            ReadError::NoMemory => WordsError::NoMemory,
        }
    }
}

impl From<WriteError> for WordsError {
    ghost use Rattle.std.specs.Prelude.{◌≡◌};
    ghost use Rattle.service_words.specs.Errors.{of_sink};

    ghost from_gives = { λ e d. d ≡ of_sink e };

    fn from(e: WriteError) -> WordsError {
        match e {
            WriteError::Failed => WordsError::WriteFault,
            WriteError::NoMemory => WordsError::NoMemory,
        }
    }
}
