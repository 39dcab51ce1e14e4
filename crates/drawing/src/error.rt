//! Why no whole picture was drawn: a bad line of the schedule, a device, or no memory.
use nop_types::NoMemory as OutOfMemory;
use outside::WriteError;
use schedule_text::NextError;

/// Why no picture was drawn, or not all of it.
#[derive(Clone, Copy)]
pub enum DrawError {
    /// The line with this number, counted from 1, breaks this rule first. Where it delivers a datagram that was not sent,
    /// also the datagram's index and how many were sent.
    Malformed {
        line: u32,
        rule: u8,
        index_sent: Option<(u64, u64)>,
    },
    ReadFault,
    WriteFault,
    NoMemory,
}

impl From<OutOfMemory> for DrawError {
    ghost use Rattle.std.specs.Prelude.{◌≡◌};
    ghost use Rattle.drawing.specs.declared.error.DrawError.TheVariants.{NoMemory};

    ghost from_gives = { λ _ e. e ≡ NoMemory };

    fn from(_e: OutOfMemory) -> DrawError {
        DrawError::NoMemory
    }
}

impl From<NextError> for DrawError {
    ghost use Rattle.std.specs.Prelude.{◌≡◌};
    ghost use Rattle.drawing.specs.Errors.{of_reader};

    ghost from_gives = { λ e d. d ≡ of_reader e };

    fn from(e: NextError) -> DrawError {
        match e {
            NextError::BadLine { line, rule } => DrawError::Malformed {
                line,
                rule,
                index_sent: None,
            },
            NextError::ReadFault => DrawError::ReadFault,
            NextError::NoMemory => DrawError::NoMemory,
        }
    }
}

impl From<WriteError> for DrawError {
    ghost use Rattle.std.specs.Prelude.{◌≡◌};
    ghost use Rattle.drawing.specs.Errors.{of_sink};

    ghost from_gives = { λ e d. d ≡ of_sink e };

    fn from(e: WriteError) -> DrawError {
        match e {
            WriteError::Failed => DrawError::WriteFault,
            WriteError::NoMemory => DrawError::NoMemory,
        }
    }
}
