//! How a program that draws ends, with exit statuses as those of a replay.
ghost use Rattle.std.specs.Prelude.{◌≡◌};
ghost use Rattle.drawing.specs.Errors.{status_of};

use crate::error::DrawError;

/// How a program ends that draws; the number is its exit status, the same as that of `nopaxos replay`.
#[derive(Clone, Copy)]
pub enum Status {
    /// The picture was written.
    Done = 0,
    /// A line of the schedule is bad.
    Malformed = 1,
    /// There are words on the command line.
    Usage = 2,
    ReadFault = 3,
    WriteFault = 4,
    NoMemory = 6,
}

pub fn status_of(error: DrawError) -> Status
    ensures { result ≡ status_of error }
{
    match error {
        DrawError::Malformed { .. } => Status::Malformed,
        DrawError::ReadFault => Status::ReadFault,
        DrawError::WriteFault => Status::WriteFault,
        DrawError::NoMemory => Status::NoMemory,
    }
}
