//! How a program that watches a cluster ends, with its exit status.
ghost use Rattle.std.specs.Prelude.{◌≡◌};
ghost use Rattle.watching.specs.Statuses.{status_of};

use crate::running::WatchError;

/// How a program that watches ends; the number is its exit status, as that of `nopaxos`.
#[derive(Clone, Copy, PartialEq, Eq)]
pub enum Status {
    /// A state was shown.
    Done = 0,
    /// The words ask for nothing: a line of the program's own was written.
    Usage = 2,
    /// A file could not be read.
    ReadFault = 3,
    WriteFault = 4,
    /// The port could not be opened, or a poll failed.
    LinkFault = 5,
    NoMemory = 6,
    /// No state was shown.
    Unanswered = 7,
}

/// The status of a watch that ended so.
pub fn status_of(ended: Result<bool, WatchError>) -> Status
    ensures { result ≡ status_of ended }
{
    match ended {
        Ok(true) => Status::Done,
        Ok(false) => Status::Unanswered,
        Err(WatchError::PortFault | WatchError::LinkFault) => Status::LinkFault,
        Err(WatchError::WriteFault) => Status::WriteFault,
        Err(WatchError::NoMemory) => Status::NoMemory,
    }
}
