//! How a tool of a service ends, with its exit status, and the texts of what went wrong.
ghost use Rattle.std.specs.Prelude.{◌≡◌};
ghost use Rattle.service_tool.specs.Statuses.{call_text, read_status, read_text, status_of, words_status};

use client_call::CallError;
use line_reader::ReadError;
use service_words::WordsError;

/// How a tool ends; the number is its exit status, as that of `nopaxos`.
#[derive(Clone, Copy, PartialEq, Eq)]
pub enum Status {
    /// What was asked for was written.
    Done = 0,
    /// The words ask for nothing, or a line of the input names no op.
    Usage = 2,
    /// A read of the list of hosts or of the input failed.
    ReadFault = 3,
    WriteFault = 4,
    /// The client's port could not be opened, or a poll failed.
    LinkFault = 5,
    NoMemory = 6,
    /// The turns of an op ended. It may still be executed.
    Unanswered = 7,
    /// A line of the input is too long to be written in words, or one too many.
    Refuted = 8,
}

impl From<CallError> for Status {
    ghost from_gives = { λ e s. s ≡ status_of e };

    fn from(e: CallError) -> Status {
        match e {
            CallError::PortFault | CallError::LinkFault => Status::LinkFault,
            CallError::Unanswered => Status::Unanswered,
            CallError::NoMemory => Status::NoMemory,
        }
    }
}

impl From<ReadError> for Status {
    ghost from_gives = { λ e s. s ≡ read_status e };

    fn from(e: ReadError) -> Status {
        match e {
            ReadError::ReadFault => Status::ReadFault,
            ReadError::NoMemory => Status::NoMemory,
        }
    }
}

impl From<WordsError> for Status {
    ghost from_gives = { λ e s. s ≡ words_status e };

    fn from(e: WordsError) -> Status {
        match e {
            WordsError::Refused { .. } => Status::Refuted,
            WordsError::ReadFault => Status::ReadFault,
            WordsError::WriteFault => Status::WriteFault,
            WordsError::NoMemory => Status::NoMemory,
        }
    }
}

/// Why an op has no result.
pub(crate) fn call_text(e: CallError) -> &'static str
    ensures { result.now ≡ call_text e }
{
    match e {
        CallError::PortFault => {
            "the client's port is in use, or its number was used before: take one that never was"
        }
        CallError::LinkFault => "the link failed; the op may still be executed",
        CallError::Unanswered => {
            "no answer in its turns; the op may still be executed. Is the service up, and the number one that was never used?"
        }
        CallError::NoMemory => "memory ran out; the op may still be executed",
    }
}

/// Why the input gives no further line.
pub(crate) fn read_text(e: ReadError) -> &'static str
    ensures { result.now ≡ read_text e }
{
    match e {
        ReadError::ReadFault => "the input can't be read",
        ReadError::NoMemory => "memory ran out",
    }
}
