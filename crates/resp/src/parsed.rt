use nop_types::Bytes;

/// Why bytes begin no request, whatever follows them.
#[derive(Clone, Copy, PartialEq, Eq)]
pub enum Fault {
    /// A byte is none that may stand at its place.
    Spelling,
    /// There would be more than `MAX_ARGUMENTS` arguments.
    TooMany,
    /// An argument would have more than `MAX_ARGUMENT_BYTES` bytes.
    TooLong,
}

/// Why bytes do not begin with what is read.
#[derive(Clone, Copy, PartialEq, Eq)]
pub enum Stop {
    /// They begin it, and are too few.
    More,
    /// They do not begin it.
    Wrong(Fault),
}

/// A request with which bytes begin.
#[derive(Drop)]
pub struct Request {
    /// The name of a command, and what it is given.
    pub arguments: Vec<Bytes>,
    /// How many bytes spell it.
    pub len: usize,
}

/// What bytes are that came from a user.
#[derive(Drop)]
pub enum Parsed {
    /// They begin with this request.
    Complete(Request),
    /// They begin a request, and are too few.
    Incomplete,
    /// They begin no request.
    Broken(Fault),
}
