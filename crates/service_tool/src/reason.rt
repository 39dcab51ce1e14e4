//! Why words are not taken, in words.

ghost use Rattle.std.specs.Prelude.{◌≡◌};
ghost use Rattle.service_tool.specs.Reasons.{text_of};

/// Why the words ask for nothing.
#[derive(Clone, Copy, PartialEq, Eq)]
pub enum Reason {
    /// No word is left for a command.
    NoCommand,
    UnknownOption,
    /// An option's value is missing.
    NoValue,
    BadBase,
    BadReplicas,
    BadSequencers,
    BadId,
    BadTurns,
    BadObserver,
    /// No client number was given.
    NoId,
    /// The words of a load are missing.
    NoLoad,
    BadClients,
    BadOps,
    /// The words are no op of the service, and no command.
    BadOp,
    /// A word follows where none may.
    ExtraWord,
    /// A line of the input is too long, or one too many.
    LongInput,
}

/// The word that is not taken, by its index, and why; one past the last where a word is missing.
#[derive(Clone, Copy, PartialEq, Eq)]
pub struct Fault {
    pub reason: Reason,
    pub at: usize,
}

impl Reason {
    /// What would be right.
    pub fn text(self) -> &'static str
        ensures { result.now ≡ text_of self }
    {
        match self {
            Reason::NoCommand =>
                "want a command: an op, repl, status, load, op, text, result or words",
            Reason::UnknownOption => "no such option: see --help",
            Reason::NoValue => "want a value behind this option",
            Reason::BadBase => "want a port from 1024 to 65000",
            Reason::BadReplicas => "want 1, 3, 5 or 7 replicas",
            Reason::BadSequencers => "want 1 to 4 sequencers",
            Reason::BadId => "want a client number from 0 to 4294967295",
            Reason::BadTurns => "want a number of turns from 1 to 18446744073709551615",
            Reason::BadObserver => "want the number of an observer from 0 to 3",
            Reason::NoId => "want --id and a client number that was never used before",
            Reason::NoLoad => "want load CLIENTS OPS",
            Reason::BadClients => "want 1 to 16 clients",
            Reason::BadOps => "want 1 to 1000000000 ops",
            Reason::BadOp => "no op of this service, and no command: see --help",
            Reason::ExtraWord => "want no further word",
            Reason::LongInput => "want at most 4294967294 lines of at most 4096 bytes",
        }
    }
}
