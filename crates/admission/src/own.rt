//! A process that starts, a node that it asks, the times of its rounds, and how it stands.
use nop_types::Actor;

/// After how many microseconds a question is put again.
pub const ASK_MICROS: u64 = 20_000;

/// How long all are waited for, where more than half have answered.
pub const ALL_MICROS: u64 = 300_000;

/// How long a round lasts at most.
pub const ROUND_MICROS: u64 = 60_000_000;

/// After how many microseconds a process that was admitted is claimed again.
pub const REMIND_MICROS: u64 = 500_000;

// A number that both code and definitions name would be proved whatever it was; so here each stands once more.
const _: () = prove!(
    ASK_MICROS == 20_000
        && ALL_MICROS == 300_000
        && ROUND_MICROS == 60_000_000
        && REMIND_MICROS == 500_000
);

/// A process that starts: its actor, of a client with its full number, the digest of its list of hosts, and the number that it drew.
#[derive(Clone, Copy, PartialEq, Eq)]
pub struct Own {
    pub actor: Actor,
    pub digest: u64,
    pub process: u64,
}

/// A node that is asked.
#[derive(Clone, Copy, PartialEq, Eq)]
pub struct Other {
    pub actor: Actor,
    pub has_answered: bool,
}

/// How a process that starts stands.
#[derive(Clone, Copy, PartialEq, Eq)]
pub enum Standing {
    /// It asks, or claims.
    Going,
    /// It may serve.
    Admitted,
    /// Its number is another process's, or its list of hosts is another.
    Refused,
    /// Too few have answered for too long.
    Late,
}
