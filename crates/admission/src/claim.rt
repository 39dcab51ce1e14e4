//! A note that the number of an actor belongs to a process.
use nop_types::Actor;

/// A process has the number of this actor.
#[derive(Clone, Copy, PartialEq, Eq)]
pub struct Claim {
    pub actor: Actor,
    pub process: u64,
}
