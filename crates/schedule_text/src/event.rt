use nop_types::{Actor, Bytes, Key, Op, Tick};

/// One step of one actor, as a line of a schedule names it.
#[derive(Drop)]
pub enum Event {
    /// A client is given an op.
    Submit(u32, Op),
    /// The datagram with this index, counted from 0 over all that were ever sent, comes to an
    /// actor.
    Deliver(u64, Actor),
    /// An actor is given a tick, one that a schedule may give it.
    Tick(Actor, Tick),
    /// The controller with the first number is ordered to move to the sequencer with the second one.
    Install(u8, u8),
    /// An actor takes no further step.
    Crash(Actor),
    /// Bytes that nobody sent come to an actor. They spell no datagram; a line of a schedule gives
    /// at most `MAX_DATAGRAM_BYTES` of them.
    Junk(Actor, Bytes),
    /// The client with the first number is to ask the observer with the second one for a key.
    Read(u32, u8, Key),
}
