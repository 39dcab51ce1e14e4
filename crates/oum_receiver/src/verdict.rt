/// What became of a packet: taken into the queue; of an older session, passed or there already; of a later session, which
/// ends the receiver's, with that session; or refused, since the queue is full.
#[derive(Clone, Copy, PartialEq, Eq)]
pub enum Verdict {
    Queued,
    Old,
    Terminated(u64),
    Full,
}
