use nop_types::{Actor, Bytes, Dest, Entry, Key, Phase, Request, View};

/// A line of a transcript behind the first one.
#[derive(Drop)]
pub enum Row {
    /// An event came to a crashed actor.
    Dead(Actor),
    /// A client submitted a request.
    Submit(Request),
    /// A client accepted a result.
    Accept {
        client: u32,
        id: u64,
        result: Bytes,
    },
    /// A client could not take an op.
    Busy(u32),
    /// A client asked an observer for a key.
    Read {
        client: u32,
        id: u64,
        observer: u8,
        key: Key,
    },
    /// A client took the answer to a read.
    Answer {
        client: u32,
        id: u64,
        observer: u8,
        position: u32,
        result: Bytes,
    },
    /// A datagram was sent: its place among all that were sent, its kind, as its fourth byte has it, and its length.
    Sent {
        index: u64,
        from: Actor,
        dest: Dest,
        kind: u8,
        len: u32,
    },
    /// How a replica stands at the end.
    State {
        replica: u8,
        crashed: bool,
        status: Phase,
        view: View,
        len: u32,
        sync_point: u32,
    },
    /// A slot of a replica's log.
    Slot {
        replica: u8,
        slot: u32,
        entry: Entry,
    },
    /// How an observer stands at the end.
    Watching {
        observer: u8,
        crashed: bool,
        position: u32,
    },
    /// A member of the history, with its place there, counted from 1.
    Member {
        place: u32,
        request: Request,
    },
    End,
}

/// The most bytes of a datagram that a transcript tells of.
pub const MAX_SENT_BYTES: u32 = 1417;

// A number that both code and contracts name would be proved whatever it was; so here it stands once more.
const _: () = prove!(MAX_SENT_BYTES == 1417);
