//! What a gateway takes in a step, and what it does then.
use nop_types::{Bytes, Dest};
use users::UserEvent;

/// What the gateway takes in one step.
#[derive(Drop)]
pub enum Event {
    /// A datagram came to the core at this place.
    Datagram {
        core: usize,
        bytes: Bytes,
    },
    /// The core at this place sends its open requests and its read again.
    Retry {
        core: usize,
    },
    /// Something came from a user.
    User(UserEvent),
    /// The next request of a user is read, where none of it is in flight.
    Read {
        user: u64,
    },
    /// The core at this place asks an observer for the key of a user's read, where neither has a
    /// read under way; where there is a near observer, the key is read at that again.
    Ask {
        core: usize,
        observer: u8,
        user: u64,
    },
    /// The read that the core at this place has under way is asked for by another core.
    Reassign {
        core: usize,
    },
    /// It is so late for the watch, in milliseconds, and a datagram came to it, or none; the near
    /// observer hears it too.
    Watch {
        now: u64,
        datagram: Option<Bytes>,
    },
    /// Nobody asks for anything: the gateway asks for something itself.
    Idle,
}

/// What is done in a step.
#[derive(Drop)]
pub enum Act {
    /// The core at this place sends a datagram.
    Send {
        core: usize,
        dest: Dest,
        bytes: Bytes,
    },
    /// The core at this place submitted its request with this id.
    Submitted {
        core: usize,
        id: u64,
    },
    /// The core at this place accepted the result of its request with this id.
    Accepted {
        core: usize,
        id: u64,
    },
    /// The core at this place asked for a read with this id.
    Reading {
        core: usize,
        id: u64,
    },
    /// The core at this place was answered its read with this id.
    Answered {
        core: usize,
        id: u64,
    },
    /// A read of a user waits for a core; `again` where it was answered from a state that is too
    /// old.
    Waits {
        user: u64,
        again: bool,
    },
    /// A user is replied to.
    Reply {
        user: u64,
        bytes: Bytes,
    },
    /// A connection is ended, once its replies are sent.
    Close {
        user: u64,
    },
}
