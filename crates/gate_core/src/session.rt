//! A user's connection: its unread bytes, its request in flight,
//! and the greatest slot or position of a result that it was replied.
ghost use Rattle.std.specs.Prelude.{◌≡◌, None, Some};

use crate::waiting::Waiting;
use kv_resp::Form;
use nop_types::Key;

/// The op of a user that is in flight: its ticket, and the form in which its result is replied.
#[derive(Clone, Copy)]
pub struct Asked {
    pub ticket: u64,
    pub form: Form,
}

/// A read that a core has under way: the core's place, the read's id there, and the observer that
/// was asked.
#[derive(Clone, Copy)]
pub struct UnderWay {
    pub core: usize,
    pub id: u64,
    pub observer: u8,
}

/// The read of a user that is in flight: its key, and what is under way for it. None where it waits
/// for a core.
#[derive(Drop)]
pub struct Reading {
    pub key: Key,
    pub under_way: Option<UnderWay>,
}

/// The request of a user that is in flight.
#[derive(Drop)]
pub enum InFlight {
    Op(Asked),
    Read(Reading),
}

/// What is kept of a connection.
#[derive(Drop)]
pub struct Session {
    pub waiting: Waiting,
    pub asked: Option<InFlight>,
    /// The greatest slot or position of a result that it was replied: no read is replied from an
    /// older state.
    pub seen: u32,
}

impl Session {
    /// The session, with this request in flight.
    pub(crate) fn with(self, asked: InFlight) -> Session
        ensures { result ≡ record self { asked = Some asked } }
    {
        Session {
            waiting: self.waiting,
            asked: Some(asked),
            seen: self.seen,
        }
    }

    /// The session, none of whose requests is in flight, once it was replied a result from here.
    pub(crate) fn replied(self, seen: u32) -> Session
        ensures { result ≡ record self { asked = None; seen = seen } }
    {
        Session {
            waiting: self.waiting,
            asked: None,
            seen,
        }
    }
}
