use crate::{Bytes, Key, Request, View};

/// A request with the session and the message number that a sequencer wrote on it.
#[derive(Debug, Drop)]
pub struct Stamped {
    pub session: u64,
    pub number: u64,
    pub request: Request,
}

/// A replica's reply for a slot: with tag 1 it brings the result, with tag 0 none.
#[derive(Debug, Drop)]
pub struct Reply {
    pub replica: u8,
    pub view: View,
    pub slot: u32,
    pub client: u32,
    pub id: u64,
    pub tag: u8,
    pub result: Bytes,
}

/// A part of a peer message: all fragments of it carry the sender's message number and their count.
#[derive(Debug, Drop)]
pub struct Fragment {
    pub replica: u8,
    pub message: u64,
    pub index: u16,
    pub count: u16,
    pub payload: Bytes,
}

/// A client's read of a key. Ids count from 1, apart from those of requests.
#[derive(Debug, Drop)]
pub struct Read {
    pub client: u32,
    pub id: u64,
    pub key: Key,
}

/// An observer's answer to a read, from the state after the first `position` slots.
#[derive(Debug, Drop)]
pub struct Answer {
    pub observer: u8,
    pub position: u32,
    pub client: u32,
    pub id: u64,
    pub result: Bytes,
}

/// What the network carries. Installs and pings name the controller that sent them, and their answers the one that they are for.
#[derive(Debug, Drop)]
pub enum Datagram {
    Request(Request),
    Stamped(Stamped),
    Reply(Reply),
    Install {
        controller: u8,
        sequencer: u8,
        session: u64,
    },
    Installed {
        controller: u8,
        sequencer: u8,
        session: u64,
    },
    Ping {
        controller: u8,
        sequencer: u8,
        round: u32,
    },
    Pong {
        controller: u8,
        sequencer: u8,
        round: u32,
    },
    Fragment(Fragment),
    Read(Read),
    Answer(Answer),
}
