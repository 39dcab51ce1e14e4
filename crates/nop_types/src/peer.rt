use crate::{Log, Request, View};

/// What a replica tells another one, with the view that it speaks of.
#[derive(Debug, Drop)]
pub struct Peer {
    pub sender: u8,
    pub view: View,
    pub body: Body,
}

/// The kinds of peer messages. A number of a slot or a length counts slots from 1, those up to a sync point too.
#[derive(Debug, Drop)]
pub enum Body {
    SlotLookup(u32),
    Found(u32, Request),
    GapCommit(u32),
    GapRep(u32),
    ViewChangeReq,
    ViewChange {
        last_normal: View,
        next: u64,
        log: Log,
    },
    StartView {
        next: u64,
        log: Log,
    },
    SyncPrepare(Log),
    SyncRep(u32),
    SyncCommit(u32),
}

/// What a replica had when it entered a view: its last normal view, its next message number and its log.
#[derive(Drop)]
pub struct Change {
    pub sender: u8,
    pub last_normal: View,
    pub next: u64,
    pub log: Log,
}
