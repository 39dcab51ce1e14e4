//! What the first bytes of datagrams and of peer messages are, and where they stand.

/// The first byte of each datagram, the letter N.
pub const FIRST_MAGIC: u8 = 0x4e;

/// The second byte of each datagram, the letter O.
pub const SECOND_MAGIC: u8 = 0x4f;

/// The version of the formats, the third byte of each datagram.
pub const VERSION: u8 = 3;

/// The kinds of datagrams, the fourth byte of each.
pub const REQUEST: u8 = 1;

pub const STAMPED: u8 = 2;

pub const REPLY: u8 = 3;

pub const INSTALL: u8 = 4;

pub const INSTALLED: u8 = 5;

pub const PING: u8 = 6;

pub const PONG: u8 = 7;

pub const FRAGMENT: u8 = 8;

pub const READ: u8 = 9;

pub const ANSWER: u8 = 10;

/// Where a datagram has its kind.
pub const KIND_PLACE: usize = 3;

/// Where a fragment has its count, in two bytes, the higher one first.
pub const COUNT_PLACE: usize = 15;

/// How many bytes a fragment has before its payload.
pub const FRAGMENT_HEADER_BYTES: usize = 17;

/// The kinds of peer messages, the first byte of each. They count from `SLOT_LOOKUP` to `SYNC_COMMIT`.
pub const SLOT_LOOKUP: u8 = 16;

pub const FOUND: u8 = 17;

pub const GAP_COMMIT: u8 = 18;

pub const GAP_REP: u8 = 19;

pub const VIEW_CHANGE_REQ: u8 = 20;

pub const VIEW_CHANGE: u8 = 21;

pub const START_VIEW: u8 = 22;

pub const SYNC_PREPARE: u8 = 23;

pub const SYNC_REP: u8 = 24;

pub const SYNC_COMMIT: u8 = 25;

// A number that both code and definitions name would be proved whatever it was; so here each stands once more.
const _: () = prove!(FIRST_MAGIC == 0x4e && SECOND_MAGIC == 0x4f && VERSION == 3);

const _: () = prove!(
    REQUEST == 1
        && STAMPED == 2
        && REPLY == 3
        && INSTALL == 4
        && INSTALLED == 5
        && PING == 6
        && PONG == 7
        && FRAGMENT == 8
        && READ == 9
        && ANSWER == 10
);

const _: () = prove!(KIND_PLACE == 3 && COUNT_PLACE == 15 && FRAGMENT_HEADER_BYTES == 17);

const _: () = prove!(
    SLOT_LOOKUP == 16
        && FOUND == 17
        && GAP_COMMIT == 18
        && GAP_REP == 19
        && VIEW_CHANGE_REQ == 20
        && VIEW_CHANGE == 21
        && START_VIEW == 22
        && SYNC_PREPARE == 23
        && SYNC_REP == 24
        && SYNC_COMMIT == 25
);
