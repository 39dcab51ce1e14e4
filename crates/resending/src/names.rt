//! Which part of which message a datagram is, by its bytes.

ghost use Rattle.std.specs.Prelude.{◌≡◌, ◌<◌};
ghost use Rattle.resending.specs.Names.{byte_at, name_of, number_at, topic_of};

use nop_types::kinds::FRAGMENT_HEADER_BYTES;

/// Where a fragment has the number of its message, in eight bytes.
const MESSAGE_PLACE: usize = 5;

/// Where it has its index, in two bytes.
const INDEX_PLACE: usize = 13;

/// Where the first fragment of a message has the message's kind.
const TOPIC_PLACE: usize = FRAGMENT_HEADER_BYTES;

const _: () = prove!(MESSAGE_PLACE == 5 && INDEX_PLACE == 13 && TOPIC_PLACE == 17);

/// A part: the number of its message, and its index there.
#[derive(Clone, Copy)]
pub struct Name {
    pub message: u64,
    pub index: u16,
}

/// What a message is about: its kind, and its view.
#[derive(Clone, Copy)]
pub struct Topic {
    pub kind: u8,
    pub leader: u32,
    pub session: u64,
}

/// The byte at a place, 0 past the end.
fn byte_at(bytes: &[u8], place: usize) -> u8
    ensures { result ≡ byte_at bytes.now place }
{
    match bytes.get(place) {
        Some(byte) => *byte,
        None => 0,
    }
}

/// The eight bytes from a place on, as a number.
fn number_at(bytes: &[u8], place: usize) -> u64
    requires { place < 100 }
    ensures { result ≡ number_at bytes.now place }
{
    u64::from_be_bytes([
        byte_at(bytes, place),
        byte_at(bytes, place + 1),
        byte_at(bytes, place + 2),
        byte_at(bytes, place + 3),
        byte_at(bytes, place + 4),
        byte_at(bytes, place + 5),
        byte_at(bytes, place + 6),
        byte_at(bytes, place + 7),
    ])
}

/// The name of a part, from its header.
pub fn name_of(bytes: &[u8]) -> Name
    ensures { result ≡ name_of bytes.now }
{
    Name {
        message: number_at(bytes, MESSAGE_PLACE),
        index: u16::from_be_bytes([byte_at(bytes, INDEX_PLACE), byte_at(bytes, INDEX_PLACE + 1)]),
    }
}

/// What the message is about whose first part this is.
pub fn topic_of(bytes: &[u8]) -> Topic
    ensures { result ≡ topic_of bytes.now }
{
    Topic {
        kind: byte_at(bytes, TOPIC_PLACE),
        leader: u32::from_be_bytes([
            byte_at(bytes, TOPIC_PLACE + 2),
            byte_at(bytes, TOPIC_PLACE + 3),
            byte_at(bytes, TOPIC_PLACE + 4),
            byte_at(bytes, TOPIC_PLACE + 5),
        ]),
        session: number_at(bytes, TOPIC_PLACE + 6),
    }
}
