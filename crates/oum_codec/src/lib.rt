//! The ten kinds of datagrams as bytes.
//!
//! `decode` answers the datagram that the bytes spell, with each field in its range, and for other
//! bytes the first test, in the order of the format, that they fail; `read_datagram` answers None
//! for these. `encode` appends the one spelling of a datagram that is in its ranges, and nothing on
//! an error. What is spelled is read, what is read is spelled so, and different datagrams have
//! different spellings (`spelled_is_read`, `read_is_spelled`, `spelling_is_injective`). `read_u16`
//! and the other readers give the field at a place (`fields_are_read`, `read_fields_stand`). Which
//! datagrams are fragments of messages that have several is told by three bytes (`parts_are_told`).
//!
//! Calls: `read_datagram` and `send_datagram` for the cores; `encode_reply` and `put_fragment`,
//! spellings in one piece; `put_..` and `split_..`, the fields that `peer_codec` has too.
//!
//! Files: `read`, `write`, `send`; `fields`, `fixed`; `bad` (the tests). Definitions:
//! `specs/Spelling` (`Spells`, `spelling`), `Reading` (`reading`), `Fixed` (the fields of each
//! kind), `Numbers`, `Places`.
#![tactic(auto)]

mod bad;
mod fields;
mod fixed;
mod laws;
mod read;
mod send;
mod write;

pub use bad::Bad;
pub use fields::{
    read_request, read_u16, read_u32, read_u64, read_view, split_bytes, split_u8, split_u16,
    split_u32, split_u64, split_view,
};
pub use laws::{
    fields_are_read, kinds_are_told, parts_are_told, read_fields_stand, read_is_spelled,
    spelled_is_read, spelling_is_injective,
};
pub use read::{decode, read_datagram};
pub use send::send_datagram;
pub use write::{encode, encode_reply, put_fragment, put_request, put_u32, put_u64, put_view};
