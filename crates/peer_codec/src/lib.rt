//! The ten kinds of messages between replicas as bytes. A log is sent with its sync point, where
//! that is above 0 with the checkpoint that is in place of the entries up to it, and with the
//! entries above it.
//!
//! `decode_peer` answers the message that the bytes spell, with each field in its range, and for
//! other bytes the first test, in the order of the format, that they fail; `read_peer` answers None
//! for these. `encode_peer` appends the one spelling of a message that is in its ranges, and
//! nothing on an error; `encode_with_log` does so for a log that is borrowed. The first three laws
//! are those of `oum_codec`, said of messages: `spelled_is_read`, `read_is_spelled`,
//! `spelling_is_injective`. No message has more than 4,633,074 bytes (`spelling_is_limited`).
//!
//! Calls: `decode_peer`; `EncodedPeer`, a message that is kept by its spelling, with `new`,
//! `with_log`, `sender`, `as_slice`; `LogBody`.
//!
//! Files: `read`, `write`, `encoded`; `fields`, `logs` (with checkpoints), `lengths` and `log_body`
//! below them; `bad_peer` (the tests). Definitions: `specs/Spelling`, `Reading` (over `Fields` and
//! `Logs`), `LogBodies`.
#![tactic(auto)]

mod bad_peer;
mod encoded;
mod fields;
mod laws;
mod lengths;
mod log_body;
mod logs;
mod read;
mod write;

pub use bad_peer::BadPeer;
pub use encoded::EncodedPeer;
pub use laws::{read_is_spelled, spelled_is_read, spelling_is_injective, spelling_is_limited};
pub use log_body::LogBody;
pub use read::{decode_peer, read_peer};
pub use write::{encode_peer, encode_with_log};
