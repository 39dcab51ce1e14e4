//! The key-value service, a `Host`: gets, puts, deletes and swaps, each of which can be undone, and
//! states that are saved as bytes.
//!
//! `KvHost` meets the trait with the definition `kv_meaning`: a finite map that begins empty, where
//! a get answers with the value, a put and a delete with the former one, and a swap with whether
//! the key had the old value. A put of a key without a value, where `MAX_KEYS` keys have one, is
//! answered `full`, and changes nothing. What undoes an op is the record `undo_of`: the key and the
//! value that it had. On an error the state is as before.
//!
//! In each state that ops lead to at most `MAX_KEYS` keys have a value, keys have 1 to 64 bytes and
//! values at most 256; so answers have at most 257, and saved states at most 1,327,108
//! (`saved_states_are_limited`).
//!
//! Ops are read from the bytes that spell them and from no others (law `ops_are_read_as_spelled`);
//! other bytes are answered `bad`, and change nothing. A state is saved as how many keys have a
//! value, and these keys with their values, keys ascending; it loads again, and nothing else does.
//! The answers to ops of bytes are bytes (law `answers_are_bytes`).
//!
//! Calls: `KvHost`, by the trait; crates above name it where they choose the service. `read`, for
//! the text form of ops (`kv_text`).
//!
//! Files: `op` (reading), `apply`, `undo`, `saved`, `host`, `laws`; `table` keeps a place for each
//! key that was ever written, and counts those with a value. Definitions: `specs/Kv` (`answer_to`,
//! `state_after`), `Saved` (`saved`, `loaded`), `Op` (`read_op`), `Spelling` (`Spells`), `Undo`.
#![tactic(auto)]

mod apply;
mod host;
mod key;
mod laws;
mod op;
mod saved;
mod table;
mod undo;
mod value;

pub use host::KvHost;
pub use laws::{answers_are_bytes, saved_states_are_limited};
pub use op::{DELETE, GET, KvOp, PUT, SWAP, ops_are_read_as_spelled, read};
pub use table::MAX_KEYS;
pub use undo::KvUndo;
