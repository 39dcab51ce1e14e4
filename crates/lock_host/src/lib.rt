//! A lock service with fencing tokens, a `Host`: locks are acquired, released and inspected by
//! name, each op can be undone, and states are saved as bytes.
//!
//! `LockHost` meets the trait with the definition `lock_meaning`. An acquire of a lock that nobody
//! holds is answered `granted` and a token, one more than the last that was granted of any lock;
//! its owner is told that token again as often as it asks, others are answered `held`, the token
//! and the owner. A release by the owner with the token frees the lock (`released`); any other is
//! `refused`. An inspect is answered as others are, or `free`. While `MAX_LOCKS` are held an
//! acquire of one more is answered `full`, and after `LAST_TOKEN` it is `spent`. On an error the
//! state is as before.
//!
//! A holder passes its token along with each write to what the lock guards. Whoever takes the
//! writes remembers the greatest token that it saw and refuses lower ones: so a holder that comes
//! late, after its lock was released and granted again, does no harm. A lock is held until it is
//! released: a host has no clock, so there are no leases. Tokens are no secrets.
//!
//! Laws, over all lists of ops: `tokens_rise`, `a_lock_has_one_holder`, `only_the_holder_releases`,
//! `locks_are_held_until_released`, `a_grant_is_answered`. Names have 1 to 64 bytes; so answers have
//! at most 76, and saved states at most 565,264 (`answers_and_states_are_limited`). Ops are read
//! from the bytes that spell them and from no others (law `ops_are_read_as_spelled`); other bytes
//! are answered `bad`, and change nothing. The answers to ops of bytes are bytes (law
//! `answers_are_bytes`). A state is saved as the last token and the places of the locks; it loads
//! again, and nothing else does. To load takes time that grows with the square of the number of
//! locks.
//!
//! Calls: `LockHost`, by the trait; the program `lock_service` names it. `read` and `number`, for
//! the text form of ops (`lock_text`).
//!
//! Files: `op` and `fields` (reading), `locks` (`LockTable`), `apply`, `answers`, `saved`, `host`,
//! `laws`. Definitions: `specs/Op` (`read_op`), `Fields`, `Spelling` (`Spells`), `Locks` (`step`,
//! `undone`), `Saved` (`saved`, `loaded`), `Service` (`lock_meaning`, `IsSound`), `Tokens` (laws).
#![tactic(auto)]

mod answers;
mod apply;
mod fields;
mod host;
mod laws;
mod lock;
mod locks;
mod name;
mod op;
mod saved;
mod undo;

pub use host::LockHost;
pub use laws::{
    a_grant_is_answered, a_lock_has_one_holder, answers_and_states_are_limited, answers_are_bytes,
    locks_are_held_until_released, only_the_holder_releases, ops_are_read_as_spelled, tokens_rise,
};
pub use lock::Lock;
pub use locks::{LAST_TOKEN, MAX_LOCKS};
pub use name::{MAX_NAME_BYTES, Name};
pub use op::{ACQUIRE, INSPECT, LockOp, RELEASE, read};
pub use undo::LockUndo;
