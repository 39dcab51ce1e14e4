//! The replica core, over any host: it reads datagrams, joins fragments, takes the rows of
//! `replica_rows`, and sends their messages as fragments. Entries that a row moves out of the log
//! are moved on, as `Out::Trimmed`.
//!
//! `Replica` meets `Core` with the step table `next`, from `opening` on, whatever comes, forged
//! datagrams too. While it has not failed each field of its state is in its range. Its log, next
//! number, receiver and reassembly keep their limits also after that (`KeepsLimits`).
//!
//! - Each message can be cut (`messages_are_cut`), and their numbers never come to their end
//!   (`message_numbers_end`), so NoMemory is the only error.
//! - A row that would pass a limit changes and sends nothing (`rows_rest_at_limits`).
//! - So it is with what is not for it (`ignores_what_is_for_others`): malformed bytes, a datagram
//!   for others, a fragment of its own number or of none of the group, an op, a message of no other
//!   replica, and one that counts only in its view in Normal, in another view or status.
//!
//! Calls: `Replica::new`, `step` and `timer` by the trait; `view`, `status`, `last_normal`, `log`,
//! `sync_point`, `executed`, `messages`, `held`.
//!
//! Files: `replica`, `posting`. Definitions: `specs/ReplicaSteps` (`next`), `Posting` (`posted`),
//! `Within` (`KeepsLimits`), `Ignoring`.
#![tactic(auto)]

mod laws;
mod posting;
mod replica;

pub use laws::{
    ignores_what_is_for_others, message_numbers_end, messages_are_cut, rows_rest_at_limits,
};
pub use replica::{LAST_MESSAGE, RESEND_MILLIS, Replica, SYNC_MILLIS, WATCH_MILLIS};
