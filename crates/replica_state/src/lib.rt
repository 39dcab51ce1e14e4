//! The state of a replica, apart from the execution of its log and from how its messages travel;
//! what it sends; and the moves of which its rows are made: queue, take, open a gap, enter a view,
//! adopt a log and others.
//!
//! Each call that changes the state leaves, at Ok, what the definition of the move gives, and each
//! call that sends appends what its definition says. On an error the state is as it was, and
//! nothing more is sent. What is sent of a state that is in its ranges (`IsWithin`) is in its
//! ranges. `may_adopt` takes what a view starts with only from the leader of that view.
//!
//! The log is trimmed: a checkpoint is in place of its entries up to its sync point, which is
//! that for which votes are counted (`PointsMeet`). Of a log that is taken, all is taken where its
//! sync point is greater than the own one, and is the own one then; else its entries above the own
//! one (`adopted`, `overlaid` of logs). Where the sync point rose otherwise, `trim` lets the log
//! follow, with a checkpoint that the caller has, and hands out the entries that leave it.
//!
//! Calls, for `replica_rows`: `ReplicaState::opening`; `append`, `put_gap`, `ask`,
//! `count_gap_vote`, `lay_over`, `trim` (the log); `begin_session`, `queue`, `enter`,
//! `begin_gathering`, `adopt` (views); `send_to`, `send_to_all`, `send_change`, `send_start`,
//! `send_synced`, `send_short`, `send_result` (messages); `sync_commit` and `sync`, which move the
//! sync point; and the row `resend`. None of them executes or drains. `Sends` is what one step
//! sends, in order, the entries that left the log (`push_trimmed`) among it; `take` hands it out.
//!
//! Files: `state`, `sending`, `number`; `logging`, `views`, `messages`, `repeating`. Definitions:
//! `specs/State`, `Sends` (`Effect`, `then_do`), `Moves`, `Repeating`, `Replies`, `Within`.
#![tactic(auto)]

mod logging;
mod messages;
mod number;
mod repeating;
mod sending;
mod state;
mod views;

pub use number::NextNumber;
pub use sending::{Sending, Sends};
pub use state::ReplicaState;
