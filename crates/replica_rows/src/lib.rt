//! The rows of a replica's step table over whole messages and over any host: stamped requests, gap
//! agreement, view changes, synchronisation and ticks.
//!
//! Each row is a method of `Member` with one contract. Before it the member `IsRunning`: its state
//! is in its ranges, its log and those of the changes that it gathered load, and the executor has
//! executed its log up to some slot. At Ok it `Does` the row: it runs on, its state is the one that
//! the row's definition gives, and what the definition sends is appended. A leader's reply has the
//! result of the log at its slot. After `take` the host has executed the log up to the slot that
//! `executed_to` says: a leader in Normal all of it, any other replica up to the sync point. After
//! an error a member is not known to run.
//!
//! The log is trimmed: a checkpoint is in place of the entries up to its sync point. A row that
//! may move the sync point trims the log at once (`then_trim`), with a checkpoint of what is
//! executed up to there; then it sends, hands out the entries that were trimmed, and takes what waits
//! (`send_trimmed`). Where a log with a greater sync point is taken, the execution begins anew from its
//! checkpoint; where it has none that is greater, what is executed above the own one is taken back.
//! A message whose checkpoint does not load does nothing.
//!
//! Laws, of the table, which is read in two ways, over whole logs and over trimmed ones, as the code
//! does: a row sends at most eight messages (`rows_send_few_messages`); a replica takes from its
//! receiver only in Normal, with no gap that waits and with room in the log, and what is next there
//! decides what it does (`drains_by_front`); a message whose checkpoint does not load does nothing
//! (`messages_that_do_not_load_rest`); whole logs keep the entries up to the sync point as they are,
//! whatever arrives, unless a log is sent with a greater sync point (`synchronised_entries_stay`).
//!
//! Calls, for `replica_core`: `Member::new`; `Member::take`, which finds the row of an `Arrival`.
//!
//! Files: `member`, `arrivals` (which row), `leader`, `follower`, `view_changes`, `ticks`; what
//! rows share is in `drain`, `entering`, `adopting`, `trimming` (the log is trimmed to its sync point),
//! `reply`, `execution`. Definitions: `specs/Rows`, one a row, `Messages` (`arrive`), `Within`
//! (`IsRunning`, `Does`), `Trimming`.
#![tactic(auto)]

mod adopting;
mod arrivals;
mod drain;
mod entering;
mod execution;
mod follower;
mod laws;
mod leader;
mod member;
mod reply;
mod ticks;
mod trimming;
mod view_changes;

pub use arrivals::Arrival;
pub use laws::{
    drains_by_front, messages_that_do_not_load_rest, rows_send_few_messages,
    synchronised_entries_stay,
};
pub use member::Member;
pub use replica_state::{ReplicaState, Sending, Sends};
