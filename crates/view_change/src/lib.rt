//! View changes at the new leader: what it gathers from the replicas, and what it starts the view
//! with.
//!
//! `Changes` has one change of each sender, the first that came (`senders_count_once`). The view is
//! started exactly where f + 1 senders are there, its own among them, with what the starting rule of
//! `log_merge` gives for their changes: the next number (`start_of`), and the merge of their trimmed
//! logs, whose sync point and checkpoint are those of the best of them (`merged`). Only the logs of
//! the last normal view of greatest rank count (`kept_changes`). In which order the changes came does
//! not matter (`starts_have_no_order`).
//!
//! Calls, for the state and the rows of a replica: `Changes::enter`, `on_change`, `is_enough_with`;
//! `start_with` moves the logs instead of copying them, and `start_now` is for a leader without
//! others.
//!
//! Files: `changes`, `starting`; `specs/Gathering` (`with_change`, `step_of`). A gathering there is
//! of the changes that are sent, or of plain ones, as the protocol has it.
#![tactic(auto)]

mod changes;
mod laws;
mod starting;

pub use changes::Changes;
pub use laws::{senders_count_once, starts_have_no_order};
pub use starting::{Start, Step};
