//! The merge of the logs that replicas send to the leader of a new view.
//!
//! A merged log is as long as the longest. A slot has a NO-OP exactly where one of the logs has one
//! there; where the senders are distinct, any other slot has the request of the lowest sender whose
//! log has the slot (`merge_by_slot`), and the merge depends on the pairs of sender and log alone,
//! not on their order (`merge_is_of_pairs`).
//!
//! These laws are of plain changes, whose logs are lists. `merged` is the merge of the logs that
//! replicas tell, kept whole or trimmed: sync point and checkpoint are those of the best of them
//! (`best_has_the_greatest`), and of trimmed logs only what stands above that sync point is merged.
//! Where the senders are distinct it depends on who sent which log alone, sync point and checkpoint
//! too, and not on the order (`merged_is_of_pairs`). It is in its ranges where the logs are
//! (`merge_is_in_ranges`). Of whole logs it has the entries of the plain merge, and the greatest
//! sync point (`whole_merge_is_plain`).
//!
//! Calls, for `view_change`, of trimmed logs: `merge_of_view` gives the merge of the changes with
//! one last normal view, and copies no more than it gives; `merge_moved` gives the same, and moves
//! the entries and the checkpoint instead of copying them.
//!
//! Files: `choosing` (the best), `merging` (slot by slot), `moving` (two logs at a time).
//! Definitions: `specs/Merge`, `Merged` (what the laws say), `Merging` (of logs that are sent), and
//! `Starting`: `start_of` and `start_point`, the rule by which a view is started.
#![tactic(auto)]

mod choosing;
mod laws;
mod merging;
mod moving;

pub use laws::{
    best_has_the_greatest, merge_by_slot, merge_is_in_ranges, merge_is_of_pairs,
    merged_is_of_pairs, whole_merge_is_plain,
};
pub use merging::merge_of_view;
pub use moving::merge_moved;
