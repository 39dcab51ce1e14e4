//! Laws on logs that are trimmed: in place of its entries up to the sync point, a trimmed log has
//! the checkpoint of what their execution leaves (`trim`). Each law is the contract of a function
//! with an empty body; it speaks of the definitions `Logs` and `CheckpointedLogs` of `nop_types`,
//! in which a log is read as `Whole` or `Trimmed`, and of `Merging` of `log_merge` (`merged`). What
//! a call does with the trimmed log is what it does with the whole one, trimmed.
//!
//! - Logs: a trimmed log is as long as the whole one (`length_trims`), and has the same entries
//!   above its sync point (`above_trims`, `entry_trims`, `between_trims`), as many of them
//!   (`unsynced_trims`), and room for one more where the whole one has (`room_trims`). One may trim
//!   before or after an entry is appended (`append_trims`), a slot becomes a NO-OP (`noop_trims`),
//!   the first slots are taken (`first_trims`), another log is adopted (`adopt_trims`) or laid over
//!   the own one (`overlay_trims`). Of two logs the greater sync point is taken
//!   (`sync_points_rise`), and it stays within the log (`sync_points_stay_within`).
//! - Checkpoints: over a `Host`, a trimmed log has one exactly where something is trimmed, and it
//!   loads (`checkpoints_load`). The execution goes on from there (`executed_trims`), with the same
//!   results at the slots above (`results_trim`). One may trim before or after the sync point rises
//!   (`raise_trims`). Whatever the checkpoint of a log is, also one that no log has, its execution
//!   is sound (`executions_are_sound`), and what stands above a slot stays when the sync point
//!   rises to it (`raises_keep`).
//! - Ranges: a whole log in its ranges is trimmed into those of a trimmed one (`trims_in_ranges`).
//!   There a trimmed log stays when its sync point rises, and its results fit replies, also with a
//!   checkpoint that no log has (`trimmed_logs_keep_bounds`).
//! - The merge takes sync point and checkpoint of the change that `best_has_the_greatest` of
//!   `log_merge` tells. It trims where the merge of the whole logs begins with that change's
//!   synchronised entries (`merges_trim`), as where it begins with those of each change
//!   (`agree_from_prefixes`). Of whole logs it is that of `log_merge` (`whole_logs_merge`), its sync
//!   point is within it (`merge_stays_within`), and logs without checkpoints stay so
//!   (`no_checkpoints_come`).
//!
//! Replicas run over trimmed logs, and their protocol is proved over whole ones; by these laws the
//! two do the same. The laws rest on no protocol: that changes agree, and that sync points are
//! within the logs, is what a protocol gives.
//!
//! Files: `log_laws`, `checkpoint_laws`, `merge_laws`; `examples` computes logs and a merge worked
//! by hand (`specs/Worked`). Definitions: `specs/Trimming` (`trim`), `Merging` (`Agree`).
#![tactic(auto)]

mod checkpoint_laws;
mod examples;
mod log_laws;
mod merge_laws;

pub use checkpoint_laws::{
    checkpoints_load, executed_trims, executions_are_sound, raise_trims, raises_keep, results_trim,
    trimmed_logs_keep_bounds, trims_in_ranges,
};
pub use examples::{worked_adoption, worked_disagreement, worked_merge, worked_trimming};
pub use log_laws::{
    above_trims, adopt_trims, append_trims, between_trims, entry_trims, first_trims, length_trims,
    noop_trims, overlay_trims, room_trims, sync_points_rise, sync_points_stay_within,
    unsynced_trims,
};
pub use merge_laws::{
    agree_from_prefixes, merge_stays_within, merges_trim, no_checkpoints_come, whole_logs_merge,
};
