//! What each run of the protocol promises, over any host.
//!
//! Of each run of moves from the initial configuration: any two replicas have the same entries up
//! to both sync points, what a replica has up to its own begins the log from which the history is
//! read, the lines are legal of that history, what a client keeps as accepted is in it from its slot
//! on, and what it has open is stale in no replica's log (`runs_are_safe`); all that was stamped,
//! sent, logged, replied and accepted is sound (`runs_are_sound`); and no later move takes back what a
//! run has reached (`runs_go_on`).
//!
//! It goes on where `protocol` ends: sync points, a replica's own and those sent with logs, have an
//! invariant `Sync` of their own above `Inv` (`opening_is_synced`, `syncs_keep`), and they never
//! fall (`sync_points_never_fall`). The parts of `runs_are_safe` are laws too:
//! `synchronised_prefixes_agree`, `synchronised_prefixes_begin`, `lines_are_legal`,
//! `accepted_stand_from_their_slots`, `open_is_never_stale`. A gap that waits is above the sync point,
//! so a leader may tell what it has synchronised (`gaps_stay_above`); and a view starts with what each
//! gathered log has up to its sync point (`starts_begin_with_synchronised`).
//!
//! Files: `laws`. Definitions: `specs/Laws` (`Safe`, what the laws say), `Sound` (soundness part by
//! part, `GoesOn`), `Synced` (`Sync`), `Above`, `Gathered`.
#![tactic(auto)]

mod laws;

pub use laws::{
    accepted_stand_from_their_slots, gaps_stay_above, lines_are_legal, open_is_never_stale,
    opening_is_synced, runs_are_safe, runs_are_sound, runs_go_on, starts_begin_with_synchronised,
    sync_points_never_fall, synchronised_prefixes_agree, synchronised_prefixes_begin, syncs_keep,
};
