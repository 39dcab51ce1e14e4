//! The step table of a replica over trimmed logs: what arrives does there what it does over whole
//! logs, trimmed (`rows_trim`). So a replica, which runs over trimmed logs, does step by step what
//! the protocol does, which is proved over whole ones.
//!
//! The law is about the table of `replica_rows`, which is read in two ways (`Keeping` of
//! `nop_types`), over any host: for every state whose sync point, prepared length and round are
//! within its log, and whatever arrives with its sync point within its log; where enough changes
//! are gathered to start a view, their merge has to begin with what the change of the greatest sync
//! point has up to there (`PointsWithin`, `ArrivesWithin`: the protocol gives both, see
//! `whole_can_trim` of `whole_world`). The entries between an old sync point and the new one, which
//! move out of a trimmed log, are the same in both readings. `steps_of_whole_logs` and
//! `steps_of_trimmed_logs` are the steps of a log that is synchronised, worked by hand.
//!
//! Files: `row_laws`, `synchronising`. Definitions: `specs/Trimmed` (the trimmed state, arrival and
//! effect), `Premises`, `WorkedSteps`.
#![tactic(auto)]

mod row_laws;
mod synchronising;

pub use row_laws::rows_trim;
pub use synchronising::{steps_of_trimmed_logs, steps_of_whole_logs};
