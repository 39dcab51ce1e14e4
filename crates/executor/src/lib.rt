//! The execution of a replica's log, forward and back, over any host. The log is trimmed: it begins
//! with a checkpoint, in place of the entries up to its sync point.
//!
//! After each call that succeeds, whatever was executed and undone before, the host's state and the
//! client table are what the log leaves up to the slot `reached()`, from its checkpoint on
//! (`HasExecuted`): a request is executed where its client is served and its id is new. `run_to`
//! executes up to a slot. `rewind` undoes down to one, no lower than the sync point; it takes no
//! memory. `restart` begins anew from a log's checkpoint, which loads where `checkpoint_loads` says
//! so. `checkpoint` gives the execution as values, which load, within the limits of a checkpoint
//! where the log is in its ranges. After `rebase` what is executed cannot be undone any more: it is
//! an execution of the log whose sync point rose to there. `result` is what is kept for a request;
//! where that is the one at the last executed slot, it is the result there (`IsResult`). Where
//! memory ran out in `run_to`, the executor has failed, and has executed up to a slot on the way.
//!
//! Calls, for `replica_rows`: `checkpoint_loads`; `Executor::new`, `reached`, `run_to`, `rewind`,
//! `restart`, `rebase`, `result`, `checkpoint`. Laws: what a slot keeps undoes its entry
//! (`entry_is_undone`); the executed slots alone matter (`executed_slots_are_enough`), so an
//! execution of a log stays one where the log changes above them (`execution_stays`), and none is
//! past the log's end (`reached_is_within`); two executions of as many entries are equal
//! (`executions_are_equal`).
//!
//! Files: `executor`, `moves` (one slot forward or back), `slot_undo`, `laws`. Definitions:
//! `specs/Running`, `Undoing` (`HasExecuted`), `Results`.
#![tactic(auto)]

mod executor;
mod laws;
mod moves;
mod slot_undo;

pub use crate::executor::{Executor, checkpoint_loads};
pub use laws::{
    entry_is_undone, executed_slots_are_enough, execution_stays, executions_are_equal,
    reached_is_within,
};
