//! An audit of traces: whether what nodes tell of their steps is a run of the protocol.
//!
//! Of `audit`, over a source and a sink that are observable (clause `ends`):
//! - Ok: all bytes were taken and no line has a fault; the sink's new bytes are the schedule of the steps
//!   and their number.
//! - Refuted: the bytes taken decide this first line with a fault, whatever follows, and its first
//!   fault; that alone was written.
//! - ReadFault: the bytes taken decide no line with a fault. Nothing was written.
//! - WriteFault, NoMemory: a proper prefix of what is written for the whole input was written.
//!
//! Proved beside that: at Ok the bytes are a trace of steps, each its actor's own in the world of the steps
//! before, that takes only what was sent; they are a run, it is safe, what the trace says was submitted and
//! accepted is legal of its history, and the schedule is read as this run (clause `audited`). Bytes that are
//! such a trace are never refused (`passes`). ReadFault and WriteFault come exactly where a read or a
//! write failed (`reads`, `count`).
//!
//! Call: `audit`, for `commands`.
//!
//! Files: `audited`, `reading`, `progress`, `taking`, `missing`, `comparing`, `names`, `writing`.
//! Definitions: `specs/Auditing` (`audit_of`), `Outcome` (`AuditEnds`), `Traces` (`IsTrace`).
#![tactic(auto)]

mod audited;
mod comparing;
mod error;
mod limits;
mod missing;
mod names;
mod progress;
mod reading;
mod row_error;
mod taking;
mod writing;

pub use audited::audit;
pub use error::AuditError;
pub use limits::{MAX_STEPS, MAX_TRACE_LINES};
