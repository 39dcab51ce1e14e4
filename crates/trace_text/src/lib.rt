//! The lines of traces: what a node tells of its steps, for an audit.
//!
//! A step of an actor has one line `in`, of what it took, and behind it one line `out` for each
//! output, in order. At the tick Next a client takes the first op that waits: its line is that of the
//! op, and a Next that submitted nothing has no lines. A client that asks an observer at its own
//! timer takes a read. That a client was busy, and which entries left a log, are not told.
//! The first line of a whole trace is that of a schedule.
//!
//! Proved: `trace_step` appends exactly the lines of a step, and `header_line` exactly the first
//! line of a schedule of its form; on an error nothing is appended.
//! `trace_rows` reads the lines of steps.
//!
//! Calls: `trace_step`, `header_line`.
//!
//! To read in this order: `step`, `header`; then `specs/Traces` (`trace_lines`, `in_line`,
//! `out_line`, `header_line`).
#![tactic(auto)]

mod header;
mod step;

pub use header::header_line;
pub use step::trace_step;
