//! A schedule in, a transcript out; and schedules that are drawn from a number.
//!
//! How `replay` ends, over an observable source and sink (clause `ends`):
//! - Ok: all bytes were taken, no line is bad, and the sink's new bytes are `output` of them.
//! - Malformed: the bytes taken decide this first bad line, whatever follows; the output up to it
//!   was written, with its error line.
//! - ReadFault: the bytes taken decide no bad line, and the lines that they decide were written.
//! - WriteFault, NoMemory: a proper prefix of the output of the whole input was written.
//!
//! Each read goes through `open` or `next_event` of `reading`, which require that all is written
//! that the bytes taken so far decide (`MayRead`): an answer is out before the program waits.
//!
//! The transcript's first line has the form of the schedule's header.
//!
//! At Ok, of an observable source, the run of the bytes is safe, and what was read in it is right
//! (clause `safe`, `RunsSafely`).
//! A write that failed is always told: the sink's count of faults rises by one at WriteFault, and
//! stays at every other answer (clause `count`, of `generate` too). The source's count rises by
//! one at ReadFault, and stays at Ok and Malformed (clause `reads`). After a read that failed the
//! lines before it are written: what fails there is told in its place, so at WriteFault and
//! NoMemory the source's count may have risen by one. All of it is over any host.
//!
//! `events` gives the configuration and the events that are drawn from a number; each is carried
//! out in its turn (law `drawn_schedules_run`). `generate` writes the summary of their run, or a
//! proper prefix of it on an error. Each datagram of a run goes to an actor of its configuration
//! (law `datagrams_go_to_actors`).
//!
//! Calls: `replay` and `generate`, for `commands`.
//!
//! Files: `replayed`, `reading`, `turn`, `writing`; `generated`, `drawing`, `summary`. Definitions:
//! `specs/Output`, `Outcome` (`EndsWith`, `ReadsTo`), `Safety`, `Generated`.
#![tactic(auto)]

mod drawing;
mod error;
mod generated;
mod laws;
mod reading;
mod replayed;
mod summary;
mod turn;
mod writing;

pub use error::{GenError, ReplayError};
pub use generated::{MAX_DRAWN_EVENTS, events, generate};
pub use laws::{datagrams_go_to_actors, drawn_schedules_run};
pub use replayed::replay;
