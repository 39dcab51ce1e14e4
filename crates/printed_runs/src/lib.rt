//! Schedules that are printed are read again: there is no code; the law is the contract of a
//! function with an empty body.
//!
//! - `printed_is_read`: over any `Host`, take the events of any run, whose lines mean them, as
//!   `event_line` of `schedule_text` ensures of each. A header and these lines, as `printed` has
//!   them, are read as this header and these events: no line is bad, and what `replay` writes for
//!   them is the transcript of the run. The premise is that they have no more lines than a
//!   schedule may have.
//!
//! So who prints the events of a run prints a schedule that replays: `one_box` for a cluster, and
//! `audit` for the traces of nodes.
//!
//! The proof: `proofs/Places` (an event that happens names actors of the configuration),
//! `HeaderTexts` (the first line), `WholeLines` (lines that are read stand in the text with their
//! ends), `Printing`. Definitions: `specs/Printing` (`printed`, `IsReadAs`).
#![tactic(auto)]

mod laws;

pub use laws::printed_is_read;
