//! Why what an observer reads is right: its rows against the protocol.
//!
//! Proved: an observer to which anything came that was said at any time, in any order and any number of
//! times, has executed what is synchronised, and its candidate begins the log of its view's leader
//! (`observers_are_watched`, over whole logs; the protocol's invariants are the only condition). So what it
//! answers to any op is what the service answers after those members of the history that stand in the first
//! slots of the main log, up to the position (`watched_read_the_main_log`). The rows over trimmed logs are
//! those over whole ones, trimmed, and the answers are the same (`rows_trim`, `answers_trim`).
//!
//! Nothing of the protocol is changed or asked anew: no replica hears an observer.
//!
//! Definitions: `specs/Watching` (`Watched`, `ReadsMain`), `Trimmed`. For runs of the world see
//! `safety`.
#![tactic(auto)]

mod laws;

pub use laws::{answers_trim, observers_are_watched, rows_trim, watched_read_the_main_log};
