//! The reads of a client: it asks an observer for a key, and takes that observer's answer.
//!
//! `ClientReads` is a part of a client: its `step` gives `next` of state and input, from `opening`
//! on, and where memory runs out leaves all as before. Whatever the inputs:
//!
//! - One read waits at a time: each is asked under the next id, what is sent is the read that waits,
//!   to its observer, and it is answered once, by that observer (`reads_take_turns`,
//!   `uses_each_id_once`, `answers_what_was_asked`).
//! - Each step is a row (`steps_are_rows`). The last id is the number of reads, of which at most the
//!   last waits (`counts_reads`).
//! - Each read that is sent is in its ranges (`sends_reads_in_ranges`).
//! - What is not for it changes and sends nothing (`ignores_what_is_for_others`): malformed bytes,
//!   a datagram that is no answer to the read that waits, a tick for others, and an op.
//!
//! Calls: `ClientReads::new`, `step`, `pending`, `state`, `is_done`.
//!
//! Files: `state`, `rows`, `reads`. Definitions: `specs/ReadSteps` (`next`), `Rows`, `Runs`,
//! `Ignoring`.
#![tactic(auto)]

mod laws;
mod reads;
mod rows;
mod state;

pub use laws::{
    answers_what_was_asked, counts_reads, ignores_what_is_for_others, reads_take_turns,
    sends_reads_in_ranges, steps_are_rows, uses_each_id_once,
};
pub use reads::ClientReads;
pub use state::{Reading, Reads};
