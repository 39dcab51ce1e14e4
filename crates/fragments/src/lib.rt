//! Cutting a peer message into fragments of at most 1,400 bytes, and joining them again.
//!
//! `cut` sends the fragments of the definition `fragments_of`, and answers Size exactly where there
//! are no bytes, or more than 4,096 fragments would be needed. `Reassembly::take` is the definition
//! `taken`: it answers bytes only where each of their parts, one for each index, was taken from
//! that sender with that number and count (`answers_what_came`). Where every fragment was cut by
//! its sender, and no sender used a number twice, these bytes are one message that it sent
//! (`answers_what_was_sent`). What is cut, and taken in order where nothing was kept, is joined
//! (`cut_is_joined`).
//!
//! Whatever comes, of a sender at most 4 unfinished messages are kept, of at most 4,096 parts of at
//! most 1,400 bytes (`stays_within_limits`).
//!
//! Calls: `cut`; `Reassembly::new`, `take`, `senders`, `held` (the bytes that are kept of a
//! sender). Laws for the proofs above are `keeps_what_came`, `message_within_limit_is_cut`,
//! `cut_fragments_fit` and those beside them.
//!
//! Files: `cutting`; `reassembly`, `queue` (one sender), `unfinished` (one message). Definitions:
//! `specs/Cutting`, `Joining`, `Runs`.
#![tactic(auto)]

mod cut_error;
mod cutting;
mod laws;
mod queue;
mod reassembly;
mod unfinished;

pub use cut_error::CutError;
pub use cutting::cut;
pub use laws::{
    answers_what_came, answers_what_was_sent, cut_fragments_fit, cut_is_joined,
    fitting_is_in_range, keeps_what_came, message_within_limit_is_cut, stays_within_limits,
};
pub use reassembly::Reassembly;
