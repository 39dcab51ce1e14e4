//! Reads in runs of the world: who asked whom, what was answered, and what was told.
//!
//! Proved of each run of the world, from any schedule, over any service, without a word of the protocol:
//!
//! - An observer knows only what was sent: it took some inputs, of which each packet was sent by then, or
//!   spells no datagram (`observers_received`).
//! - Each line that answers a read stands behind the one line that asks for it, to the observer that answers.
//!   Its result is what that observer reads at its position; and where an answer of an observer stands before
//!   a line that asks it again, what is answered to that is no earlier (`runs_read_right`). The law takes as a
//!   premise that what observers read is right of some log, and says it of the lines; the log is the one of
//!   which `safety` proves that.
//!
//! An exchange (`proofs/Exchanges`) has the positions of observers, of each client the last id and the read
//! that waits, what was sent and the lines. Whatever is lost, repeated and reordered, and whichever observer a
//! read reaches, it stays consistent; and each step of the world is one of an exchange (`proofs/Worlds`).
//! Replicas, sequencers, controllers and the requests of clients send no reads and answers (`proofs/Silent`).
//!
//! Definitions: `specs/Received`, `Runs`; what is right is `ReadsAreRight` of `nop_types`.
#![tactic(auto)]

mod laws;

pub use laws::{observers_received, runs_read_right};
