//! A client that reads what is new enough: it asks an observer for a key, and asks again while the
//! answers are behind a position.
//!
//! `FreshRead` meets `Core` over the client of `client_quorum`: it takes each step of the client, but
//! that at the tick Retry it asks for the key again where the last answer was behind, a new read
//! each time. It is done once an answer's position is not below the least: there is one such answer
//! then, and none before (`has_one_fresh_answer`). With the least position 0 the first answer ends
//! it.
//!
//! Calls: `FreshRead::new`, `step` and others by the trait.
//!
//! Files: `fresh_read`, `laws`. Definitions: `specs/FreshReads`.
#![tactic(auto)]

mod fresh_read;
mod laws;

pub use fresh_read::FreshRead;
pub use laws::has_one_fresh_answer;
