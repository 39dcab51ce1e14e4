//! Who may run under an actor's number: what processes ask the links of others before they serve, and what links answer; and
//! which actor may send which datagram.
//!
//! A process that starts greets the nodes of its cluster: first it asks whether its number was claimed by another process, then it
//! claims it. Each link keeps who claimed which number, as long as it lives. So a number that a process had, and perhaps lost what
//! it promised under it, is no second process's.
//!
//! Proved: a greeting has one spelling of 23 bytes, which is read back, and other bytes are refused (`spelled_is_read`,
//! `read_is_spelled`). What a link answers and keeps is `answered` (`specs/Registries`): whatever it is asked, a number belongs to one
//! process, no other is told that it is noted, and a question that only asks changes nothing (`numbers_belong_to_one`,
//! `asking_leaves_no_trace`). Two processes that more than half of the same links noted under one number are one, where these links
//! kept their memory (`noted_by_most_is_one`). What an asking process does at a time and at an answer is `turned` and `heard`
//! (`specs/Rounds`): it is admitted only where all that count, or more than half of them, answered that it is noted, and it claims
//! nothing before as many answered that its number is free (`admitted_by_most`, `claims_come_after_asks`). So two processes that
//! were admitted under one number are one, where the links that noted them kept their memory (`admitted_processes_are_one`).
//!
//! A datagram may come from an actor's address where its kind, and the sender that it names, fit that actor: `comes_from` is the
//! definition of its name, over plain bytes (`specs/Sources`). Bytes that spell no datagram may pass: no core heeds those.
//!
//! Calls: `Greeting::read` and `to_bytes`; `Registry::new` and `answer`; `Admission::new`, `turn`, `hear`, `standing` and `others`;
//! `comes_from`.
//!
//! To read in this order: `greeting`, `actors`, `claim`, `registry`, `own`, `others`, `asking`, `laws`, `sources`; then
//! `specs/Greetings`, `Actors`, `Registries`, `Rounds`, `Questions`, `Asked`, `Sources`.
#![tactic(auto)]

mod actors;
mod asking;
mod claim;
mod greeting;
mod laws;
mod others;
mod own;
mod registry;
mod sources;

pub use asking::Admission;
pub use claim::Claim;
pub use greeting::{BadGreeting, GREETING_BYTES, Greeting, Word};
pub use laws::{
    admitted_by_most, admitted_processes_are_one, asking_leaves_no_trace, claims_come_after_asks,
    noted_by_most_is_one, numbers_belong_to_one, read_is_spelled, spelled_is_read,
};
pub use own::{Other, Own, Standing};
pub use registry::{MAX_CLIENT_CLAIMS, Registry};
pub use sources::comes_from;
