//! The client core: up to eight requests are open at a time, and each is accepted at f + 1 matching
//! replies with the leader's; and one read waits at a time, for the answer of the observer that was
//! asked.
//!
//! `Client` meets `Core` with the step table `next`, from `opening` on; its state stays in its
//! ranges. Its state is a record with a field for each half of it (`specs/Core`): its requests, and
//! its reads (`client_reads`, which has the laws on them). A step is one of its requests, and then
//! one of its reads (`steps_both_halves`); where it is asked for no key, its requests act alone
//! (`acts_as_its_requests`). Of its requests, whatever the inputs:
//!
//! - A reply to an open request makes it accept a result exactly where f + 1 replies that are kept
//!   for it, this one with them, are of one view and slot, the leader's among them with that result
//!   (`accepts_exactly_at_a_quorum`); so many replicas had replied so
//!   (`accepts_what_replicas_replied`). What is kept for a request is no quorum
//!   (`keeps_no_quorum`).
//! - Each id is submitted once, in turn, where it is less than eight above each open one, and
//!   accepted at most once, in any order (`takes_turns`, `uses_each_id_once`). Ops that wait are
//!   submitted in order; where no other op comes, none is lost (`submits_waiting_ops_in_order`).
//!   `accepted` is the acceptance of an id, with its slot, or None where it is none of the last
//!   eight or open (`knows_recent_requests`).
//! - Each step is a row (`steps_are_rows`). Which requests are open, whether one more may be, and
//!   what is kept for each is said in words (`specs/OpenRequests`); what rows do to these
//!   (`rows_move_open_requests`), and how they hang together (`words_agree`), is all that is known
//!   of them above.
//! - Where no other op comes, they are done exactly when all its ops are accepted
//!   (`is_done_when_all_are_accepted`).
//! - What is not for them changes and sends nothing (`ignores_what_is_for_others`): malformed
//!   bytes, a datagram that is no reply of a replica to an open request, and a tick for others.
//!
//! Calls: `Client::new`, `step` and others by the trait, `state`, `accepted`, `can_submit`.
//!
//! Files: `state`, `open_requests`, `replies`, `recent`, `waiting`, `rows`, `client`. Definitions:
//! `specs/Core`, `ClientSteps` (`next` of its requests), `OpenRequests`, `Opens`, `Rows`,
//! `KeptReplies`.
#![tactic(auto)]

mod client;
mod laws;
mod open_requests;
mod recent;
mod replies;
mod rows;
mod state;
mod waiting;

pub use client::Client;
pub use laws::{
    accepts_exactly_at_a_quorum, accepts_what_replicas_replied, acts_as_its_requests,
    ignores_what_is_for_others, is_done_when_all_are_accepted, keeps_no_quorum,
    knows_recent_requests, rows_move_open_requests, steps_are_rows, steps_both_halves,
    submits_waiting_ops_in_order, takes_turns, uses_each_id_once, words_agree,
};
pub use open_requests::{Open, OpenList};
pub use recent::Recent;
pub use replies::Replies;
pub use state::ClientState;
pub use waiting::Waiting;
