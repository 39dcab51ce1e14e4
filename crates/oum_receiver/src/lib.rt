//! The receiver of ordered unreliable multicast: it delivers the requests of one session by
//! consecutive message numbers, each as a request or a drop.
//!
//! Each call is a definition of `specs/Receiving`. Between two calls of `advance` or `reset`, what
//! is delivered has the receiver's session and numbers that rise by one
//! (`hands_up_consecutive_numbers`); each request that is delivered was offered in a packet of that
//! session and number (`hands_up_what_was_offered`); and two receivers whose packets have one
//! request for each session and number never deliver different ones (`receivers_agree`). At most
//! 1,024 requests are queued, each under a number from the next one on and below 2^48
//! (`stays_sound`).
//!
//! Calls: `Receiver::new`, `offer`, `offer_owned`, `front`, `take_front`, `take_message`,
//! `advance`, `reset`. An offer answers a `Verdict`: queued, or why not. For the proofs above:
//! `queues_what_was_stamped`, `message_leaves_the_queue`.
//!
//! Files: `receiver`, with `queue`, `upcall` and `verdict`. Definitions: `specs/Receiving`, `Front`
//! (what is next), `Runs` (what calls deliver).
#![tactic(auto)]

mod laws;
mod queue;
mod receiver;
mod upcall;
mod verdict;

pub use laws::{
    hands_up_consecutive_numbers, hands_up_what_was_offered, message_leaves_the_queue,
    queues_what_was_stamped, receivers_agree, stays_sound,
};
pub use receiver::Receiver;
pub use upcall::Upcall;
pub use verdict::Verdict;
