//! Each step of an actor is a list of moves of `protocol`, over any host: the laws that tie the
//! step tables of the cores to it.
//!
//! In a configuration that meets the invariant and has the actor's state, let something come to the
//! actor: a datagram that was sent, malformed bytes, a tick or an op. There are moves, each of
//! which may be made, that lead to its new state, change no other actor, and send and print what
//! the step sends and prints, and nothing else (`clients_reach`, `sequencers_reach`,
//! `controllers_reach`); so it is with a replica's rows over whole messages, where logs are kept
//! whole (`replicas_reach`): the protocol has their entries as lists, and their sync points beside
//! them. The initial configuration has each actor in its initial state (`openings_match`).
//!
//! What is sent stays in its ranges, where ops do and what a replica's row sends (`datagrams_fit`,
//! `steps_stay_in_ranges`). A session that begins with a packet may as well be entered first
//! (`new_session_enters_then_queues`), and a replica that is not alone does nothing more when it
//! enters a view (`enters_only`).
//!
//! Files: `laws`, `ranges`; the proofs of `safety` cite them. Definitions: `specs/Projection` (what
//! the protocol keeps of an actor), `Replicas`, `Steps` (`LeadsTo`), `Clients`, `Sequencers`,
//! `Controllers`, `Ranges`.
#![tactic(auto)]

mod laws;
mod ranges;

pub use laws::{
    clients_reach, controllers_reach, enters_only, new_session_enters_then_queues, openings_match,
    replicas_reach, sequencers_reach,
};
pub use ranges::{datagrams_fit, steps_stay_in_ranges};
