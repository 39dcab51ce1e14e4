//! The sequencer core: it writes its session and rising message numbers on requests, takes the newer
//! sessions that controllers install, and answers each of them and their pings.
//!
//! `Sequencer` meets `Core` with the step table `next`, from `opening` on; its state stays in its
//! ranges. Over any steps and calls of `stamp`:
//!
//! - No two packets are stamped with one session and number (`stamps_once`), and what a step sends
//!   to the replicas are the packets that it stamps (`outputs_are_stamps`).
//! - What is not for it changes and sends nothing (`ignores_what_is_for_others`): malformed bytes,
//!   a datagram for others, a tick, an op, and a request where there is no session or no number is
//!   left.
//!
//! Calls: `Sequencer::new`, `step` by the trait, `state`; `stamp` stamps a request outside a step.
//!
//! Files: `state`, `rows`, `sequencer`. Definitions: `specs/SequencerSteps` (`next`), `Runs`
//! (`stamps`), `Ignoring`.
#![tactic(auto)]

mod laws;
mod rows;
mod sequencer;
mod state;

pub use laws::{ignores_what_is_for_others, outputs_are_stamps, stamps_once};
pub use sequencer::Sequencer;
pub use state::SequencerState;
