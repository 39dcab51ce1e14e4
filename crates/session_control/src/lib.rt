//! A controller core: it probes the current sequencer, and puts another one in its place under a new
//! session. Controllers are numbered, and each gives out sessions of epochs of its own.
//!
//! `Controller` meets `Core` with the step table `next`, from `opening` on; its state stays in its
//! ranges, its session one of its own. Whatever the inputs:
//!
//! - Each move to a sequencer has a greater session than the one before (`moves_rise`), and no two
//!   controllers have moves of one session (`moves_are_distinct`): a session that was seen is
//!   passed in the least later epoch of the controller's own (`fresh_epoch_is_least`,
//!   `sessions_go_on`). Where that epoch would not fit 32 bits no move is made (`sessions_end`).
//! - Each Install that is sent has the controller's number, and goes to the sequencer of its last
//!   move, with the session of that move (`installs_are_of_last_move`).
//! - What is not for it changes and sends nothing (`ignores_what_is_for_others`): malformed bytes,
//!   a datagram for others or of an earlier probe or session, a tick for others or one that orders
//!   a move to no sequencer, and an op.
//!
//! Calls: `Controller::new`, `step` and `timer` by the trait, `state`.
//!
//! Files: `state`, `sessions`, `rows`, `controller`. Definitions: `specs/ControllerSteps` (`next`,
//! `next_session`), `Moves`, `Ignoring`.
#![tactic(auto)]

mod controller;
mod laws;
mod rows;
mod sessions;
mod state;

pub use controller::Controller;
pub use laws::{
    fresh_epoch_is_least, ignores_what_is_for_others, installs_are_of_last_move,
    moves_are_distinct, moves_rise, sessions_end, sessions_go_on,
};
pub use state::{ControllerState, MISSED_END, PROBE_MILLIS, RESEND_MILLIS};
