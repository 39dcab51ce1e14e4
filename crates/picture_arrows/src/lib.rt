//! What became of the datagrams of a run, for its picture: which delivery each arrow shows, which
//! datagrams never came, and which actors get a column.
//!
//! `deliver` gives the arrow of a delivery (`arrow_of`): from the row and the actor that sent the
//! datagram to those that take it, faint exactly where that actor had taken it before. Of the
//! record it changes only who was reached, and not that on an error. `actors` is all actors of a
//! configuration, and `lanes` those of a list that are replicas, take a step or miss something
//! (`has_lane`).
//!
//! What was never delivered is `missed_from`: sent to an actor by another, not taken by it, and
//! sent before it crashed; what is for all sequencers is missed by each that did not take it. That is
//! the contract of `missed`, inside; that the crosses of `losses` show it is tested.
//!
//! Calls, for `drawing`: `deliver`, `losses`, `actors`, `lanes`, and the records `Flight`, `Leg`,
//! `Crash`.
//!
//! Files: `flight`, `missed`, `lane_actors`; `specs/Deliveries`, `Missed`, `Actors`.
#![tactic(auto)]

mod flight;
mod lane_actors;
mod missed;

pub use flight::{Flight, Leg, deliver};
pub use lane_actors::{actors, lanes};
pub use missed::{Crash, losses};
