//! A node: one loop that serves any core over a link, a clock and a sink. In each turn it fires the
//! timers that are due, polls the link once, and carries out what the core gives after each step,
//! in order. One that writes a trace writes, before it sends what a step gave, in one text what the
//! step took and gave, and no other line.
//!
//! Clauses of `serve`:
//! - `run`: over an observable link and clock, its calls on the link and what it prints are exactly
//!   those of `node_run`, the fold of the core over its turns, in order and without the sends that
//!   failed; after an error a prefix of that.
//! - `turns`, `done`, `spent`, `took`: it took at most its turns, and all of them where the core is
//!   not done; over any devices, the lines are those of the first input and of some packets and ticks.
//! - the laws `same_is_sent` and `trace_has_each_step`: with a trace or without, a run makes the same
//!   calls on its link; its trace is the lines of its steps in order. So where a write of a trace
//!   fails, what was sent is what the steps before gave, and a front of this step's lines stands.
//! - `lost`, and the law `counts_failed_sends`: LOST is no more than the link's losses rose by
//!   (unless they are at their end, 2^64 - 1), and over an observable link exactly that.
//! - `polls`, `writes`: LinkFault comes where a poll failed and WriteFault where a write failed, and
//!   only there. `wrote`, `port`: a sink keeps what it held, and a link its port.
//!
//! Calls: `serve` with `Address`, `BasePort` and `Served`, for `commands`; `send_to`, `poll_link`,
//! `Timer` and `rearm_due`, for `one_box`.
//!
//! Files: `serving`, `node`, `turn`, `firing`, `carrying`, `tracing`; `polling`, `sending`;
//! `address`, `base_port`. Definitions, in this order: `specs/Ports`, `Sends`, `Effects`, `Folding`,
//! `Timing`, `Turns`, `NodeRun`, and `Nodes`, the clauses of a node's methods.
#![tactic(auto)]

mod address;
mod base_port;
mod carrying;
mod errors;
mod firing;
mod laws;
mod node;
mod polling;
mod sending;
mod serving;
mod tracing;
mod turn;

pub use address::Address;
pub use base_port::BasePort;
pub use errors::ServeError;
pub use firing::{Timer, rearm_due};
pub use laws::{counts_failed_sends, same_is_sent, trace_has_each_step};
pub use polling::poll_link;
pub use sending::send_to;
pub use serving::{Served, serve};
