//! A cluster in one process: all actors in one world, each with a link of its own. Timers, what
//! clients submit, and what links deliver are events of the world; a datagram that came is
//! delivered where equal bytes were sent in this world, and otherwise dropped and counted as a
//! stray.
//!
//! `serve_all`, by its clause `ends`: at Ok some events happened, none of which the world refuses,
//! and what they lead to is safe (`SafelyPassed`). Each actor had a link at its port, which was
//! given back. The sink has the schedule of these events, its transcript, and the line
//! `served TURNS lost LOST stray STRAY`, where LOST is at most what all links together counted as
//! lost; a proper prefix of that on WriteFault, and nothing on LinkFault. The schedule that was
//! written at Ok has no bad line, and is read as these events; what `replay` writes for it is the
//! transcript behind it (`Replays`). That holds where it has no more lines than a schedule may have,
//! so after any 10,000 turns: a turn has at most 92 events (`few`; `specs/Counting`).
//!
//! Over observable ports and clock the events are those of `cluster_run`, with its turns and
//! strays, and the calls on each link are those of its actor, in order, without the sends that
//! failed; on LinkFault without a failed attach `cluster_run` has no value. `back`: as many links
//! are given back as were attached. `link`: LinkFault comes only where an attach or a poll failed;
//! `attaches`: an attach that failed is always told by it. `write`, `writes`: WriteFault comes
//! exactly where a write failed.
//!
//! Call, for `commands`: `serve_all`, over any host. The configuration has one controller, since the
//! first lines of schedule and transcript are of form 1.
//!
//! Files: `cluster`, `attaching`, `serving`, `turn`, `firing`, `polling`, `taking`, `sending`,
//! `writing`. Definitions: `specs/Boxing` (`EndsWith`), `ClusterRun`, `Text`.
#![tactic(auto)]

mod attaching;
mod boxed;
mod cluster;
mod course;
mod errors;
mod firing;
mod node;
mod polling;
mod sending;
mod serving;
mod taking;
mod turn;
mod writing;

pub use boxed::Boxed;
pub use cluster::serve_all;
pub use errors::ClusterError;
