//! What each command of a program does, over any service and any devices, and with which status it
//! ends. `run` is the function that `main` calls, with its service, as `KvHost`, and its name.
//!
//! Clauses of `run`:
//! - `replay`, `safe`: a replay ends as `replay::replay` says, and at Done, of an observable
//!   source, the run of its bytes is safe. These two are the theorem (docs/THEOREMS.md, "The
//!   headline").
//! - `check`: a check ends as `judge` says of the bytes: Done with `legal`, its line and its counts,
//!   Refuted with the line and the clause; the bytes of a legal transcript are never Refuted.
//! - `audit`, `audited`: an audit ends as `audit` says of the bytes: Done with the schedule of a trace of
//!   steps, which is a run, Refuted with the line and the fault; a trace of steps is never Refuted.
//! - `usage`: arguments that ask for no command are answered by the usage line, or a proper prefix
//!   of it.
//! - `ends`: what a command does over its devices (`Runs`). Its fields are:
//!   - `drawing`: `gen` writes `drawn_summary` at Done, and otherwise a proper prefix of it.
//!   - `node`, `cluster`, `back`: a node runs its core from its initial state over one link, as
//!     `udp_node` says, and writes its last line, or with `--trace` none; a cluster ends as `one_box`
//!     says, and no line of the schedule that it writes is bad; each link is given back.
//!   - `client`: over any link, a client that ends Done wrote an accept line for each of its ops,
//!     and one that ends Unanswered fewer; a `read` that ends Done wrote one answer line whose
//!     position is not below the one that was asked for, and one that ends Unanswered none. In a
//!     trace these are lines of steps, and each step that gave something has its lines there.
//!   - `writes`: WriteFault comes only where a write failed, and a write that failed is always told:
//!     the sink's count of faults rose by one at WriteFault, and stayed at every other status.
//!   - `reads`: the source's count of faults rose by one at ReadFault; at WriteFault and NoMemory
//!     it rose by at most one, and at every other status it stayed.
//!   - `attaches`: an attach that failed is always told, by LinkFault.
//! - `complete`: where no call failed, the status reports no fault (`Completes`, whose fields
//!   `.._complete` say which calls, for each command).
//! - `unread`, `ports`, `clock`: what a command does not use is as before.
//!
//! `run_in_memory` is `run` over devices in memory that never fail, where `complete` has no premise.
//!
//! Files: `running`; `check`, `auditing`; `node_commands`, `node`, `cluster`; `in_memory`. Definitions:
//! `specs/Words` (`asked`), `Runs`, `Ending`, `Checks`, `Audits`, `Tasks`, `Nodes`, `Clusters`.
#![tactic(auto)]

mod auditing;
mod check;
mod cluster;
mod in_memory;
mod node;
mod node_commands;
mod running;
mod status;

pub use in_memory::run_in_memory;
pub use running::run;
pub use status::Status;
