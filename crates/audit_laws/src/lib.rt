//! Traces of nodes as steps of the world: what has to hold of the rows of all nodes, in one order,
//! for them to be a run.
//!
//! A row says what an actor took, or what it gave. `specs/Audits` goes over the rows one by one
//! (`audited`): what was taken is an event of the world, which happens, and its lines are to be the
//! rows behind it; or a row has a fault, of a kind that `Fault` names.
//!
//! Proved: rows that are audited without a fault are those of steps, each of an actor in the world of
//! the steps before, whose events are a run; it is safe, and what the trace says was submitted and
//! accepted is what the run tells, and legal of its history (`audited_is_a_run`). No rows of steps that
//! follow one another have a fault. Another order of the steps of a run, in which each actor's own stay
//! in theirs and each datagram that is taken was sent before, is a run too (`braided_is_audited`).
//!
//! No code but the numbers of faults. `audit` reads traces, and is proved over these definitions.
//!
//! To read in this order: `fault`, `laws`; then `specs/Names`, `specs/Audits`, `specs/Braids`.
#![tactic(auto)]

mod fault;
mod laws;

pub use fault::Fault;
pub use laws::{audited_is_a_run, braided_is_audited};
