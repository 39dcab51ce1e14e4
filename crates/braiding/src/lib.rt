//! An order for the steps of traces, in which each packet is sent before it is taken.
//!
//! Traces are lines of fields, and nothing is known of the protocol: a step is a line whose first
//! field is `in`, and those behind it up to the next such line; the lines before the first step are
//! the head, and the first line always is. A step is of the node that its second field names.
//!
//! Proved of `braid` (clause `ends`, `specs/Ending`): at Ok the source has none left, and each of
//! its lines was written once, and nothing else (`IsOrder`, `specs/Orders`): the head first, each
//! step whole, and the steps of each node in their order. At Refuted the line is the first that is
//! too long or one too many, and nothing was written; at ReadFault nothing was written either; at
//! WriteFault a proper prefix of such an order was, at NoMemory the same or nothing. Clauses
//! `reads` and `writes`: each count of faults rose by one at its error, and at no other answer.
//!
//! Not proved: that a packet is sent before it is taken. No contract says what `search` finds;
//! `checking` looks at each order before it is written, and where it refused one the order of the
//! input would be written. The `audit` of what is written says whether it is a run. Nor is it
//! proved that all takes time in proportion to the bytes.
//!
//! Call: `braid`, for the program of that name.
//!
//! Files, in reading order: `running`; `reading`, with `traces` (what is kept of the lines);
//! `search`; `checking`. Definitions: `specs/Orders`, `Ending`, `Reading`; `Checks` is used inside
//! alone.
#![tactic(auto)]

mod checking;
mod error;
mod reading;
mod running;
mod search;
mod traces;

pub use error::{BraidError, MAX_TRACE_LINES};
pub use running::braid;
