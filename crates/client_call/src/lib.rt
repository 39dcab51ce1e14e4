//! Ops of a program, executed by a replicated service: a client submits them over a link at its own
//! port, and waits until each result is accepted or its turns end. A `Session` submits one op after
//! another, as one client, for as long as a program lives.
//!
//! Clauses of `Session::submit`, and of `open_session` and `close_session`:
//! - `answers`: at Ok the client submitted the op, as its request of the next id, and accepted this
//!   result, with which f + 1 replicas replied at the slot that is given with it. In each run the
//!   op is in the history from that slot on (`safety`, `AcceptedStand`), so an answer of a position
//!   that is not below it is of a state with the op.
//! - `over`: over an observable link and clock what was sent is what the run of the client over
//!   them sends; Unanswered is given only where all turns were taken, and LinkFault exactly where a
//!   poll failed.
//! - `attaches`, `detached`: PortFault is given exactly where the attach failed; `close_session`
//!   gives the link of the session back.
//! - `goes_on`: after an answer, and after Unanswered, a session is the same client, and what it
//!   submitted in the call (`Submits`) is the op at Ok, and at Unanswered the op where there was
//!   room for its request, which is not accepted then, else nothing; its last id rose by as many.
//! - `none_open`: where none of its requests was open before an answer, none is after it.
//! - `ended`: after LinkFault and NoMemory a session has ended, answers each op with that error,
//!   and does nothing else.
//!
//! Over sockets no clause says that the packets which the client took were those that came (tests
//! of `udp_ports` try that), and at Unanswered none counts the turns that were taken.
//!
//! Files: `call`, `errors`; `session`, `submitting`, `session_core`. Definitions: `specs/Calls`,
//! `Sessions`.
#![tactic(auto)]

mod call;
mod errors;
mod session;
mod session_core;
mod submitting;

pub use call::Service;
pub use errors::CallError;
pub use session::{Session, close_session, open_session};
