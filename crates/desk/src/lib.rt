//! A desk: the ops of many users, submitted by a few client cores (`client_quorum`) whose numbers are one above the other.
//!
//! An op is taken under a ticket, which is one above the last one (`take`), and waits in a queue until a core takes it, first come, first
//! served; each core has up to eight requests open, and an op goes to the core with the fewest tickets. What a core gives in a step is told
//! with the place of the core and, where a user waits for it, the ticket: of a submission, and of the acceptance that answers the ticket.
//! Datagrams that are told are to be sent, for the core that gave them. `comes` gives a core an input, such as a datagram or the tick Retry;
//! `leave` says that the user of a ticket left. `Desk` computes the step table `next` of `specs/Desks`, over the step table of a client. Over
//! any events in any order:
//!
//! - What is told for a ticket is true: a submission is of the ticket's op, which was taken, and an acceptance is of a request that the same
//!   core submitted before for the same ticket (`tells_what_is_true`). What is told of a core is what a client gives that took some inputs
//!   (`cores_are_clients`), so that the laws of `client_quorum` say which results it accepts.
//! - A ticket is answered at most once (`answers_each_ticket_once`).
//! - After each event no op waits, or no core takes one (`lets_no_op_wait`).
//! - Once its user left, nothing is told for a ticket: an op that waits is not submitted, and the answer to one that was is for nobody
//!   (`tells_nothing_to_who_left`).
//!
//! Answers come in any order, so whose requests are to be answered in order has one ticket at a time. At most `MAX_WAITING` ops wait: one
//! more is refused (`Full`), and so is one whose place in the queue gets no memory; both leave the desk as it was. Once a step of a core ran
//! out of memory each later call answers so, as a core's does. No clause says that a ticket is ever answered.
//!
//! Calls: `Desk::new`, `take`, `comes`, `leave`, `state`.
//!
//! Files: `submitter` (a core and its tickets), `queue`, `desk_state`, `desk`, `errors`, `limits`, `laws`. Definitions: `specs/Submitters`,
//! `Desks`, `Runs`.
#![tactic(auto)]

mod desk;
mod desk_state;
mod errors;
mod laws;
mod limits;
mod queue;
mod submitter;

pub use desk::Desk;
pub use desk_state::{Cores, DeskState};
pub use errors::DeskError;
pub use laws::{
    answers_each_ticket_once, cores_are_clients, lets_no_op_wait, tells_nothing_to_who_left,
    tells_what_is_true,
};
pub use limits::MAX_WAITING;
pub use queue::Queue;
pub use submitter::{Labelled, OpenTicket, OpenTickets, Queued, Submitter};
