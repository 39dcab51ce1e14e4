//! The core of a gateway: the requests of many users of RESP 2, executed by a replicated service through the client cores of a desk. It is a
//! state machine, without sockets or a clock.
//!
//! It keeps what each user sent and was not read yet, which op or read of it is in flight, the
//! greatest slot or position of a result that it was replied, whose each ticket of the desk is, and
//! for whom each core has a read under way. A step takes an event and gives acts: datagrams to
//! send, replies to users, connections to end. `Read` reads one request of a user that has none in
//! flight, so the requests of a user are executed in their order. A read of an observer waits until
//! `Ask` gives it to a core; its answer is replied unless the user has seen a later state, else the
//! read waits again; `Reassign` lets it wait for another core where no answer comes. Where the
//! gateway has a watch (`watching`), at the place of an observer, `Watch` gives it a turn: the
//! time, and a datagram if one came. INFO is replied a line on the server, and the lines that the
//! watch showed last. Where it has an observer in its own process (`observer`), this hears
//! the same datagrams, and no core asks for reads: a read is replied by it at once, unless the user
//! has seen a later state; then the read waits, and at `Ask` the near observer is looked at again.
//! `GateState::step` computes the step table `next` of `specs/Gates`. Over any events in any order:
//!
//! - From when a user connects, the bytes that it sent begin with requests, and what it was replied
//!   are their replies, one each and in order (`replies_are_of_requests`; `IsServed` in
//!   `specs/Runs`). The reply to an op is the form of a result which a core accepted for a ticket,
//!   under which the desk took this op for this user; the laws of `desk` say which results those
//!   are (`hears_what_the_desk_tells`). The reply to a read is the value in an answer of an
//!   observer, which a core asked for this key after the request had come, from a position not
//!   below the slot or position of any result that was replied before on this connection; or the
//!   value that the near observer had, as it stood when it was looked at, after the request had
//!   come, at such a position. The slot of an op is that of the reply at which the core accepted its result. The reply to INFO has the
//!   lines that the watch showed last when this very request was read. The last reply may be
//!   followed by why the gateway ended the connection: bytes that begin no request, too many bytes
//!   that wait, too many users.
//! - The watch is at each step the one that took the turns before, in order, by the definitions of
//!   `watching`, whose laws say what is shown (`the_watch_takes_its_turns`).
//! - The near observer is at each step the one that heard the datagrams of these turns, in order, by
//!   the step table of `observer` (`the_near_observer_hears`).
//! - Who is not connected is replied nothing (`nobody_else_is_replied_to`), nor is who was ended (`nothing_follows_a_close`). A number is
//!   connected once: numbers that were passed are not.
//!
//! A user has at most `MAX_WAITING_BYTES` bytes that wait, and there are at most `MAX_USERS` users. After an error no more steps are taken.
//!
//! Calls: `GateState::new`, `step`, `is_idle`.
//!
//! Files: `act`, `limits`, `waiting`, `session`, `tables`, `replying`, `in_flight`, `watched`,
//! `near`, `gate_state`, `laws`. Definitions: `specs/Gates`, then `Runs`; `Next`, `Tables`.
#![tactic(auto)]

mod act;
mod gate_state;
mod in_flight;
mod laws;
mod limits;
mod near;
mod replying;
mod session;
mod tables;
mod waiting;
mod watched;

pub use act::{Act, Event};
pub use gate_state::GateState;
pub use laws::{
    hears_what_the_desk_tells, nobody_else_is_replied_to, nothing_follows_a_close,
    replies_are_of_requests, the_near_observer_hears, the_watch_takes_its_turns,
};
pub use limits::{MAX_USERS, MAX_WAITING_BYTES};
pub use near::NearAnswer;
pub use session::{Asked, InFlight, Reading, Session, UnderWay};
pub use tables::{Owners, Readers, Sessions};
pub use waiting::Waiting;
