//! Users at a TCP socket, as the device `Users`: a listener and its connections, over the readiness that the system reports (`mio`).
//!
//! A readiness is reported once, so whoever is ready has a turn, and has it again until nothing is left. Turns are taken in the order in
//! which they were given, and in one a user gives at most `MAX_EVENT_BYTES` bytes; the listener has turns as a user has. The system is asked
//! again once all that stood there have had theirs. What a connection does not take waits, and goes on when it takes bytes again; one for
//! which more than `MAX_UNSENT_BYTES` bytes would wait ends. Where the system gives no further connection, as without files to open, it is
//! asked again at each wait, and those that are there are served. One connection more than `MAX_CONNECTIONS` is ended at once.
//!
//! Proved: the contracts of the trait, so that the count of faults rises exactly where the system could not be asked. Who comes has the next
//! number, which nobody had (`Numbers`, in `specs/Turns`). A turn is given behind all others, and the first one is taken (`AddsTurn`). Bytes
//! that wait are kept in their order and within the limit (`unsent`). The contracts of sockets don't say what they carry, so it is only
//! tested that it arrives, whole and in order.
//!
//! Calls: `TcpUsers::listen`, `address`, and the methods of the trait. `registry` and `OTHERS`, for other sockets at which a wait ends.
//!
//! Files, in reading order: `limits`, `unsent`, `connection`, `connections`, `tcp_users`. Definitions: `specs/Receiving`, `Turns`. Tests are in
//! `socket_tests`.
#![tactic(auto)]

mod connection;
mod connections;
mod limits;
mod tcp_users;
mod unsent;

pub use limits::{MAX_CONNECTIONS, MAX_UNSENT_BYTES};
pub use tcp_users::{OTHERS, TcpUsers};
