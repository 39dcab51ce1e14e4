//! The network: all datagrams that were ever sent, in order, each with who sent it and where to;
//! and what carrying out the outputs of an actor adds to it.
//!
//! A `Network` is that list, whichever way it finds datagrams. `push` appends one, or changes
//! nothing on an error. `get` and `sent_to` are bytes, copied, and destination at an index, None past
//! the last; `find` is the first index of a datagram with the given bytes, None exactly where none
//! has them. `carry_out` appends the datagrams among what an actor did, in order, and gives the text
//! of its lines with the counts of sends and accepts; where memory runs out a prefix of the datagrams
//! is there, and no line. `send_all` appends the same datagrams and writes no text.
//!
//! Calls, for `world`: `Network::new`, `with_index` (finds without a walk over all), `push`, `len`,
//! `get`, `sent_to`, `find`; `carry_out`, `Lines`; `send_all`.
//!
//! Files: `network` (all datagrams in one vector, equal payloads once), `index` (first indexes by
//! their bytes), `lines` (what an actor did), `sending` (its datagrams alone). Definitions: `specs/Network` (`sends_by`, `lines_by`),
//! `Finding` (`first_index`), `Marks` (a datagram's bytes).
#![tactic(auto)]

mod index;
mod lines;
mod network;
mod sending;

pub use lines::{Lines, carry_out};
pub use network::Network;
pub use sending::send_all;
