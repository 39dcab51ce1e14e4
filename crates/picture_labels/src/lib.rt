//! Short texts for what a picture shows: datagrams, ops, and the lines of clients.
//!
//! `describe` goes by the datagram that the bytes spell: what it is for (`purpose_of`), and which
//! mark shows at the actor that sent it (`mark_of`). Bytes that spell none are called "no
//! datagram", and have no mark (`IsNoDatagram`). `read_lines` gives the notes of a client's lines,
//! with marks of clients alone (`IsOfClient`).
//!
//! Ops and results are in the words of their service, its `OpText`. A word shows up to 12
//! characters, and one that begins with `0x` its digits alone; the first word of an op shows whole.
//! The texts themselves are tested (`checks/pictures.sh`).
//!
//! Calls, for `drawing`: `describe`, `read_lines`, `note_of`, `put_key`, `put_op`, `put_request`, `put_view`.
//!
//! Files: `datagrams`, `said` (clients), `naming`; `specs/Datagrams`, `Clients`.
#![tactic(auto)]

mod datagrams;
mod naming;
mod said;

pub use datagrams::{Label, describe};
pub use naming::{note_of, put_key, put_op, put_request, put_view};
pub use said::read_lines;
