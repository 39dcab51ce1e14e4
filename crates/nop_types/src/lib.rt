//! The types, limits and traits that crates share, and the definitions that several of them cite.
//!
//! `Core` is the contract of the four state machines. A `step` that answers Ok leaves the state,
//! and appends the outputs, that the step table `next` gives for state and input. After a step that
//! ran out of memory the outputs are as before, and each later step gives that answer again.
//! `timer` and `done` are the table's.
//!
//! `Host` is the contract of a service. Its answers and states are those of `meaning`; an answer
//! has at most `MAX_RESULT_BYTES` bytes; `undo` gives the state before an op, and `copy` a host in
//! the same state. What `save` gives has at most `MAX_HOST_BYTES` bytes, and `load` of it gives a
//! host in the same state; `load` is None exactly where bytes are no saved state.
//!
//! A `Log` is trimmed: a sync point, the checkpoint that is in place of the entries up to it,
//! and at most `MAX_SLOTS` entries above it; it has at most `MAX_LENGTH` slots in all. A `LogRef`
//! borrows one, and `to_log` copies it; `lay_over` moves entries over the first ones of others.
//! Where the sync point of a replica rises, the entries up to it go out as `Out::Trimmed`.
//!
//! Besides, an `Op` has at most `MAX_OP_BYTES` bytes, a `Key` 1 to `MAX_KEY_BYTES`; `Config::new`
//! and `Checkpoint::new` are None exactly outside the limits, and each `Checkpoint` is within them
//! (`CheckpointFits`); `View::le` is the order of views by both parts, `View::join` the least view
//! above two (law `join_is_least`), and `leader_of` one of the n replicas. In each crate, a call
//! that takes memory may answer `NoMemory` instead.
//!
//! Files: `view`, `request`, `log`, `checkpoint`, `datagram`, `peer`, `output`, `core_trait`,
//! `host`, `limits`. Definitions: `specs/Execution` (`exec`, what the execution of a log leaves;
//! `is_executed`, by `Windows` and the first clients of the log), `Tables` (what is kept for a
//! client), `Checkpoints`, `Sessions` (`home`: the controller that gives out a session), `Headers`
//! (the first line of a schedule, in its three forms), `Histories` (`history_of`: the requests that
//! are executed), `Legality` (`Legal`: when lines agree with a history), `Reads` (`ReadsAreRight`:
//! when what was read agrees with a log), `Services` (`AnswersAreBytes`; `get_of`: the op that asks
//! for a key), `Ranges` (of each field of a message), `Parts` (`IsPart`: which bytes are a
//! part of a long message), `Logs` and `CheckpointedLogs` (a log with its sync point, trimmed as in
//! what runs, or kept whole), `PlainChanges` (a change whose log is a list, as the protocol tells
//! it), `Actors`, `Options` and `Results` (`>>=`, what reads a value and goes on with it).
#![tactic(auto)]

mod bytes;
mod checkpoint;
mod config;
mod core_trait;
mod datagram;
mod ending;
mod header;
mod host;
mod input;
mod key;
pub mod kinds;
mod limits;
mod log;
mod memory;
mod op;
mod output;
mod peer;
mod replica_state;
mod request;
mod slots;
mod view;

pub use bytes::Bytes;
pub use checkpoint::{Answered, Checkpoint, SavedClient, try_clone_answers, try_clone_checkpoint};
pub use config::Config;
pub use core_trait::Core;
pub use datagram::{Answer, Datagram, Fragment, Read, Reply, Stamped};
pub use ending::end_step;
pub use header::Header;
pub use host::Host;
pub use input::{Input, Tick};
pub use key::Key;
pub use limits::{
    EPOCH_STEP, FRAGMENT_BYTES, MAX_CLIENTS, MAX_CONTROLLERS, MAX_DATAGRAM_BYTES, MAX_FRAGMENTS,
    MAX_HOST_BYTES, MAX_KEY_BYTES, MAX_LENGTH, MAX_LINE_BYTES, MAX_LINES, MAX_OBSERVERS,
    MAX_OP_BYTES, MAX_QUEUED, MAX_REPLICAS, MAX_RESULT_BYTES, MAX_SEQUENCERS, MAX_SERVED,
    MAX_SLOTS, MAX_UNFINISHED, MAX_VALUE_BYTES, NUMBER_END, WINDOW,
};
pub use log::{Log, LogRef};
pub use memory::NoMemory;
pub use op::Op;
pub use output::{Accept, Actor, Dest, Out, Outbox, number_of, same_actor};
pub use peer::{Body, Change, Peer};
pub use replica_state::{Phase, Vote};
pub use request::{Entry, Request};
pub use slots::lay_over;
pub use view::{View, greater, join_is_least, leader_of};
