//! A tool of a service for people: its ops in words, executed by a running service.
//!
//!     kv --id 7 put k v              none
//!     kv --id 8 --slot get k         slot 3, =v
//!     kv --id 9 repl < ops           the results of the ops of all lines, as they come
//!     kv status                      who leads, and how far the service is
//!     kv --id 16 load 16 100000      a load, its rate and times
//!     kv words < x.transcript        the lines of a transcript, with words in place of hexadecimal
//!
//! A program brings an `OpText` and a `Tool`, its name and its words. What it writes on standard
//! output are results; why there is none, and what would be right, it tells on standard error.
//!
//! Proved: which command the words ask for, or which word is at fault and why (`asked_of`, exactly
//! `specs/Asked`), so that the op which is submitted is the one that the words name, by the
//! definitions of its `OpText`; what is told of it (`told`, exactly `specs/Telling`). Of
//! `run_command`: for an op that the lines of the answer of f + 1 replicas to the request with this
//! op are written, or why there are none is told, with which status; for `repl` that all lines of
//! the input are taken in order, none left out (`TakesLines`): the session submitted the op of each,
//! its answer's lines are what is written for it, or why it has none is told, up to the end of the
//! input or to what stopped that, with the status of that; that the client's port is given back;
//! that an error comes exactly where a write failed, and ReadFault only where a read did. Of
//! `tell_watch`: what is told of a watch that ended, with which status, exactly (`specs/Watched`).
//! What `status` shows is said at the head of `watching`, what `load` does at that of
//! `service_load`, what becomes of lines at that of `service_words`.
//!
//! Calls, for `tool_program`: `told`, `run_command` and `tell_watch`, with `Tool` and `Row`. Files:
//! `options`, `asked`, `reason` (the words), `telling` (texts), `status`, `calling` and `repl` (ops),
//! `running`, `watched`. Definitions: `specs/Options`, `Asked`, `Reasons`, `Telling`; `Outputs`,
//! `Statuses`, `Calls`, `Repl`, `Running`, `Watched`.
#![tactic(auto)]

mod asked;
mod calling;
mod options;
mod reason;
mod repl;
mod running;
mod status;
mod telling;
mod watched;

pub use asked::{Asked, Command, asked_of};
pub use options::Options;
pub use reason::{Fault, Reason};
pub use running::{run_command, told};
pub use status::Status;
pub use telling::{Row, Tool};
pub use watched::tell_watch;
