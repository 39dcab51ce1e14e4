//! The arguments of the command line, and the command that they ask for.
//!
//! `read_words` gives `command_of`: what the library `clap` finds in the arguments, with numbers
//! and ranges read on top. It is None where `clap` refuses them or a value is out of its range.
//! Each number of a command is in its range (`IsFit`).
//!
//! Calls, for `commands`: `read_words`; `Command`, `Site` (configuration, base port, turns, and whether
//! a trace is written) and `Ops::into_vec`.
//!
//! Files: `command`, `program` (the table that `clap` reads by), `reading`; `options`, `number`,
//! `ops` and `key` below it. Definitions: `specs/Program`, `Commands`.
#![tactic(auto)]

mod command;
mod key;
mod number;
mod ops;
mod options;
mod program;
mod reading;

pub use command::{Command, Site};
pub use ops::Ops;
pub use reading::read_words;
