//! The program of a tool of a service: `service_tool` over standard input, output and error,
//! sockets and the clock.
//!
//! Proved is that it is safe and ends. What it writes, and which op it submits, is said at the head
//! of `service_tool`; that the devices are what they should be, and that a list of hosts is read
//! from its file, is tested only (`checks/tool.sh`).
//!
//! Calls: `run_tool`. Files: `program`; `load`, with `clock`; `saying`; `rows`, the commands and
//! options that each tool has.
#![tactic(auto)]

mod clock;
mod load;
mod program;
mod rows;
mod saying;

pub use program::run_tool;
