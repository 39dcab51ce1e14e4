//! The program `kv`: the key-value store of a running service, in words.
//!
//!     kv --id 7 put k v          none
//!     kv --id 8 get k            =v
//!     kv put --help              put KEY VALUE: ..
//!     kv words < x.transcript    .. submit c0 1 put k v ..
//!
//! Proved of `main` is that it is safe and ends. What it does is said at the head of
//! `service_tool`. Results are read from words by `KvResults`, exactly as `specs/Results` says.
#![tactic(auto)]

mod results;

use crate::results::KvResults;
use kv_text::KvText;
use service_tool::Row;
use std::process::ExitCode;
use tool_program::run_tool;

fn main(rt: HostRuntime) -> ExitCode {
    let rows = [
        Row {
            word: "put",
            form: "put KEY VALUE",
            about: "sets a key; gives its value before, as =VALUE or none",
        },
        Row {
            word: "get",
            form: "get KEY",
            about: "gives the value of a key, as =VALUE or none",
        },
        Row {
            word: "delete",
            form: "delete KEY",
            about: "removes a key; gives its value before",
        },
        Row {
            word: "swap",
            form: "swap KEY OLD NEW",
            about: "sets a key to NEW where its value is OLD; gives yes or no",
        },
    ];
    let load: &[&[&str]] = &[
        &["put", "load-a", "1"],
        &["put", "load-b", "2"],
        &["put", "load-c", "3"],
        &["put", "load-d", "4"],
    ];
    run_tool::<KvText, KvResults>(&rt, "kv", &rows, load)
}
