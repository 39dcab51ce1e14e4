//! The program `locks`: the locks of a running lock service, in words.
//!
//!     locks --id 7 acquire db ann        granted 1
//!     locks --id 8 inspect db            held 1 ann
//!     locks acquire --help               acquire NAME OWNER: ..
//!     locks words < x.transcript         .. accept c0 1 granted 1 ..
//!
//! Proved of `main` is that it is safe and ends. What it does is said at the head of
//! `service_tool`. Results are read from words by `LockResults`, exactly as `specs/Results` says.
#![tactic(auto)]

mod results;

use crate::results::LockResults;
use lock_text::LockText;
use service_tool::Row;
use std::process::ExitCode;
use tool_program::run_tool;

fn main(rt: HostRuntime) -> ExitCode {
    let rows = [
        Row {
            word: "acquire",
            form: "acquire NAME OWNER",
            about: "takes a lock; gives granted with its token, or held with who holds it",
        },
        Row {
            word: "release",
            form: "release NAME OWNER TOKEN",
            about: "gives a lock back, by the token of its grant",
        },
        Row {
            word: "inspect",
            form: "inspect NAME",
            about: "tells who holds a lock",
        },
    ];
    let load: &[&[&str]] = &[&["inspect", "load-a"], &["inspect", "load-b"]];
    run_tool::<LockText, LockResults>(&rt, "locks", &rows, load)
}
