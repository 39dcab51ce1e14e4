//! The program that draws runs of the key-value store: a schedule on standard input, a picture as
//! SVG on standard output, a column for each actor and a row for each line.
//!
//! It is one call of `drawing`, with the service and its words. What is proved of drawing is said
//! there: a bad schedule writes no picture, each error has its status, each row is of the actor
//! whose step it is. Proved of `main` is only that it is safe and ends. That the status becomes the
//! exit status, and the pictures as a whole, are tested (`checks/stories.sh`, `checks/pictures.sh`).
//!
//! Begin to read at `drawing::run_program`; the words of the labels come from `picture_labels`.
#![tactic(auto)]

use drawing::run_program;
use kv_host::KvHost;
use kv_text::KvText;
use std::process::ExitCode;

const USAGE_LINE: &str = "usage: spacetime < SCHEDULE > PICTURE";

fn main(rt: HostRuntime) -> ExitCode {
    ExitCode::from(run_program::<KvHost, KvText, _>(&rt, USAGE_LINE) as u8)
}
