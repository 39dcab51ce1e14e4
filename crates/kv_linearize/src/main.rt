//! The program `kv_linearize`: finds an order in which a history of a key-value store is linearizable,
//! or says that there is none. It reads a transcript from standard input and writes the same claims with
//! the order that it found, as `nopaxos check` reads it.
//!
//!     kv_linearize [--most STEPS] < HISTORY
//!
//! It is one call of `linearize::run`, with the service parted by keys; what is proved is said there.
//! Proved of `main` is only that it is safe and ends. That the status becomes the exit status is seen
//! on real processes by `checks/linearize.sh`.
#![tactic(auto)]

use kv_parts::ByKey;
use linearize::{Status, run};
use standard_io::{StandardIn, StandardOut, arguments};
use std::process::ExitCode;

const USAGE_LINE: &str = "usage: kv_linearize [--most STEPS] < HISTORY";

fn main(rt: HostRuntime) -> ExitCode {
    let Ok(words) = arguments(&rt) else {
        return ExitCode::from(Status::NoMemory as u8);
    };
    let mut source = StandardIn::new(rt.reader());
    let mut sink = StandardOut::new(std::io::writer(&rt));
    let status = run::<ByKey, _, _>(rt.alloc(), USAGE_LINE, &words, &mut source, &mut sink);
    ExitCode::from(status as u8)
}
