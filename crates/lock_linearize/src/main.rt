//! The program `lock_linearize`: finds an order in which a history of the lock service is linearizable,
//! or says that there is none. It reads a transcript from standard input and writes the same claims with
//! the order that it found, as `lock_service check` reads it.
//!
//!     lock_linearize [--most STEPS] < HISTORY
//!
//! It is one call of `linearize::run`, with the service as one part (`lock_parts`); what is proved is said
//! there.
//! Proved of `main` is only that it is safe and ends. That the status becomes the exit status is seen
//! on real processes by `checks/linearize.sh`.
#![tactic(auto)]

use linearize::{Status, run};
use lock_parts::AllLocks;
use standard_io::{StandardIn, StandardOut, arguments};
use std::process::ExitCode;

const USAGE_LINE: &str = "usage: lock_linearize [--most STEPS] < HISTORY";

fn main(rt: HostRuntime) -> ExitCode {
    let Ok(words) = arguments(&rt) else {
        return ExitCode::from(Status::NoMemory as u8);
    };
    let mut source = StandardIn::new(rt.reader());
    let mut sink = StandardOut::new(std::io::writer(&rt));
    let status = run::<AllLocks, _, _>(rt.alloc(), USAGE_LINE, &words, &mut source, &mut sink);
    ExitCode::from(status as u8)
}
