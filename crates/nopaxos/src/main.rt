//! The program `nopaxos`: a replay of schedules, drawn schedules, single nodes and a cluster over
//! UDP, and a judge of transcripts, all of the key-value store.
//!
//! `main` hands the service `KvHost` and the program's name to `hosted`, which calls
//! `commands::run` over the devices of the system, and ends with the status that it answers. Proved
//! of `main` is that it is safe and ends where `run` does; it has no contract. What `run` does, with
//! the theorem, is said at the head of `commands`. The stored run `stdin` and `stdout` beside `src/`
//! is a schedule of 6,001 lines with its transcript.
//!
//! Read next: `hosted/src/service.rt`, then `commands/src/running.rt`.
#![tactic(auto)]

use hosted::run_service;
use kv_host::KvHost;
use std::process::ExitCode;

fn main(rt: HostRuntime) -> ExitCode {
    run_service::<KvHost>(&rt, "nopaxos")
}
