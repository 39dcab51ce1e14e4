//! The lock service as a program: the commands of `nopaxos` over `LockHost`. It is `nopaxos` with
//! another service and another name, and so is what is proved: the clauses of `commands::run`, with
//! `lock_meaning` for the meaning of the service. docs/OWN-SERVICE.md builds it step by step.
//!
//! `gen` draws ops of the key-value store, and `read` asks by one: they are `bad` here.
//!
//! The stored run `stdin` and `stdout` beside `src/` is a story: ann is granted a lock by token 1,
//! and the leader crashes; the next leader tells bob who holds it; ann releases it, bob is granted
//! it by token 2, and ann's release, sent again, is refused.
#![tactic(auto)]

use hosted::run_service;
use lock_host::LockHost;
use std::process::ExitCode;

fn main(rt: HostRuntime) -> ExitCode {
    run_service::<LockHost>(&rt, "lock_service")
}
