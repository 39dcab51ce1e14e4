//! The program `kv_gate`: a gateway to the key-value store, for users who speak the protocol of Redis (RESP 2).
//!
//!     kv_gate LISTEN PORT REPLICAS SEQUENCERS [--observers M [--at K]] FIRST COUNT
//!         the nodes are on this machine
//!     kv_gate LISTEN LIST [--marks FOLDER] [--at K] FIRST COUNT
//!         they are where a list of hosts says
//!     with `--at` it watches them at the place of observer K, and says in INFO what it sees
//!
//!     kv_gate 127.0.0.1:6379 47000 3 2 4 2
//!     redis-cli set k v                                         OK
//!
//! LISTEN is the address for users. The gateway submits their ops as the clients FIRST to FIRST + COUNT - 1, whose numbers were never used
//! before. It runs until it is killed, or a device fails. docs/GATEWAY.md says what it answers.
//!
//! Proved: which words ask for what (`site_words`), and what the gateway replies to its users over any devices (`gate`); of `main` that it is
//! safe and ends. Over sockets it is seen on running clusters by `checks/gate.sh`.
//!
//! Files: `running` (what the words ask for), `hosts` (with a list), `waking` (ports at which a wait for users ends), `texts`, `status`.
#![tactic(auto)]

mod hosts;
mod running;
mod status;
mod texts;
mod waking;

use running::run;
use standard_io::arguments;
use status::Status;
use std::process::ExitCode;

fn main(rt: HostRuntime) -> ExitCode {
    let Ok(words) = arguments(&rt) else {
        return ExitCode::from(Status::NoMemory as u8);
    };
    ExitCode::from(run(&rt, &words) as u8)
}
