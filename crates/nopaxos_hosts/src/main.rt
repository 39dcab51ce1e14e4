//! The program `nopaxos_hosts`: the nodes of `nopaxos` on several machines, where a list of hosts says where each actor is.
//!
//!     nopaxos_hosts LIST [--marks FOLDER] ACTOR [OPTION..] [OP..]
//!
//! `main` hands the service `KvHost` and the program's name to `hosted`, and ends with the status that it answers. It has no contract:
//! proved of it is that it is safe and ends. What is proved below it stands at the head of `hosted`: what the words ask for; who is to
//! run, by the text of the list, or what is told in its place and with which status; and that the command that runs is the one of
//! that actor. The run is a call of `commands::run` as it is, so all of its clauses hold of it, with `kv_meaning` for the meaning of the
//! service. A process that is attached was admitted, as `udp_ports` and `admission` say.
//!
//! Only tested, on real processes by `checks/hosts.sh`: that the file of the list and the marks are read and made, that sockets carry
//! what they should between the addresses of the list, and that the status becomes the exit status. The stored call beside `src/`,
//! `stdin`, `stdout` and `status`, has no words: it is answered by the usage line and ends with 2.
//!
//! Read next: `hosted/src/running.rt`, then `udp_ports/src/guard.rt`.
#![tactic(auto)]

use hosted::run_hosted;
use kv_host::KvHost;
use std::process::ExitCode;

fn main(rt: HostRuntime) -> ExitCode {
    run_hosted::<KvHost>(&rt, "nopaxos_hosts")
}
