//! A window on a running cluster: who leads, how far it is synchronised, and each change of the view, as lines.
//!
//!     watch 47000 3 o0             until it is ended
//!     watch 47000 3 o0 --once      one state
//!     watch 47000 3 o0 --redraw    until it is ended, on a terminal: the last lines alone
//!     watch LIST o0                the same over a list of hosts
//!
//! The arguments are the port of replica 0 and how many replicas there are, or the file of a list of hosts; and the observer at whose
//! place it listens. Replicas on one machine tell it what they were started with `--observers` for. It has no number that is used up, so it
//! may be ended and started again at any time, as long as that observer does not run. It sends nothing, or over a list questions alone;
//! there what comes from an address outside the list is dropped.
//!
//! Proved of `run`: where the arguments name a watch, that watch is made over the port of its observer, by the clauses of
//! `watching::watch_cluster`; where they name none, the usage line is written, and the ports stay as they were. Which status stands
//! for which end is `specs/Ending`. Of a watch over a list: that its place is that of an observer of it (`observer_in`), and what
//! `host_watch` says. What comes over sockets is seen on running clusters by `checks/watch.sh`. Proved of `main` is that it is safe and
//! ends.
//!
//! Files: `call` (the arguments), `running`; `place`, `hosts`, of lists. Definitions: `specs/Arguments`, `Ending`, `Places`.
#![tactic(auto)]

mod call;
mod hosts;
mod place;
mod running;

use call::names_a_list;
use hosts::run_at_hosts;
use op_text::Words;
use outside::WriteError;
use running::run;
use standard_io::{StandardOut, arguments};
use std::process::ExitCode;
use udp_ports::{SystemClock, UdpPorts};
use watching::Status;

/// Watches a cluster of this machine.
fn run_here(rt: &HostRuntime, words: &Words) -> Status {
    let mut sink = StandardOut::new(std::io::writer(rt));
    let mut ports = UdpPorts::new(rt, rt.alloc());
    let mut clock = SystemClock::new(rt);
    match run(rt.alloc(), words, &mut ports, &mut clock, &mut sink) {
        Ok(status) => status,
        Err(WriteError::Failed) => Status::WriteFault,
        Err(WriteError::NoMemory) => Status::NoMemory,
    }
}

/// Watches as the words ask; the first one is the program's name.
fn run_words(rt: &HostRuntime, words: &[String]) -> Status {
    let Ok(given) = Words::of_arguments(rt.alloc(), words) else {
        return Status::NoMemory;
    };
    let ([_program, list, ..], [_list, rest @ ..]) = (words, given.as_slice()) else {
        return run_here(rt, &given);
    };
    if names_a_list(given.as_slice()) {
        run_at_hosts(rt, list.as_str(), rest)
    } else {
        run_here(rt, &given)
    }
}

fn main(rt: HostRuntime) -> ExitCode {
    let Ok(words) = arguments(&rt) else {
        return ExitCode::from(Status::NoMemory as u8);
    };
    ExitCode::from(run_words(&rt, &words) as u8)
}
