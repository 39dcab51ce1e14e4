//! The program `braid`: finds an order for the steps of traces in which each packet was sent before it is
//! taken. It reads the first line and the lines of all traces from standard input, and writes the same
//! steps in that order to standard output.
//!
//!     braid < TRACES > ORDER
//!
//! It is one call of `braiding::braid`; what is proved is said there. Proved of `main` is only that it
//! is safe and ends. That the status becomes the exit status, and what standard error says, are seen
//! on real processes.
#![tactic(auto)]

use braiding::{BraidError, braid};
use nop_types::NoMemory;
use standard_io::{StandardIn, StandardOut};
use std::io::ErrorKind;
use std::process::ExitCode;
use std::rt::Env;

const USAGE_LINE: &str = "usage: braid < TRACES > ORDER";

/// How the program ends; the number is its exit status, as that of `nopaxos`.
#[derive(Clone, Copy)]
enum Status {
    Done = 0,
    Usage = 2,
    ReadFault = 3,
    WriteFault = 4,
    NoMemory = 6,
    Refuted = 8,
}

fn status_of(error: BraidError) -> Status {
    match error {
        BraidError::Refuted { .. } => Status::Refuted,
        BraidError::ReadFault => Status::ReadFault,
        BraidError::WriteFault => Status::WriteFault,
        BraidError::NoMemory => Status::NoMemory,
    }
}

/// Says on standard error why no order was written, or not all of it.
fn complain<R: AllocGlobal + Eprint>(rt: &R, error: BraidError) {
    let _ = match error {
        BraidError::Refuted { line } => eprintln!(rt; "braid line {line} fault 1"),
        BraidError::ReadFault => eprintln!(rt; "error reading the traces"),
        BraidError::WriteFault => eprintln!(rt; "error writing the order"),
        BraidError::NoMemory => eprintln!(rt; "error out of memory"),
    };
}

/// Whether there are words on the command line.
fn has_words<R: AllocGlobal + Env>(rt: &R) -> Result<bool, NoMemory> {
    match std::env::args(rt) {
        Ok(args) => Ok(args.count() > 1),
        // A word that is no text.
        Err(e) if e.kind() == ErrorKind::InvalidData => Ok(true),
        Err(_) => Err(NoMemory),
    }
}

fn run<R: AllocGlobal + Input + Print + Eprint>(rt: &R) -> Status {
    let mut source = StandardIn::new(rt.reader());
    let mut sink = StandardOut::new(std::io::writer(rt));
    match braid(rt.alloc(), &mut source, &mut sink) {
        Ok(()) => Status::Done,
        Err(error) => {
            complain(rt, error);
            status_of(error)
        }
    }
}

fn main(rt: HostRuntime) -> ExitCode {
    let status = match has_words(&rt) {
        Ok(false) => run(&rt),
        Ok(true) => {
            let _ = eprintln!(rt; "{USAGE_LINE}");
            Status::Usage
        }
        Err(NoMemory) => {
            complain(&rt, BraidError::NoMemory);
            Status::NoMemory
        }
    };
    ExitCode::from(status as u8)
}
