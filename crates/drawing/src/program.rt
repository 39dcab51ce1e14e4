//! What a program does that draws: a schedule on standard input, its picture on standard output.

use crate::error::DrawError;
use crate::running::{complaint, run};
use crate::status::{Status, status_of};
use nop_types::{Host, NoMemory};
use op_text::OpText;
use standard_io::{StandardIn, StandardOut};
use std::io::ErrorKind;
use std::rt::Env;

/// Says on standard error why there is no picture.
fn complain<R: AllocGlobal + Eprint>(rt: &R, error: DrawError) {
    if let Ok(line) = complaint(rt.alloc(), error) {
        let _ = rt.eprintln(line.as_str());
    }
}

/// Whether there are words on the command line.
fn has_words<R: AllocGlobal + Env>(rt: &R) -> Result<bool, NoMemory> {
    match std::env::args(rt) {
        Ok(args) => Ok(args.count() > 1),
        // A word that is no text.
        Err(e) if e.kind() == ErrorKind::InvalidData => Ok(true),
        Err(_) => Err(NoMemory),
    }
}

/// Draws from standard input to standard output. Where there is no picture, standard error says why.
fn draw<H: Host, T: OpText, R: AllocGlobal + Input + Print + Eprint>(rt: &R) -> Status {
    let mut source = StandardIn::new(rt.reader());
    let mut sink = StandardOut::new(std::io::writer(rt));
    match run::<H, T, _, _>(rt.alloc(), &mut source, &mut sink) {
        Ok(()) => Status::Done,
        Err(error) => {
            complain(rt, error);
            status_of(error)
        }
    }
}

/// Draws the run of the schedule on standard input. Where there is no picture, standard error says
/// why; where there are words on the command line, it is given the usage line.
pub fn run_program<H: Host, T: OpText, R: AllocGlobal + Input + Print + Eprint + Env>(
    rt: &R,
    usage: &str,
) -> Status {
    match has_words(rt) {
        Ok(false) => draw::<H, T, _>(rt),
        Ok(true) => {
            let _ = rt.eprintln(usage);
            Status::Usage
        }
        Err(NoMemory) => {
            complain(rt, DrawError::NoMemory);
            Status::NoMemory
        }
    }
}
