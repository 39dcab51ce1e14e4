//! A watch by the list of hosts in a file.

use crate::place::observer_in;
use crate::running::USAGE_LINE;
use host_places::refusal_line;
use host_watch::watch_at;
use nop_types::Bytes;
use outside::{WriteError, write_all};
use standard_io::StandardOut;
use std::fs;
use std::io::ErrorKind;
use watching::{Asked, Status, asked_of, status_of};

/// Writes a line, where nothing is watched.
fn tell(rt: &HostRuntime, line: &[u8]) -> Status {
    let mut sink = StandardOut::new(std::io::writer(rt));
    match write_all(&mut sink, line) {
        Ok(()) => Status::Usage,
        Err(WriteError::Failed) => Status::WriteFault,
        Err(WriteError::NoMemory) => Status::NoMemory,
    }
}

/// Watches as a list of hosts says, or tells why it is refused.
fn watch_by(rt: &HostRuntime, text: &[u8], observer: &[u8], asked: Asked) -> Status {
    match host_list::read(text) {
        Ok(list) => match observer_in(&list, observer) {
            Some(own) => status_of(watch_at(rt, &list, own, asked)),
            None => tell(rt, USAGE_LINE.as_bytes()),
        },
        Err(refusal) => match refusal_line(rt.alloc(), refusal) {
            Ok(line) => tell(rt, &line),
            Err(_) => Status::NoMemory,
        },
    }
}

/// Watches by the list in a file, as the words behind its name ask: at the place of which observer, and for how long.
pub(crate) fn run_at_hosts(rt: &HostRuntime, list: &str, words: &[Bytes]) -> Status {
    let [observer, rest @ ..] = words else {
        return tell(rt, USAGE_LINE.as_bytes());
    };
    let Some(asked) = asked_of(rest) else {
        return tell(rt, USAGE_LINE.as_bytes());
    };
    match fs::read(rt, list) {
        Ok(text) => watch_by(rt, &text, observer.as_slice(), asked),
        Err(e) if e.kind() == ErrorKind::OutOfMemory => Status::NoMemory,
        Err(_) => Status::ReadFault,
    }
}
