//! What the user is told where the program doesn't run.

use crate::status::Status;
use host_list::Refusal;
use host_places::refusal_line;
use nop_types::NoMemory;
use std::alloc::Global;
use std::io::Write;

const USAGE_LINE: &str =
    "usage: kv_gate LISTEN (PORT REPLICAS SEQUENCERS [--observers M [--at K]] | LIST [--marks FOLDER] [--at K]) FIRST COUNT\n";

/// A line, and then that the words ask for nothing; else that it could not be written.
fn write<W: Write>(writer: &mut W, line: &[u8]) -> Status {
    match writer.write_all(line) {
        Ok(()) => Status::Usage,
        Err(_) => Status::WriteFault,
    }
}

pub(crate) fn write_usage<W: Write>(writer: &mut W) -> Status {
    write(writer, USAGE_LINE.as_bytes())
}

/// The line and the rule of a list that is refused.
pub(crate) fn write_refusal<W: Write>(alloc: Global, writer: &mut W, refusal: Refusal) -> Status {
    match refusal_line(alloc, refusal) {
        Ok(line) => write(writer, &line),
        Err(NoMemory) => Status::NoMemory,
    }
}
