//! The rows of a help: the ops of a service, then what every tool has.

use nop_types::NoMemory;
use service_tool::Row;
use std::alloc::Global;

/// The other commands, and the options, which stand before the command.
const COMMON: &[Row<'static>] = &[
    Row {
        word: "repl",
        form: "repl",
        about: "has the ops of the lines of standard input executed, as one client",
    },
    Row {
        word: "status",
        form: "status",
        about: "tells who leads, and how far the log is synchronised, as an observer is told",
    },
    Row {
        word: "load",
        form: "load CLIENTS OPS",
        about: "puts so many ops through so many client numbers from --id on; gives their rate",
    },
    Row {
        word: "op",
        form: "op WORDS",
        about: "gives the bytes of an op, in hexadecimal; no service is asked",
    },
    Row {
        word: "text",
        form: "text OP",
        about: "gives the words of an op",
    },
    Row {
        word: "result",
        form: "result RESULT",
        about: "gives the words of a result",
    },
    Row {
        word: "words",
        form: "words [--back]",
        about: "gives the lines of standard input, of a schedule, a transcript or a trace, with words in place of hexadecimal",
    },
    Row {
        word: "--id",
        form: "--id ID",
        about: "the client's number, which was never used before; every op wants one",
    },
    Row {
        word: "--base",
        form: "--base PORT",
        about: "the port of replica 0 of a service on this machine, 41000 if left out",
    },
    Row {
        word: "--replicas",
        form: "--replicas N",
        about: "1, 3, 5 or 7 of them, 3 if left out",
    },
    Row {
        word: "--sequencers",
        form: "--sequencers N",
        about: "1 to 4 of them, 2 if left out",
    },
    Row {
        word: "--hosts",
        form: "--hosts FILE",
        about: "the list of hosts of a service, in place of these three",
    },
    Row {
        word: "--turns",
        form: "--turns N",
        about: "the most turns of each op and of status, about a millisecond each, 10000 if left out",
    },
    Row {
        word: "--observer",
        form: "--observer N",
        about: "the observer at whose place status listens, 0 to 3, 0 if left out",
    },
    Row {
        word: "--slot",
        form: "--slot",
        about: "the slot of an op is written before its result",
    },
];

/// The rows of all words.
pub(crate) fn all_rows<'a>(alloc: Global, ops: &[Row<'a>]) -> Result<Vec<Row<'a>>, NoMemory> {
    let mut rows = Vec::from_slice(alloc, ops)?;
    rows.extend_from_slice(COMMON)?;
    Ok(rows)
}
