//! Lines of traces and of transcripts that no run of a program shows.

use crate::rows::check;
use nop_types::{Actor, Config, Input, Out, Tick};
use std::alloc::Global;
use std::process::Abort;
use trace_text::{header_line, trace_step};
use transcript_rows::{Row, write_row};

/// Whether an output for which there is no room has no line.
fn is_silent(rt: &impl Abort, alloc: Global) -> bool {
    let mut to = Vec::new(alloc);
    let retry = Input::Tick(Tick::Retry);
    trace_step(Actor::Client(2), retry, &[Out::Busy(2)], &mut to).expect(rt, "memory");
    to.as_slice() == b"in c2 tick retry\n".as_slice()
}

/// Whether the first line of a schedule with the most of all counts is this one.
fn has_most(rt: &impl Abort, alloc: Global) -> bool {
    let config = Config::new(7, 4, 16, 4, 4).expect(rt, "a configuration");
    let mut to = Vec::new(alloc);
    header_line(3, config, &mut to).expect(rt, "memory");
    let line = b"nopaxos 3 replicas 7 sequencers 4 clients 16 controllers 4 observers 4\n";
    to.as_slice() == line.as_slice()
}

/// Whether the row of observer 3 is written as its line.
fn is_written(rt: &impl Abort, alloc: Global) -> bool {
    let row = Row::Watching {
        observer: 3,
        crashed: true,
        position: 7,
    };
    let mut to = Vec::new(alloc);
    write_row(&row, &mut to).expect(rt, "memory");
    to.as_slice() == b"observer o3 crashed 7\n".as_slice()
}

#[test]
fn lines_that_no_run_shows(rt: HostRuntime) {
    let alloc = rt.alloc();
    check(&rt, is_silent(&rt, alloc), "no room");
    check(&rt, has_most(&rt, alloc), "a header");
    check(&rt, is_written(&rt, alloc), "an observer");
}
