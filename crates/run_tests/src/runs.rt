//! Runs from four tables, and one over devices that never fail.
//!
//! A row's head has the words, and which calls fail; reads and writes come with the bytes that a
//! call moves at most, and a text to read comes behind the line `schedule`. Behind `=>` is the exit
//! status, then what was written, up to the bar, and below it the ports and datagrams that were
//! sent.

use crate::clusters::CLUSTERS;
use crate::nodes::NODES;
use crate::outcomes::{ONE_PUT, check_outcome, datagram, words_of};
use crate::texts::TEXTS;
use crate::traces::TRACES;
use commands::run_in_memory;
use kv_host::KvHost;
use outside::{ClockMem, LinkMem, PollAnswer, PortsMem, ReadMem, WriteMem};
use std::alloc::Global;
use std::process::Abort;

/// A run of a table. Where it has no schedule, the source has the one put.
fn check_run(rt: &impl Abort, alloc: Global, run: &str) {
    let (head, wanted) = run.split_once("=> ").expect(rt, "a run");
    let (head, schedule) = head.split_once("schedule\n").unwrap_or((head, ONE_PUT));
    check_outcome(rt, alloc, head, schedule, wanted);
}

#[test]
fn runs(rt: HostRuntime) {
    for table in [TEXTS, NODES, TRACES, CLUSTERS] {
        for run in table.split("----\n") {
            check_run(&rt, rt.alloc(), run);
        }
    }
}

/// A sequencer over devices in memory that never fail.
#[test]
fn in_memory(rt: HostRuntime) {
    let alloc = rt.alloc();
    let request = PollAnswer::Received(datagram(&rt, alloc, "request"));
    let answers = vec![in alloc; request].expect(&rt, "memory");
    let links = vec![in alloc; LinkMem::with_answers(alloc, 0, answers)].expect(&rt, "memory");
    let mut source = ReadMem::new(Vec::new(alloc));
    let mut sink = WriteMem::new(alloc);
    let mut ports = PortsMem::with_links(alloc, links);
    let mut clock = ClockMem::new(alloc);
    let words = "nopaxos sequencer --id 0 --replicas 3 --sequencers 1 --turns 1";
    let words = words_of(&rt, alloc, words);
    let status = run_in_memory::<KvHost>(
        alloc,
        "nopaxos",
        &words,
        &mut source,
        &mut sink,
        &mut ports,
        &mut clock,
    );
    let link = ports.detached().first().expect(&rt, "a link");
    assert!(rt; status as u8 == 0);
    assert!(rt; sink.as_slice() == b"served 1 lost 0\n".as_slice());
    assert!(rt; link.trace().len() == 4);
}
