//! Each read, each write, each attach and each poll fails in turn.

use crate::outcomes::{Outcome, outcome_of};
use std::alloc::Global;
use std::process::Abort;

/// What runs, what it reads, and what it writes where nothing fails. Some write nothing before they
/// have read all, and some write in calls of 16 bytes, whatever the lines are.
struct Row {
    head: &'static str,
    text: &'static str,
    whole: &'static str,
    reads_first: bool,
    is_gathered: bool,
}

const SCHEDULE: &str =
    "nopaxos 1 replicas 3 sequencers 1 clients 1\nsubmit c0 5000016b000176\ndeliver 0 s0\ndeliver 1 r0\ndeliver 1 r1\ndeliver 2 c0\ndeliver 3 c0\n";

const TRANSCRIPT: &str = "\
transcript 1 replicas 3 sequencers 1 clients 1
submit c0 1 5000016b000176
send 0 c0 s* request 25
send 1 s0 r* stamped 41
send 2 r0 c0 reply 40
send 3 r1 c0 reply 36
accept c0 1 6e6f6e65
replica r0 up normal 0 1 1 0
replica r1 up normal 0 1 1 0
replica r2 up normal 0 1 0 0
history 1 c0 1 5000016b000176
end
";

/// What reads a text: a replay, a check of its transcript, an order of a history, and one of
/// traces.
static READERS: [Row; 4] = [
    Row {
        head: "nopaxos replay",
        text: SCHEDULE,
        whole: TRANSCRIPT,
        reads_first: false,
        is_gathered: false,
    },
    Row {
        head: "nopaxos check",
        text: TRANSCRIPT,
        whole: "legal 1 1 1\n",
        reads_first: true,
        is_gathered: false,
    },
    Row {
        head: "linearize",
        text: "transcript 1 replicas 1 sequencers 1 clients 16\nsubmit c0 1 47000178\naccept c0 1 6e6f6e65\nend\n",
        whole: "transcript 1 replicas 1 sequencers 1 clients 16\nsubmit c0 1 47000178\naccept c0 1 6e6f6e65\nhistory 1 c0 1 47000178\nend\n",
        reads_first: true,
        is_gathered: true,
    },
    Row {
        head: "braid",
        text: "head\nin r0 packet 01\nin r1 tick resend\nout r1 send r0 01\n",
        whole: "head\nin r1 tick resend\nout r1 send r0 01\nin r0 packet 01\n",
        reads_first: true,
        is_gathered: true,
    },
];

/// Nodes that write: a client that gets both replies, one that reads and gets the answer at its
/// second poll, a sequencer with a trace, and a whole cluster.
static WRITERS: [Row; 4] = [
    Row {
        head: "nopaxos client --id 0 --replicas 3 --sequencers 1 --turns 3 5000016b000176\npolls reply follower",
        text: "",
        whole: "submit c0 1 5000016b000176\naccept c0 1 6e6f6e65\nserved 2 lost 0\n",
        reads_first: false,
        is_gathered: false,
    },
    Row {
        head: "nopaxos read --id 0 --observer 0 --replicas 3 --sequencers 1 --turns 3 6b\npolls nothing answer",
        text: "",
        whole: "read c0 1 o0 6b\nanswer c0 1 o0 0 6e6f6e65\nserved 2 lost 0\n",
        reads_first: false,
        is_gathered: false,
    },
    Row {
        head: "nopaxos sequencer --id 0 --replicas 3 --sequencers 1 --turns 1 --trace\npolls request",
        text: "",
        whole: "in s0 packet 4e4f030100000000000000000000000100075000016b000176\nout s0 send r* 4e4f03020000000000000001000000000000000100000000000000000000000100075000016b000176\n",
        reads_first: false,
        is_gathered: false,
    },
    Row {
        head: SMALL,
        text: "",
        whole: "\
nopaxos 1 replicas 1 sequencers 1 clients 1
submit c0 5000016b000176
deliver 0 s0
deliver 1 r0
deliver 2 c0
transcript 1 replicas 1 sequencers 1 clients 1
submit c0 1 5000016b000176
send 0 c0 s* request 25
send 1 s0 r* stamped 41
send 2 r0 c0 reply 40
accept c0 1 6e6f6e65
replica r0 up normal 0 1 1 0
history 1 c0 1 5000016b000176
end
served 3 lost 0 stray 0
",
        reads_first: false,
        is_gathered: false,
    },
];

/// A cluster with one actor of each kind, as in `clusters`.
const SMALL: &str = "\
nopaxos cluster --replicas 1 --sequencers 1 --clients 1 --turns 9 5000016b000176
polls nothing nothing stamped nothing request nothing nothing nothing nothing nothing nothing reply";

/// Nodes and clients, how often they attach and poll, and what they have written when a poll fails.
/// Where an attach fails they have written nothing.
static CALLERS: [(&str, u64, u64, &str); 7] = [
    (
        "nopaxos node --id 2 --replicas 3 --sequencers 1 --turns 3",
        1,
        3,
        "",
    ),
    (
        "nopaxos sequencer --id 0 --replicas 3 --sequencers 1 --turns 3",
        1,
        3,
        "",
    ),
    (
        "nopaxos controller --id 1 --replicas 3 --sequencers 1 --turns 3",
        1,
        3,
        "",
    ),
    (
        "nopaxos observer --id 1 --replicas 3 --sequencers 1 --turns 3",
        1,
        3,
        "",
    ),
    (
        "nopaxos client --id 0 --replicas 3 --sequencers 1 --turns 3 5000016b000176\npolls reply follower",
        1,
        2,
        "submit c0 1 5000016b000176\n",
    ),
    (
        "nopaxos read --id 0 --observer 0 --replicas 3 --sequencers 1 --turns 3 6b\npolls nothing answer",
        1,
        2,
        "read c0 1 o0 6b\n",
    ),
    (SMALL, 4, 12, ""),
];

/// A run in which a call fails; calls of a kind count from 1.
fn failing(
    rt: &impl Abort,
    alloc: Global,
    head: &str,
    text: &str,
    call: &str,
    number: u64,
) -> Outcome {
    let head = format!(in alloc; "{head}\n{call} {number}").expect(rt, "memory");
    outcome_of(rt, alloc, &head, text)
}

/// The run ends with this status, and has written this.
fn check(rt: &impl Abort, given: &Outcome, status: u8, text: &str) {
    assert!(rt;
        given.status == status && given.written.as_slice() == text.as_bytes(),
        "{text}"
    );
}

/// Whether the run ended with this status, and has written a front of the text and not all of it.
fn is_cut(given: &Outcome, status: u8, text: &str) -> bool {
    given.status == status
        && given.written.len() < text.len()
        && text.as_bytes().starts_with(&given.written)
}

/// As many reads of 16 bytes as give the text, and the one that tells the end, fail in turn; the
/// next one is not made.
fn check_reads(rt: &impl Abort, alloc: Global, row: &Row) {
    let count = row.text.len() as u64 / 16 + 2;
    for k in 1..=count {
        let given = failing(rt, alloc, row.head, row.text, "reads 16", k);
        let fails = is_cut(&given, 3, row.whole) && (given.written.is_empty() || !row.reads_first);
        assert!(rt; fails, "{}", row.head);
    }
    let given = failing(rt, alloc, row.head, row.text, "reads 16", count + 1);
    check(rt, &given, 0, row.whole);
}

/// Each write of 16 bytes fails in turn, up to a run in which none is left to fail.
fn check_writes(rt: &impl Abort, alloc: Global, row: &Row) {
    let mut failed = 0;
    for k in 1..=100 {
        let given = failing(rt, alloc, row.head, row.text, "reads 16\nwrites 16", k);
        if given.status == 0 {
            check(rt, &given, 0, row.whole);
            break;
        }
        let is_full = !row.is_gathered || given.written.len() as u64 == 16 * (k - 1);
        assert!(rt; is_cut(&given, 4, row.whole) && is_full, "{}", row.head);
        failed = k;
    }
    assert!(rt;
        failed >= row.whole.len() as u64 / 16 && failed < 100,
        "{}",
        row.head
    );
}

/// Each of so many calls fails in turn, which ends the run with a fault of a link and this text.
fn check_calls(rt: &impl Abort, alloc: Global, head: &str, call: &str, count: u64, text: &str) {
    for k in 1..=count {
        check(rt, &failing(rt, alloc, head, "", call, k), 5, text);
    }
}

#[test]
fn each_read_fails(rt: HostRuntime) {
    for row in &READERS {
        check_reads(&rt, rt.alloc(), row);
    }
}

#[test]
fn each_write_fails(rt: HostRuntime) {
    for row in READERS.iter().chain(&WRITERS) {
        check_writes(&rt, rt.alloc(), row);
    }
    // A write that takes no byte.
    let given = failing(&rt, rt.alloc(), "nopaxos replay", SCHEDULE, "writes 0", 0);
    assert!(rt; is_cut(&given, 4, TRANSCRIPT));
}

#[test]
fn each_attach_and_each_poll_fails(rt: HostRuntime) {
    for (head, attaches, polls, text) in &CALLERS {
        check_calls(&rt, rt.alloc(), head, "attaches", *attaches, "");
        check_calls(&rt, rt.alloc(), head, "instead failure", *polls, text);
    }
}
