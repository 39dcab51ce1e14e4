//! Copies of values, and views.
use crate::rows::{check, check_text, request, text};
use nop_types::{Answered, Bytes, Checkpoint, Entry, Log, SavedClient, View, leader_of};
use std::alloc::Global;
use std::process::Abort;

fn saved(rt: &impl Abort, alloc: Global, client: u32) -> SavedClient {
    let result = Bytes::new(alloc, b"=").expect(rt, "memory");
    let kept = vec![in alloc; Answered { id: 2, result }].expect(rt, "memory");
    SavedClient {
        client,
        greatest: 2,
        kept,
    }
}

/// A checkpoint with two clients.
fn checkpoint(rt: &impl Abort, alloc: Global) -> Checkpoint {
    let (first, second) = (saved(rt, alloc, 7), saved(rt, alloc, 8));
    let clients = vec![in alloc; first, second].expect(rt, "memory");
    let host = Bytes::new(alloc, b"h").expect(rt, "memory");
    let checkpoint = Checkpoint::new(host, clients).expect(rt, "ascending");
    checkpoint.try_clone().expect(rt, "memory")
}

/// A copy of a log of a checkpoint, a request and a NO-OP, each of which is a copy.
fn log(rt: &impl Abort, alloc: Global) -> Log {
    let request = request(rt, alloc, 7, 3, b"op");
    let first = Entry::Req(request.try_clone().expect(rt, "memory"));
    let entries = vec![in alloc; first, Entry::NoOp].expect(rt, "memory");
    let log = Log::new(1, Some(checkpoint(rt, alloc)), entries);
    log.try_clone().expect(rt, "memory")
}

const LOG: &str =
    "Log { sync_point: 1, checkpoint: Some(Checkpoint { host: Bytes { bytes: [104] }, clients: [SavedClient { client: 7, greatest: 2, kept: [Answered { id: 2, result: Bytes { bytes: [61] } }] }, SavedClient { client: 8, greatest: 2, kept: [Answered { id: 2, result: Bytes { bytes: [61] } }] }] }), entries: [Req(Request { client: 7, id: 3, op: Op { bytes: [111, 112] } }), NoOp] }";

#[test]
fn copies(rt: HostRuntime) {
    let alloc = rt.alloc();
    check_text(&rt, &text(&rt, alloc, &log(&rt, alloc)), LOG);
    let request = request(&rt, alloc, 7, 3, b"op");
    let op = request.op.try_clone().expect(&rt, "memory");
    check_text(&rt, &text(&rt, alloc, &op), "Op { bytes: [111, 112] }");
    let bytes = Bytes::new(alloc, b"abc").expect(&rt, "memory");
    let copy = bytes.try_clone().expect(&rt, "memory").into_vec();
    check(&rt, copy.as_slice() == b"abc".as_slice(), "bytes");
}

/// Two views of which neither is at most the other, and the least view above both.
const LEFT: View = View {
    leader: 4,
    session: 1,
};

const RIGHT: View = View {
    leader: 2,
    session: 0x1_0000_0001,
};

const ABOVE: View = View {
    leader: 4,
    session: 0x1_0000_0001,
};

fn are_ordered() -> bool {
    !View::le(LEFT, RIGHT)
        && !View::le(RIGHT, LEFT)
        && View::le(LEFT, ABOVE)
        && View::le(RIGHT, ABOVE)
        && RIGHT.outranks(LEFT)
}

#[test]
fn views(rt: HostRuntime) {
    check(&rt, are_ordered(), "their order");
    check(&rt, View::join(LEFT, RIGHT) == ABOVE, "the least above");
    check(&rt, leader_of(ABOVE, 3) == 1, "its leader");
}
