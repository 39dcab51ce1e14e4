//! An observer of three replicas. What is expected was worked out from the rules of the protocol
//! and from its formats.

use kv_host::KvHost;
use nop_types::{Config, Core, Input, Key, Outbox};
use observer::Observer;
use std::alloc::Global;
use std::process::Abort;

/// A leader tells its log: client 0 puts v at k. The message is one fragment.
static PREPARE: &[u8] = &[
    78, 79, 3, 8, 0, 0, 0, 0, 0, 0, 0, 0, 1, 0, 0, 0, 1, // the fragment of replica 0
    23, 0, 0, 0, 0, 0, 0, 0, 0, 0, 0, 0, 0, 1, // a SyncPrepare of view (0, 1)
    0, 0, 0, 0, 0, 0, 0, 1, 1, // one request above the sync point 0
    0, 0, 0, 0, 0, 0, 0, 0, 0, 0, 0, 1, 0, 7, b'P', 0, 1, b'k', 0, 1, b'v',
];

/// It commits one slot.
static COMMIT: &[u8] = &[
    78, 79, 3, 8, 0, 0, 0, 0, 0, 0, 0, 0, 2, 0, 0, 0, 1, // its next fragment
    25, 0, 0, 0, 0, 0, 0, 0, 0, 0, 0, 0, 0, 1, // a SyncCommit
    0, 0, 0, 1,
];

/// Client 0 asks for k.
static READ: &[u8] = &[78, 79, 3, 9, 0, 0, 0, 0, 0, 0, 0, 0, 0, 0, 0, 2, 0, 1, b'k'];

fn check(rt: &impl Abort, holds: bool, text: &str) {
    assert!(rt; holds, "{text}");
}

fn hear(rt: &impl Abort, alloc: Global, near: &mut Observer<KvHost>, bytes: &[u8]) {
    let mut unsent = Outbox::new(alloc);
    near.step(Input::Packet(bytes), &mut unsent)
        .expect(rt, "memory");
}

/// Whether this is read at the key.
fn reads(
    rt: &impl Abort,
    alloc: Global,
    near: &mut Observer<KvHost>,
    key: u8,
    expected: &[u8],
) -> bool {
    let key = Key::new(alloc, &[key]).expect(rt, "memory");
    near.answer_of(&key).expect(rt, "memory").as_slice() == expected
}

fn check_reads(rt: &impl Abort, alloc: Global, near: &mut Observer<KvHost>) {
    hear(rt, alloc, near, PREPARE);
    check(rt, reads(rt, alloc, near, b'k', b"none"), "k, prepared");
    check(rt, near.position() == 0, "position 0");
    hear(rt, alloc, near, COMMIT);
    hear(rt, alloc, near, READ);
    hear(rt, alloc, near, b"no datagram");
    check(rt, reads(rt, alloc, near, b'k', b"=v"), "k, committed");
    check(rt, reads(rt, alloc, near, b'j', b"none"), "j");
    check(rt, near.position() == 1, "position 1");
}

fn new_observer(rt: &impl Abort, alloc: Global) -> Observer<KvHost> {
    let config = Config::new(3, 1, 1, 1, 1).expect(rt, "a group");
    Observer::new(alloc, config, 0).expect(rt, "memory")
}

#[test]
fn reads_what_is_synchronised(rt: HostRuntime) {
    let mut near = new_observer(&rt, rt.alloc());
    check_reads(&rt, rt.alloc(), &mut near);
}
