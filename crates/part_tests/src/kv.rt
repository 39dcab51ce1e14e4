//! The key-value service: answers to ops, and copies.
use crate::checking::{check, check_row};
use kv_host::KvHost;
use nop_types::Host;
use std::alloc::Global;
use std::process::Abort;

/// An op, and the answer to it, one after the other. An op is its letter and its fields, each after
/// its length in two bytes. Many more stand in examples/vectors.txt, which a run of the program
/// tries; no request has an op that is as long as the last one.
static OPS: [(&[u8], &[u8]); 7] = [
    (b"G\0\x01k", b"none"),
    (b"P\0\x01k\0\x01v", b"none"),
    (b"C\0\x01k\0\x01v\0\x01w", b"yes"),
    (b"G\0\x01k", b"=w"),
    (b"D\0\x01k", b"=w"),
    (b"G\0\0", b"bad"),
    (&[b'P'; 641], b"bad"),
];

/// Adds a field, which begins with its length in two bytes.
pub fn put_field(rt: &impl Abort, byte: u8, len: u64, to: &mut Vec<u8>) {
    to.push((len / 256 % 256) as u8).expect(rt, "memory");
    to.push((len % 256) as u8).expect(rt, "memory");
    for _ in 0..len {
        to.push(byte).expect(rt, "memory");
    }
}

/// The host gives this answer to an op.
pub fn answers<H: Host>(rt: &impl Abort, host: &mut H, op: &[u8], expected: &[u8]) -> bool {
    let (answer, _undo) = host.apply(op).expect(rt, "memory");
    answer.as_slice() == expected
}

/// The host gives these answers to these ops, one after the other.
pub fn check_ops<H: Host>(rt: &impl Abort, host: &mut H, ops: &[(&[u8], &[u8])]) {
    for (row, (op, expected)) in ops.iter().enumerate() {
        check_row(rt, answers(rt, host, op, expected), row);
    }
}

/// A copy of a host after an op, which is then undone in the host.
fn copied_and_undone<H: Host>(rt: &impl Abort, host: &mut H) -> H {
    let (_answer, undo) = host.apply(b"P\0\x01k\0\x01v").expect(rt, "memory");
    let copy = host.copy().expect(rt, "memory");
    host.undo(undo);
    copy
}

/// What is done to a host does not show in a copy of it: an op is undone in one, and a key is
/// deleted in the next.
fn check_copies<H: Host>(rt: &impl Abort, alloc: Global) {
    let mut host = H::fresh(alloc).expect(rt, "memory");
    let mut copy = copied_and_undone(rt, &mut host);
    check(rt, answers(rt, &mut host, b"G\0\x01k", b"none"), "undone");
    check(rt, answers(rt, &mut copy, b"G\0\x01k", b"=v"), "a copy");
    let mut again = copy.copy().expect(rt, "memory");
    check(rt, answers(rt, &mut copy, b"D\0\x01k", b"=v"), "deleted");
    check(rt, answers(rt, &mut again, b"G\0\x01k", b"=v"), "again");
    check(rt, answers(rt, &mut copy, b"G\0\x01k", b"none"), "gone");
}

#[test]
fn ops(rt: HostRuntime) {
    let mut host = KvHost::fresh(rt.alloc()).expect(&rt, "memory");
    check_ops(&rt, &mut host, &OPS);
    check_copies::<KvHost>(&rt, rt.alloc());
}
