//! The lock service: answers to ops, saved states, and as many locks as may be held.
use crate::checking::{check, check_row};
use crate::kv::{answers, check_ops};
use crate::kv_saved::{check_refused, is_refused, is_saved_as, loaded, loads, put};
use lock_host::LockHost;
use nop_types::Host;
use std::alloc::Global;
use std::process::Abort;

/// An op, and the answer to it, one after the other. An op is its letter, names, each after its
/// length in a byte, and for a release the token in eight bytes.
static OPS: [(&[u8], &[u8]); 42] = [
    (b"I\x01a", b"free"),
    (b"A\x01a\x01x", b"granted\0\0\0\0\0\0\0\x01"),
    (b"A\x01a\x01x", b"granted\0\0\0\0\0\0\0\x01"),
    (b"A\x01a\x01y", b"held\0\0\0\0\0\0\0\x01x"),
    (b"I\x01a", b"held\0\0\0\0\0\0\0\x01x"),
    (b"A\x01b\x01y", b"granted\0\0\0\0\0\0\0\x02"),
    // Another owner, another token, another lock, and one that nobody holds.
    (b"R\x01a\x01y\0\0\0\0\0\0\0\x01", b"refused"),
    (b"R\x01a\x01x\0\0\0\0\0\0\0\x02", b"refused"),
    (b"R\x01a\x01x\x01\0\0\0\0\0\0\x01", b"refused"),
    (b"R\x01b\x01x\0\0\0\0\0\0\0\x01", b"refused"),
    (b"R\x01c\x01x\0\0\0\0\0\0\0\x01", b"refused"),
    (b"I\x01a", b"held\0\0\0\0\0\0\0\x01x"),
    (b"R\x01a\x01x\0\0\0\0\0\0\0\x01", b"released"),
    (b"I\x01a", b"free"),
    (b"R\x01a\x01x\0\0\0\0\0\0\0\x01", b"refused"),
    // The former holder has a lower token.
    (b"A\x01a\x01y", b"granted\0\0\0\0\0\0\0\x03"),
    (b"R\x01a\x01x\0\0\0\0\0\0\0\x01", b"refused"),
    (b"R\x01a\x01y\0\0\0\0\0\0\0\x01", b"refused"),
    (b"A\x01a\x01x", b"held\0\0\0\0\0\0\0\x03y"),
    (b"A\x02aa\x03own", b"granted\0\0\0\0\0\0\0\x04"),
    (b"A\x03aaa\x01\0", b"granted\0\0\0\0\0\0\0\x05"),
    (b"I\x02aa", b"held\0\0\0\0\0\0\0\x04own"),
    // Bytes that no op spells.
    (b"", b"bad"),
    (b"A", b"bad"),
    (b"a\x01a\x01x", b"bad"),
    (b"A\x01a", b"bad"),
    (b"A\x01a\0", b"bad"),
    (b"A\0\x01x", b"bad"),
    (b"A\x01c\x02x", b"bad"),
    (b"A\x01c\x01x\0", b"bad"),
    (b"R\x01b\x01y", b"bad"),
    (b"R\x01b\x01y\0\0\0\0\0\0\x02", b"bad"),
    (b"R\x01b\x01y\0\0\0\0\0\0\0\x02\0", b"bad"),
    (b"R\x01b\0\0\0\0\0\0\0\0\x02", b"bad"),
    (b"I", b"bad"),
    (b"I\0", b"bad"),
    (b"I\x01", b"bad"),
    (b"I\x01a\0", b"bad"),
    (b"I\xffa", b"bad"),
    // They change nothing.
    (b"I\x01c", b"free"),
    (b"I\x01b", b"held\0\0\0\0\0\0\0\x02y"),
    (b"A\x01c\x01z", b"granted\0\0\0\0\0\0\0\x06"),
];

/// How long the two names of an acquire are, and whether it is granted.
static LENGTHS: [(u8, u8, bool); 5] = [
    (64, 64, true),
    (64, 65, false),
    (65, 64, false),
    (1, 255, false),
    (1, 64, true),
];

/// Adds a name of so many bytes.
fn put_name(rt: &impl Abort, len: u8, to: &mut Vec<u8>) {
    to.push(len).expect(rt, "memory");
    for _ in 0..len {
        to.push(b'n').expect(rt, "memory");
    }
}

/// The acquire of a lock, with names of so many bytes.
fn acquire(rt: &impl Abort, alloc: Global, name: u8, owner: u8) -> Vec<u8> {
    let mut op = Vec::new(alloc);
    put(rt, b"A", &mut op);
    put_name(rt, name, &mut op);
    put_name(rt, owner, &mut op);
    op
}

/// The answer to the first acquire, or to what is no op.
fn answer_to(granted: bool) -> &'static [u8] {
    if granted {
        b"granted\0\0\0\0\0\0\0\x01"
    } else {
        b"bad"
    }
}

fn check_lengths<H: Host>(rt: &impl Abort, alloc: Global) {
    for (row, (name, owner, granted)) in LENGTHS.iter().enumerate() {
        let mut host = H::fresh(alloc).expect(rt, "memory");
        let op = acquire(rt, alloc, *name, *owner);
        let holds = answers(rt, &mut host, &op, answer_to(*granted));
        check_row(rt, holds, row);
    }
}

/// Ops from the opening state on, and how the state that they lead to is saved.
static SAVED: [(&[&[u8]], &[u8]); 6] = [
    (&[], b"\0\0\0\0\0\0\0\0\0\0\0\0\0\0\0\0"),
    (
        &[b"A\x01a\x01x"],
        b"\0\0\0\0\0\0\0\x01\0\0\0\0\0\0\0\x01\x01a\x01x\0\0\0\0\0\0\0\x01",
    ),
    (
        &[b"A\x01b\x02yz", b"A\x01a\x01x", b"I\x01a"],
        b"\0\0\0\0\0\0\0\x02\0\0\0\0\0\0\0\x02\x01b\x02yz\0\0\0\0\0\0\0\x01\x01a\x01x\0\0\0\0\0\0\0\x02",
    ),
    // A place that was left is free, and the next lock that is granted stands there.
    (
        &[b"A\x01a\x01x", b"R\x01a\x01x\0\0\0\0\0\0\0\x01"],
        b"\0\0\0\0\0\0\0\x01\0\0\0\0\0\0\0\x01\0",
    ),
    (
        &[
            b"A\x01a\x01x",
            b"A\x01b\x01y",
            b"R\x01a\x01x\0\0\0\0\0\0\0\x01",
        ],
        b"\0\0\0\0\0\0\0\x02\0\0\0\0\0\0\0\x02\0\x01b\x01y\0\0\0\0\0\0\0\x02",
    ),
    (
        &[
            b"A\x01a\x01x",
            b"A\x01b\x01y",
            b"R\x01a\x01x\0\0\0\0\0\0\0\x01",
            b"A\x01c\x01z",
        ],
        b"\0\0\0\0\0\0\0\x03\0\0\0\0\0\0\0\x02\x01c\x01z\0\0\0\0\0\0\0\x03\x01b\x01y\0\0\0\0\0\0\0\x02",
    ),
];

/// Bytes that are no saved state.
static REFUSED: [&[u8]; 14] = [
    b"",
    b"\0\0\0\0\0\0\0\0",
    b"\0\0\0\0\0\0\0\0\0\0\0\0\0\0\0",
    b"\0\0\0\0\0\0\0\0\0\0\0\0\0\0\0\0\0",
    // A place too few, and one too many.
    b"\0\0\0\0\0\0\0\x01\0\0\0\0\0\0\0\x02\x01a\x01x\0\0\0\0\0\0\0\x01",
    b"\0\0\0\0\0\0\0\x01\0\0\0\0\0\0\0\x01\x01a\x01x\0\0\0\0\0\0\0\x01\0",
    b"\0\0\0\0\0\0\0\x01\0\0\0\0\0\0\0\0\x01a\x01x\0\0\0\0\0\0\0\x01",
    // A byte too few.
    b"\0\0\0\0\0\0\0\x01\0\0\0\0\0\0\0\x01\x01a\x01x\0\0\0\0\0\0\x01",
    // A token that was not granted.
    b"\0\0\0\0\0\0\0\x01\0\0\0\0\0\0\0\x01\x01a\x01x\0\0\0\0\0\0\0\0",
    b"\0\0\0\0\0\0\0\x01\0\0\0\0\0\0\0\x01\x01a\x01x\0\0\0\0\0\0\0\x02",
    // An owner without a name.
    b"\0\0\0\0\0\0\0\x01\0\0\0\0\0\0\0\x01\x01a\0\0\0\0\0\0\0\0\x01",
    // One lock twice, and one token twice.
    b"\0\0\0\0\0\0\0\x02\0\0\0\0\0\0\0\x02\x01a\x01x\0\0\0\0\0\0\0\x01\x01a\x01y\0\0\0\0\0\0\0\x02",
    b"\0\0\0\0\0\0\0\x02\0\0\0\0\0\0\0\x02\x01a\x01x\0\0\0\0\0\0\0\x01\x01b\x01y\0\0\0\0\0\0\0\x01",
    b"\xff\xff\xff\xff\xff\xff\xff\xff\xff\xff\xff\xff\xff\xff\xff\xff\0",
];

/// Whether the host is as before, where an op is done and undone.
fn is_undone<H: Host>(rt: &impl Abort, host: &mut H, op: &[u8]) -> bool {
    let before = host.save().expect(rt, "memory");
    let (_answer, undo) = host.apply(op).expect(rt, "memory");
    host.undo(undo);
    is_saved_as(rt, host, before.as_slice())
}

/// Each op is undone and done again, and the state that they lead to is saved so.
fn check_saved<H: Host>(rt: &impl Abort, alloc: Global) {
    for (row, (ops, bytes)) in SAVED.iter().enumerate() {
        let mut host = H::fresh(alloc).expect(rt, "memory");
        for op in *ops {
            check_row(rt, is_undone(rt, &mut host, op), row);
            host.apply(op).expect(rt, "memory");
        }
        check_row(rt, is_saved_as(rt, &host, bytes), row);
        check_row(rt, loads::<H>(rt, alloc, bytes), row);
    }
}

/// An acquire, by x, of the lock of a number, or a release by its token.
fn op_of(rt: &impl Abort, alloc: Global, letter: u8, number: u16, rest: &[u8]) -> Vec<u8> {
    let mut op = Vec::new(alloc);
    put(rt, &[letter, 2], &mut op);
    put(rt, &number.to_be_bytes(), &mut op);
    put(rt, b"\x01x", &mut op);
    put(rt, rest, &mut op);
    op
}

/// What is done once as many locks are held as may be, those of the numbers from 0 on: an op's
/// letter, the number of its lock, what follows the owner, and the answer.
static FULL: [(u8, u16, &[u8], &[u8]); 7] = [
    (b'A', 4096, b"", b"full"),
    (b'A', 4095, b"", b"granted\0\0\0\0\0\0\x10\0"),
    (b'A', 5000, b"", b"full"),
    (b'R', 7, b"\0\0\0\0\0\0\0\x08", b"released"),
    (b'A', 5000, b"", b"granted\0\0\0\0\0\0\x10\x01"),
    (b'A', 7, b"", b"full"),
    (b'R', 5000, b"\0\0\0\0\0\0\x10\x01", b"released"),
];

/// Such a host.
fn full<H: Host>(rt: &impl Abort, alloc: Global) -> H {
    let mut host = H::fresh(alloc).expect(rt, "memory");
    for number in 0..4096u16 {
        host.apply(&op_of(rt, alloc, b'A', number, b""))
            .expect(rt, "memory");
    }
    host
}

/// A host that is loaded from what a full one saves. From what has one lock more none is loaded.
fn loaded_again<H: Host>(rt: &impl Abort, alloc: Global, host: &H) -> H {
    let saved = host.save().expect(rt, "memory");
    check(rt, saved.as_slice().len() == 16 + 13 * 4096, "its length");
    let more = one_more(rt, alloc, saved.as_slice());
    check(rt, is_refused::<H>(rt, alloc, &more), "one more");
    loaded(rt, alloc, saved.as_slice())
}

/// The saved state of a full host with one lock more: a token and a place for it.
fn one_more(rt: &impl Abort, alloc: Global, saved: &[u8]) -> Vec<u8> {
    let mut bytes = Vec::new(alloc);
    put(rt, b"\0\0\0\0\0\0\x10\x01\0\0\0\0\0\0\x10\x01", &mut bytes);
    let (_counts, places) = saved.split_at(16.min(saved.len()));
    put(rt, places, &mut bytes);
    put(rt, b"\x02\x10\0\x01x\0\0\0\0\0\0\x10\x01", &mut bytes);
    bytes
}

fn check_full<H: Host>(rt: &impl Abort, alloc: Global) {
    let mut host: H = full(rt, alloc);
    let mut loaded: H = loaded_again(rt, alloc, &host);
    for (row, (letter, number, rest, expected)) in FULL.iter().enumerate() {
        let op = op_of(rt, alloc, *letter, *number, rest);
        check_row(rt, answers(rt, &mut host, &op, expected), row);
        check_row(rt, answers(rt, &mut loaded, &op, expected), row);
    }
}

#[test]
fn locks(rt: HostRuntime) {
    let mut host = LockHost::fresh(rt.alloc()).expect(&rt, "memory");
    check_ops(&rt, &mut host, &OPS);
    check_lengths::<LockHost>(&rt, rt.alloc());
    check_saved::<LockHost>(&rt, rt.alloc());
    check_refused::<LockHost>(&rt, rt.alloc(), &REFUSED);
    check_full::<LockHost>(&rt, rt.alloc());
}
