//! Saved states of the key-value service, and full maps.
use crate::checking::{check, check_row};
use crate::kv::{answers, put_field};
use kv_host::{KvHost, MAX_KEYS};
use nop_types::Host;
use std::alloc::Global;
use std::process::Abort;

/// Ops from the opening state on, and how the state that they lead to is saved.
static SAVED: [(&[&[u8]], &[u8]); 9] = [
    (&[], b"\0\0\0\0"),
    (&[b"P\0\x01k\0\x01v"], b"\0\0\0\x01\0\x01k\0\x01v"),
    (&[b"P\0\x01k\0\0"], b"\0\0\0\x01\0\x01k\0\0"),
    (
        &[b"P\0\x01k\0\x01v", b"P\0\x01k\0\x03www"],
        b"\0\0\0\x01\0\x01k\0\x03www",
    ),
    // Keys ascend, whichever came first; a key stands before a longer one that begins with it.
    (
        &[b"P\0\x01b\0\x012", b"P\0\x02ab\0\x013", b"P\0\x01a\0\x011"],
        b"\0\0\0\x03\0\x01a\0\x011\0\x02ab\0\x013\0\x01b\0\x012",
    ),
    (
        &[b"P\0\x01\xff\0\x01v", b"P\0\x01\x7f\0\x01w"],
        b"\0\0\0\x02\0\x01\x7f\0\x01w\0\x01\xff\0\x01v",
    ),
    // A deleted key is not there.
    (
        &[b"P\0\x01a\0\x011", b"P\0\x01b\0\x012", b"D\0\x01a"],
        b"\0\0\0\x01\0\x01b\0\x012",
    ),
    (&[b"P\0\x01a\0\x011", b"D\0\x01a"], b"\0\0\0\0"),
    (
        &[b"P\0\x01a\0\x011", b"C\0\x01a\0\x011\0\x0222", b"G\0\x01a"],
        b"\0\0\0\x01\0\x01a\0\x0222",
    ),
];

/// Bytes that are no saved state.
static REFUSED: [&[u8]; 16] = [
    b"",
    b"\0\0\0",
    b"\0\0\0\0\0",
    // A byte too few, and one too many.
    b"\0\0\0\x01\0\x01k\0\x01",
    b"\0\0\0\x01\0\x01k\0\x01v\0",
    b"\0\0\0\x01\0\x01k\0",
    b"\0\0\0\x01\0",
    // A count too small, and one too great.
    b"\0\0\0\0\0\x01k\0\x01v",
    b"\0\0\0\x02\0\x01k\0\x01v",
    b"\0\0\x10\x01\0\x01k\0\x01v",
    b"\xff\xff\xff\xff\0\x01k\0\x01v",
    // Keys that do not ascend.
    b"\0\0\0\x02\0\x01b\0\x01v\0\x01a\0\x01v",
    b"\0\0\0\x02\0\x02ab\0\x01v\0\x01a\0\x01v",
    b"\0\0\0\x02\0\x01a\0\x01v\0\x01a\0\x01v",
    b"\0\0\0\x02\0\x01a\0\x01v\0\x01a\0\x01w",
    // A key without bytes.
    b"\0\0\0\x01\0\0\0\x01v",
];

/// Fields of a saved state of one key with its value, and whether it is one.
static LENGTHS: [(u64, u64, bool); 4] = [
    (64, 256, true),
    (65, 256, false),
    (64, 257, false),
    (1, 0, true),
];

/// The host is saved as these bytes.
pub fn is_saved_as<H: Host>(rt: &impl Abort, host: &H, bytes: &[u8]) -> bool {
    host.save().expect(rt, "memory").as_slice() == bytes
}

/// The bytes load, and are saved again as they were.
pub fn loads<H: Host>(rt: &impl Abort, alloc: Global, bytes: &[u8]) -> bool {
    match H::load(alloc, bytes).expect(rt, "memory") {
        Some(host) => is_saved_as(rt, &host, bytes),
        None => false,
    }
}

/// The host that these ops lead to.
fn led_to<H: Host>(rt: &impl Abort, alloc: Global, ops: &[&[u8]]) -> H {
    let mut host = H::fresh(alloc).expect(rt, "memory");
    for op in ops {
        host.apply(op).expect(rt, "memory");
    }
    host
}

fn check_saved<H: Host>(rt: &impl Abort, alloc: Global) {
    for (row, (ops, bytes)) in SAVED.iter().enumerate() {
        let host: H = led_to(rt, alloc, ops);
        check_row(rt, is_saved_as(rt, &host, bytes), row);
        check_row(rt, loads::<H>(rt, alloc, bytes), row);
    }
}

fn check_saved_as<H: Host>(rt: &impl Abort, host: &H, bytes: &[u8]) {
    check(rt, is_saved_as(rt, host, bytes), "saved");
}

/// A key is put, deleted, compared and put. Undone one by one, each state comes back that was
/// passed.
fn check_undone<H: Host>(rt: &impl Abort, alloc: Global) {
    let mut host = H::fresh(alloc).expect(rt, "memory");
    let (_answer, put) = host.apply(b"P\0\x01k\0\x01v").expect(rt, "memory");
    let (_answer, deleted) = host.apply(b"D\0\x01k").expect(rt, "memory");
    let (_answer, compared) = host.apply(b"C\0\x01k\0\x01v\0\x01w").expect(rt, "memory");
    let (_answer, again) = host.apply(b"P\0\x01k\0\x01x").expect(rt, "memory");
    check_saved_as(rt, &host, b"\0\0\0\x01\0\x01k\0\x01x");
    host.undo(again);
    check_saved_as(rt, &host, b"\0\0\0\0");
    host.undo(compared);
    check_saved_as(rt, &host, b"\0\0\0\0");
    host.undo(deleted);
    check_saved_as(rt, &host, b"\0\0\0\x01\0\x01k\0\x01v");
    host.undo(put);
    check_saved_as(rt, &host, b"\0\0\0\0");
}

pub fn is_refused<H: Host>(rt: &impl Abort, alloc: Global, bytes: &[u8]) -> bool {
    H::load(alloc, bytes).expect(rt, "memory").is_none()
}

/// Each of these bytes is refused.
pub fn check_refused<H: Host>(rt: &impl Abort, alloc: Global, refused: &[&[u8]]) {
    for (row, bytes) in refused.iter().enumerate() {
        check_row(rt, is_refused::<H>(rt, alloc, bytes), row);
    }
}

fn check_lengths<H: Host>(rt: &impl Abort, alloc: Global) {
    for (row, (key, value, holds)) in LENGTHS.iter().enumerate() {
        let mut bytes = Vec::from_slice(alloc, b"\0\0\0\x01").expect(rt, "memory");
        put_field(rt, b'x', *key, &mut bytes);
        put_field(rt, b'x', *value, &mut bytes);
        check_row(rt, loads::<H>(rt, alloc, &bytes) == *holds, row);
    }
}

pub fn put(rt: &impl Abort, bytes: &[u8], to: &mut Vec<u8>) {
    to.extend_from_slice(bytes).expect(rt, "memory");
}

/// The op `letter` of the key of a number, and the fields that follow.
fn op_of(rt: &impl Abort, alloc: Global, letter: u8, number: u16, fields: &[u8]) -> Vec<u8> {
    let mut op = Vec::new(alloc);
    put(rt, &[letter, 0, 2], &mut op);
    put(rt, &number.to_be_bytes(), &mut op);
    put(rt, fields, &mut op);
    op
}

/// A host in which as many keys have a value as may have one: the keys of the numbers from 0 on,
/// each with v.
fn full<H: Host>(rt: &impl Abort, alloc: Global) -> H {
    let mut host = H::fresh(alloc).expect(rt, "memory");
    for number in 0..4096u16 {
        let put = op_of(rt, alloc, b'P', number, b"\0\x01v");
        check(rt, answers(rt, &mut host, &put, b"none"), "a new key");
    }
    host
}

/// What is done to a full host, one after the other: an op's letter, the number of its key, the
/// fields after the key, the answer, and whether the op is undone.
type Row = (u8, u16, &'static [u8], &'static [u8], bool);

static FULL: [Row; 18] = [
    (b'P', 4096, b"\0\x01v", b"full", true),
    (b'P', 4096, b"\0\x01v", b"full", false),
    (b'G', 4096, b"", b"none", false),
    (b'P', 5000, b"\0\0", b"full", false),
    (b'P', 7, b"\0\x01w", b"=v", true),
    (b'P', 7, b"\0\x01v", b"=v", false),
    (b'C', 7, b"\0\x01v\0\x01w", b"yes", true),
    (b'C', 4096, b"\0\0\0\x01w", b"no", false),
    (b'D', 4096, b"", b"none", false),
    // Where a deletion is undone, there is no room.
    (b'D', 7, b"", b"=v", true),
    (b'P', 4096, b"\0\x01v", b"full", false),
    (b'D', 7, b"", b"=v", false),
    // Where a put is undone, there is.
    (b'P', 4096, b"\0\x01v", b"none", true),
    (b'P', 4096, b"\0\x01v", b"none", false),
    (b'P', 7, b"\0\x01v", b"full", false),
    (b'D', 4096, b"", b"=v", false),
    (b'P', 7, b"\0\x01v", b"none", false),
    (b'P', 4096, b"\0\x01v", b"full", false),
];

/// Carries out an op, and says whether it has the answer of the row.
fn does<H: Host>(rt: &impl Abort, alloc: Global, host: &mut H, row: &Row) -> bool {
    let (letter, number, fields, expected, is_undone) = *row;
    let op = op_of(rt, alloc, letter, number, fields);
    let (answer, undo) = host.apply(&op).expect(rt, "memory");
    if is_undone {
        host.undo(undo);
    }
    answer.as_slice() == expected
}

/// The saved state of a full host with one key more, and a count for it.
fn one_more(rt: &impl Abort, alloc: Global, saved: &[u8]) -> Vec<u8> {
    let mut bytes = Vec::new(alloc);
    put(rt, b"\0\0\x10\x01", &mut bytes);
    let (_count, entries) = saved.split_at(4.min(saved.len()));
    put(rt, entries, &mut bytes);
    put(rt, b"\0\x02\x10\0\0\x01v", &mut bytes);
    bytes
}

/// A host that is loaded from these bytes, which are its saved state.
pub fn loaded<H: Host>(rt: &impl Abort, alloc: Global, saved: &[u8]) -> H {
    let host = H::load(alloc, saved).expect(rt, "memory");
    let host = host.expect(rt, "a saved state");
    check_saved_as(rt, &host, saved);
    host
}

/// A host of this saved state is full too, and one of a key more is none.
fn check_loaded<H: Host>(rt: &impl Abort, alloc: Global, saved: &[u8]) {
    check(rt, saved.len() == 4 + 7 * MAX_KEYS, "its length");
    let mut again: H = loaded(rt, alloc, saved);
    let put = op_of(rt, alloc, b'P', 4096, b"\0\x01v");
    check(rt, answers(rt, &mut again, &put, b"full"), "full");
    let more = one_more(rt, alloc, saved);
    check(rt, is_refused::<H>(rt, alloc, &more), "one more");
}

fn check_full<H: Host>(rt: &impl Abort, alloc: Global) {
    let mut host = full::<H>(rt, alloc);
    let saved = host.save().expect(rt, "memory");
    for (number, row) in FULL.iter().enumerate() {
        check_row(rt, does(rt, alloc, &mut host, row), number);
    }
    check_saved_as(rt, &host, saved.as_slice());
    check_loaded::<H>(rt, alloc, saved.as_slice());
}

#[test]
fn states_are_saved(rt: HostRuntime) {
    check_saved::<KvHost>(&rt, rt.alloc());
    check_undone::<KvHost>(&rt, rt.alloc());
    check_refused::<KvHost>(&rt, rt.alloc(), &REFUSED);
    check_lengths::<KvHost>(&rt, rt.alloc());
    check_full::<KvHost>(&rt, rt.alloc());
}
