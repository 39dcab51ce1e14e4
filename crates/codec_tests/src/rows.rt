//! What tests share: bytes that are written as rows, values as texts, and what is asserted.
use nop_types::{MAX_OP_BYTES, Op, Request};
use std::alloc::Global;
use std::fmt::Debug;
use std::process::Abort;

/// Ends the test where this does not hold, with what it is about.
pub fn check(rt: &impl Abort, holds: bool, told: &str) {
    assert!(rt; holds, "{told}");
}

pub fn put(rt: &impl Abort, bytes: &[u8], to: &mut Vec<u8>) {
    to.extend_from_slice(bytes).expect(rt, "memory");
}

/// Puts the bytes so many times.
pub fn put_times(rt: &impl Abort, bytes: &[u8], count: u32, to: &mut Vec<u8>) {
    for _ in 0..count {
        put(rt, bytes, to);
    }
}

/// The bytes of a row: words of two digits for each byte, where `ff*640` has its bytes 640 times.
pub fn bytes_of(rt: &impl Abort, alloc: Global, row: &str) -> Vec<u8> {
    let mut bytes = Vec::new(alloc);
    for word in row.split(' ') {
        let (digits, count) = word.split_once('*').unwrap_or((word, "1"));
        let piece = hex::decode(alloc, digits).expect(rt, "hexadecimal");
        let count = count.parse::<u32>().expect(rt, "a number");
        put_times(rt, &piece, count, &mut bytes);
    }
    bytes
}

/// The request of a client with this id and this op.
pub fn request(rt: &impl Abort, alloc: Global, client: u32, id: u64, op: &[u8]) -> Request {
    assert!(rt; op.len() <= MAX_OP_BYTES);
    let op = Op::new(alloc, op).expect(rt, "memory");
    Request { client, id, op }
}

/// Whether a text is the one that is told, or begins so where that ends in two dots.
pub fn is_expected(shown: &str, expected: &str) -> bool {
    match expected.strip_suffix("..") {
        Some(prefix) => shown.starts_with(prefix),
        None => shown == expected,
    }
}

/// A value as its derive shows it.
pub fn text<T: Debug>(rt: &impl Abort, alloc: Global, value: &T) -> String {
    format!(in alloc; "{value:?}").expect(rt, "memory")
}

pub fn check_text(rt: &impl Abort, given: &str, expected: &str) {
    check(rt, given == expected, given);
}
