//! Requests whole, cut and broken, with the kind of fault, which no reply shows. Cut at each byte they are in checks/gateway.

use nop_types::Bytes;
use resp::{Fault, Parsed, parse};
use std::alloc::Global;
use std::process::Abort;

/// Bytes, and what they begin with: how many they are and the arguments, each after a bar; `more`; or a fault.
static BYTES: [(&[u8], &[u8]); 42] = [
    (b"*1\r\n$4\r\nPING\r\n", b"14|PING"),
    (b"*2\r\n$3\r\nGET\r\n$1\r\nk\r\n", b"20|GET|k"),
    (
        b"*2\r\n$3\r\nGET\r\n$1\r\nk\r\n*1\r\n$4\r\nPING\r\n",
        b"20|GET|k",
    ),
    (b"*2\r\n$3\r\nGET\r\n$1\r\nk\r\nPING", b"20|GET|k"),
    (b"*2\r\n$3\r\nGET\r\n$0\r\n\r\n", b"19|GET|"),
    (b"*1\r\n$6\r\na\r\n$1b\r\n", b"16|a\r\n$1b"),
    (b"*1\r\n$10\r\n0123456789\r\n", b"21|0123456789"),
    (b"*0\r\n", b"4"),
    (b"*0\r\n*", b"4"),
    (b"", b"more"),
    (b"*", b"more"),
    (b"*1", b"more"),
    (b"*0\r", b"more"),
    (b"*32", b"more"),
    (b"*32\r\n", b"more"),
    (b"*1\r\n$", b"more"),
    (b"*1\r\n$32000\r\n", b"more"),
    (b"*1\r\n$4\r\n", b"more"),
    (b"*1\r\n$4\r\nPING", b"more"),
    (b"*1\r\n$4\r\nPING\r", b"more"),
    (b"*2\r\n$4\r\nPING\r\n", b"more"),
    // Other forms of Redis, HTTP, and other types of RESP.
    (b"PING\r\n", b"spelling"),
    (b"GET / HTTP/1.1\r\n", b"spelling"),
    (b"\r\n", b"spelling"),
    (b"+OK\r\n", b"spelling"),
    (b"$4\r\nPING\r\n", b"spelling"),
    (b"*1\r\n+PING\r\n", b"spelling"),
    (b"*1\r\n:1\r\n", b"spelling"),
    (b"*-1\r\n", b"spelling"),
    (b"*1\r\n$-1\r\n", b"spelling"),
    // A request has one spelling.
    (b"*\r\n", b"spelling"),
    (b"*01\r\n", b"spelling"),
    (b"*1\n", b"spelling"),
    (b"*1\r$", b"spelling"),
    (b"* 1\r\n", b"spelling"),
    (b"*1\r\n$04\r\n", b"spelling"),
    (b"*1\r\n$4\r\nPING\n", b"spelling"),
    (b"*1\r\n$4\r\nPINGS", b"spelling"),
    (b"*1\r\n$4\r\nPING\rx", b"spelling"),
    (b"*33", b"too many"),
    (b"*1\r\n$32001", b"too long"),
    (b"*1\r\n$99999999999999999999", b"too long"),
];

fn put(rt: &impl Abort, bytes: &[u8], to: &mut Vec<u8>) {
    to.extend_from_slice(bytes).expect(rt, "memory");
}

fn put_arguments(rt: &impl Abort, arguments: &[Bytes], to: &mut Vec<u8>) {
    for argument in arguments {
        put(rt, b"|", to);
        put(rt, argument.as_slice(), to);
    }
}

fn put_parsed(rt: &impl Abort, parsed: &Parsed, to: &mut Vec<u8>) {
    match parsed {
        Parsed::Complete(request) => {
            let mut buffer = itoa::Buffer::new();
            put(rt, buffer.format(request.len as u64).as_bytes(), to);
            put_arguments(rt, &request.arguments, to);
        }
        Parsed::Incomplete => put(rt, b"more", to),
        Parsed::Broken(Fault::Spelling) => put(rt, b"spelling", to),
        Parsed::Broken(Fault::TooMany) => put(rt, b"too many", to),
        Parsed::Broken(Fault::TooLong) => put(rt, b"too long", to),
    }
}

fn is_parsed(rt: &impl Abort, alloc: Global, bytes: &[u8], expected: &[u8]) -> bool {
    let parsed = parse(alloc, bytes).expect(rt, "memory");
    let mut text = Vec::new(alloc);
    put_parsed(rt, &parsed, &mut text);
    text.as_slice() == expected
}

#[test]
fn requests_are_read(rt: HostRuntime) {
    for (row, (bytes, expected)) in BYTES.iter().enumerate() {
        assert!(rt; is_parsed(&rt, rt.alloc(), bytes, expected), "row {row}");
    }
}
