//! What scripts share: bytes that are written as rows, and values as texts.
use nop_types::Entry;
use std::alloc::Global;
use std::fmt::Debug;
use std::process::Abort;

/// The bytes of words of two digits for each byte, with a space between two words, where `ff*640` has
/// its bytes 640 times.
pub fn bytes_of(rt: &impl Abort, alloc: Global, row: &str) -> Vec<u8> {
    let mut bytes = Vec::new(alloc);
    for word in row.split(' ') {
        let (digits, count) = word.split_once('*').unwrap_or((word, "1"));
        let piece = hex::decode(alloc, digits).expect(rt, "hexadecimal");
        for _ in 0..count.parse::<u32>().expect(rt, "a number") {
            bytes.extend_from_slice(&piece).expect(rt, "memory");
        }
    }
    bytes
}

/// Adds a text and a line end.
pub fn put_line(rt: &impl Abort, text: &str, to: &mut String) {
    to.push_str(text).expect(rt, "memory");
    to.push('\n').expect(rt, "memory");
}

pub fn check_text(rt: &impl Abort, given: &str, expected: &str) {
    assert!(rt; given == expected, "{given}");
}

/// A value as its derive shows it.
pub fn check_shown<T: Debug>(rt: &impl Abort, alloc: Global, value: &T, expected: &str) {
    let given = format!(in alloc; "{value:?}").expect(rt, "memory");
    check_text(rt, &given, expected);
}

fn put_text(rt: &impl Abort, text: &str, to: &mut String) {
    to.push_str(text).expect(rt, "memory");
}

/// Adds client and id of a slot's request, 0 and 0 for a NO-OP.
fn put_entry(rt: &impl Abort, alloc: Global, entry: &Entry, to: &mut String) {
    let (client, id) = match entry {
        Entry::NoOp => (0, 0),
        Entry::Req(request) => (request.client, request.id),
    };
    let text = format!(in alloc; " ({client}, {id})").expect(rt, "memory");
    put_text(rt, &text, to);
}

/// Adds the entries, or how many they are where they are many.
pub fn put_entries(rt: &impl Abort, alloc: Global, entries: &[Entry], to: &mut String) {
    let count = entries.len();
    if count > 8 {
        let text = format!(in alloc; " {count} entries").expect(rt, "memory");
        return put_text(rt, &text, to);
    }
    for entry in entries {
        put_entry(rt, alloc, entry, to);
    }
}
