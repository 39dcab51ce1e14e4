//! Lines of schedules that come in pieces, and the longest lines of transcripts. What else lines
//! are is in examples/vectors.txt and in the transcripts of examples/, which programs try.
use crate::rows::{check, check_text, request};
use nop_types::Dest::One;
use nop_types::{Actor, Bytes, Key, Phase, View};
use outside::ReadMem;
use schedule_text::{Event, NextError, Reader};
use std::alloc::Global;
use std::process::Abort;
use transcript_text::{
    answer_line, dead_line, error_line, observer_line, read_line, replica_line, send_line,
    submit_line,
};

const FIRST: &[u8] = b"nopaxos 1 replicas 3 sequencers 2 clients 2\n";

fn event_letter(event: &Event) -> u8 {
    match event {
        Event::Submit(..) => b's',
        Event::Deliver(..) => b'd',
        Event::Tick(..) => b't',
        Event::Install(..) => b'i',
        Event::Crash(_) => b'c',
        Event::Junk(..) => b'j',
        Event::Read(..) => b'r',
    }
}

fn letter(answer: &Result<Option<Event>, NextError>) -> u8 {
    match answer {
        Ok(Some(event)) => event_letter(event),
        Ok(None) => b'.',
        Err(NextError::BadLine { rule, .. }) => b'0'.wrapping_add(*rule),
        Err(NextError::ReadFault) => b'f',
        Err(NextError::NoMemory) => b'm',
    }
}

/// Lines, and a letter for each of four answers, for a rule its digit. A line that is refused is
/// refused again.
static READ: [(&[u8], &[u8]); 3] = [
    (b"submit c0 50\ndeliver 0 s0\ncrash r1", b"sdc."),
    (b"crash ctl\nsubmit c1 -\ncrash c2\n", b"cs77"),
    (b"install s1 ctl\njunk r0 4e4f\ntick r0 sync\nx", b"ijt3"),
];

/// Reads the first line of a schedule and these lines, at most so many bytes at a time.
fn check_read(rt: &impl Abort, alloc: Global, row: &(&[u8], &[u8]), most: usize) {
    let mut text = Vec::from_slice(alloc, FIRST).expect(rt, "memory");
    text.extend_from_slice(row.0).expect(rt, "memory");
    let mut source = ReadMem::with_limit(text, most.max(1));
    let mut reader = Reader::new(alloc);
    for expected in row.1 {
        let given = letter(&reader.next(&mut source));
        check(rt, given == *expected, "a line");
    }
}

#[test]
fn lines_that_come_in_pieces(rt: HostRuntime) {
    for row in &READ {
        check_read(&rt, rt.alloc(), row, 1);
        check_read(&rt, rt.alloc(), row, 7);
        check_read(&rt, rt.alloc(), row, 4096);
    }
}

const LINES: &str = "\
submit c4294967295 18446744073709551615 -
read c4294967295 18446744073709551615 o3 6b00ff
answer c1 2 o0 4294967295 6e6f6e65
send 18446744073709551615 r1 r2 fragment 18
replica r6 crashed change 4294967295 18446744073709551615 4096 7
observer o3 crashed 4294967295
dead ctl
dead ctl3
dead c15
dead o2
send 6 s0 ctl3 pong 10
error line 1000001 rule 10
error line 5 rule 8 index 7 sent 2
";

/// The lines of a request, of a read and of its answer.
fn put_asked(rt: &impl Abort, alloc: Global, to: &mut Vec<u8>) {
    let empty = request(rt, alloc, u32::MAX, u64::MAX, b"");
    submit_line(&empty, to).expect(rt, "memory");
    let key = Key::new(alloc, b"k\0\xff").expect(rt, "memory");
    read_line(u32::MAX, u64::MAX, 3, &key, to).expect(rt, "memory");
    let none = Bytes::new(alloc, b"none").expect(rt, "memory");
    answer_line(1, 2, 0, u32::MAX, &none, to).expect(rt, "memory");
}

/// The lines of actors that are dead, and of a datagram between two that no example has.
fn put_others(rt: &impl Abort, to: &mut Vec<u8>) {
    dead_line(Actor::Controller(0), to).expect(rt, "memory");
    dead_line(Actor::Controller(3), to).expect(rt, "memory");
    dead_line(Actor::Client(15), to).expect(rt, "memory");
    dead_line(Actor::Observer(2), to).expect(rt, "memory");
    let pong = b"NO\x03\x07\x03\0\0\0\0\x01";
    let dest = One(Actor::Controller(3));
    send_line(6, Actor::Sequencer(0), dest, pong, to).expect(rt, "memory");
}

const FRAGMENT: &[u8] = b"NO\x03\x08\x01\0\0\0\0\0\0\0\x01\0\0\0\x01\0";

const VIEW: View = View {
    leader: u32::MAX,
    session: u64::MAX,
};

#[test]
fn lines_with_the_greatest_numbers(rt: HostRuntime) {
    let mut to = Vec::new(rt.alloc());
    put_asked(&rt, rt.alloc(), &mut to);
    let (from, dest) = (Actor::Replica(1), One(Actor::Replica(2)));
    send_line(u64::MAX, from, dest, FRAGMENT, &mut to).expect(&rt, "memory");
    replica_line(6, true, Phase::Change, VIEW, 4096, 7, &mut to).expect(&rt, "memory");
    observer_line(3, true, u32::MAX, &mut to).expect(&rt, "memory");
    put_others(&rt, &mut to);
    error_line(1_000_001, 10, None, &mut to).expect(&rt, "memory");
    error_line(5, 8, Some((7, 2)), &mut to).expect(&rt, "memory");
    check_text(&rt, std::str::from_utf8(&to).expect(&rt, "text"), LINES);
}
