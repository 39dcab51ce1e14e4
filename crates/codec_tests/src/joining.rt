//! Messages that are cut into fragments, and fragments that are joined.
use crate::rows::{check, put};
use fragments::{CutError, Reassembly, cut};
use nop_types::{Bytes, Datagram, Dest, Fragment, Out, Outbox};
use oum_codec::decode;
use std::alloc::Global;
use std::process::Abort;

/// A fragment by its sender, its message, its index, its count and how many bytes it has; then how
/// many bytes it completes, 0 for no message.
type Arrival = (u8, u64, u16, u16, u32, usize);

/// Two messages of one sender and one of another, of which a fragment comes again. Then fragments
/// that change nothing: an index that is there, other counts, a count of 0, an index at the count,
/// a count above the limit, payloads that are empty, short and long. At the end four unfinished
/// messages, where a whole one drops none and a fifth drops the first.
static ARRIVALS: [Arrival; 25] = [
    (0, 7, 0, 2, 1400, 0),
    (0, 8, 1, 2, 10, 0),
    (1, 7, 1, 2, 20, 0),
    (1, 7, 0, 2, 1400, 1420),
    (1, 7, 0, 2, 1400, 0),
    (0, 8, 0, 2, 1400, 1410),
    (0, 7, 0, 2, 1400, 0),
    (0, 7, 1, 3, 1400, 0),
    (0, 7, 0, 1, 5, 0),
    (0, 7, 0, 0, 5, 0),
    (0, 7, 2, 2, 5, 0),
    (0, 9, 0, 4097, 1400, 0),
    (0, 7, 1, 2, 0, 0),
    (0, 9, 0, 2, 1399, 0),
    (0, 7, 1, 2, 1401, 0),
    (0, 7, 1, 2, 1, 1401),
    (0, 1, 0, 2, 1400, 0),
    (0, 2, 0, 2, 1400, 0),
    (0, 3, 0, 2, 1400, 0),
    (0, 4, 0, 2, 1400, 0),
    (0, 9, 0, 1, 3, 3),
    (0, 5, 0, 2, 1400, 0),
    (0, 2, 1, 2, 2, 1402),
    (0, 1, 1, 2, 2, 0),
    (0, 1, 0, 2, 1400, 1402),
];

/// So many bytes, of which the pieces of 1,400 differ.
fn filled(rt: &impl Abort, alloc: Global, len: u32) -> Vec<u8> {
    let mut bytes = Vec::new(alloc);
    for i in 0..len {
        let byte = (i % 251) as u8 ^ (i / 1400 % 256) as u8;
        bytes.push(byte).expect(rt, "memory");
    }
    bytes
}

/// The bytes that a fragment completes.
fn taken(rt: &impl Abort, kept: &mut Reassembly, fragment: &Fragment) -> Option<Bytes> {
    assert!(rt; (fragment.replica as usize) < kept.senders());
    kept.take(fragment).expect(rt, "memory")
}

/// The fragment that was sent to all replicas.
fn fragment_of(rt: &impl Abort, alloc: Global, out: &Out) -> Fragment {
    let Out::Send(Dest::Replicas, bytes) = out else {
        panic!(rt; "no send to all replicas");
    };
    match decode(alloc, bytes.as_slice()) {
        Ok(Datagram::Fragment(fragment)) => fragment,
        _ => panic!(rt; "no fragment"),
    }
}

/// How long a datagram that was sent is.
fn length_of(out: Option<&Out>) -> usize {
    match out {
        Some(Out::Send(_, bytes)) => bytes.as_slice().len(),
        _ => 0,
    }
}

/// Takes the fragments that were sent from the last to the first, and says whether they complete
/// the message.
fn is_joined(rt: &impl Abort, alloc: Global, sent: &[Out], message: &[u8]) -> bool {
    let mut kept = Reassembly::new(alloc, 3).expect(rt, "memory");
    let mut whole = Vec::new(alloc);
    for out in sent.iter().rev() {
        let fragment = fragment_of(rt, alloc, out);
        if let Some(bytes) = taken(rt, &mut kept, &fragment) {
            put(rt, bytes.as_slice(), &mut whole);
        }
    }
    whole.as_slice() == message
}

/// A message is cut into so many fragments, the last of a datagram of that length, and joined
/// again.
pub fn check_cut(rt: &impl Abort, alloc: Global, message: &[u8], count: usize, length: usize) {
    let mut out = Outbox::new(alloc);
    cut(alloc, 2, 5, message, &mut out, Dest::Replicas).expect(rt, "cut");
    let sent = out.as_slice();
    check(rt, sent.len() == count, "how many");
    check(rt, length_of(sent.last()) == length, "the last");
    check(rt, is_joined(rt, alloc, sent, message), "joined");
}

/// Whether a message of so many bytes is not cut.
fn is_refused(rt: &impl Abort, alloc: Global, len: u32) -> bool {
    let message = filled(rt, alloc, len);
    let mut out = Outbox::new(alloc);
    cut(alloc, 2, 5, &message, &mut out, Dest::Replicas) == Err(CutError::Size)
}

/// How many bytes a message has, how many fragments, and how many bytes the datagram of the last
/// one.
static LENGTHS: [(u32, usize, usize); 4] = [
    (1, 1, 18),
    (1400, 1, 1417),
    (1401, 2, 18),
    (5_734_400, 4096, 1417),
];

#[test]
fn messages_are_cut_and_joined(rt: HostRuntime) {
    for (len, count, length) in &LENGTHS {
        let message = filled(&rt, rt.alloc(), *len);
        check_cut(&rt, rt.alloc(), &message, *count, *length);
    }
    check(&rt, is_refused(&rt, rt.alloc(), 0), "no byte");
    check(&rt, is_refused(&rt, rt.alloc(), 5_734_401), "too many");
}

/// Takes fragments in order, and compares how many bytes each of them completes.
fn arrive(rt: &impl Abort, alloc: Global, kept: &mut Reassembly, arrivals: &[Arrival]) {
    for (row, arrival) in arrivals.iter().enumerate() {
        let (replica, message, index, count, len, expected) = *arrival;
        let fragment = Fragment {
            replica,
            message,
            index,
            count,
            payload: Bytes::from_vec(filled(rt, alloc, len)),
        };
        let given = match taken(rt, kept, &fragment) {
            Some(bytes) => bytes.as_slice().len(),
            None => 0,
        };
        assert!(rt; given == expected, "fragment {row}");
    }
}

/// Five messages that begin, of which the first is dropped, and that one once more, which drops the
/// second.
static DROPPED: [Arrival; 7] = [
    (1, 1, 0, 2, 1400, 0),
    (1, 2, 0, 2, 1400, 0),
    (1, 3, 0, 2, 1400, 0),
    (1, 4, 0, 2, 1400, 0),
    (1, 5, 0, 2, 1400, 0),
    (1, 1, 1, 2, 1, 0),
    (1, 1, 0, 2, 1400, 1401),
];

#[test]
fn fragments_that_arrive(rt: HostRuntime) {
    let mut kept = Reassembly::new(rt.alloc(), 3).expect(&rt, "memory");
    arrive(&rt, rt.alloc(), &mut kept, &ARRIVALS);
    let mut kept = Reassembly::new(rt.alloc(), 3).expect(&rt, "memory");
    arrive(&rt, rt.alloc(), &mut kept, &DROPPED);
    check(&rt, kept.held(1) == 4200, "of sender 1");
    check(&rt, kept.held(0) == 0, "of sender 0");
    check(&rt, kept.held(3) == 0, "of none");
}
