//! What a receiver hands up of the packets that it is offered.
ghost use Rattle.nop_types.specs.Ranges.{StampedFits};

use crate::checking::{check, check_row};
use crate::requests::request;
use nop_types::{MAX_QUEUED, NUMBER_END, Stamped};
use oum_receiver::{Receiver, Upcall, Verdict};
use std::alloc::Global;
use std::process::Abort;

/// A packet whose request has the message number as its id.
fn packet(rt: &impl Abort, alloc: Global, session: u64, number: u64) -> Stamped
    ensures { StampedFits result }
{
    assert!(rt; session > 0 && number > 0 && number < NUMBER_END);
    Stamped {
        session,
        number,
        request: request(rt, alloc, 7, number, b"op"),
    }
}

/// A packet with an odd number is given away.
fn offer(
    rt: &impl Abort,
    alloc: Global,
    receiver: &mut Receiver,
    session: u64,
    number: u64,
) -> Verdict {
    let packet = packet(rt, alloc, session, number);
    if number % 2 == 0 {
        receiver.offer(&packet).expect(rt, "memory")
    } else {
        receiver.offer_owned(packet).expect(rt, "memory")
    }
}

/// A call of a receiver, with its arguments. A packet is offered by its session and its number,
/// with the verdict on it.
enum Call {
    Offer(u64, u64, Verdict),
    Message,
    Front,
    Advance(u64),
    Reset(u64, u64),
}

/// Carries out a call, and tells whether a packet has the verdict that is told.
fn carry_out(rt: &impl Abort, alloc: Global, receiver: &mut Receiver, call: &Call) -> bool {
    match call {
        Call::Offer(session, number, expected) => {
            return offer(rt, alloc, receiver, *session, *number) == *expected;
        }
        Call::Message => drop(receiver.take_message()),
        Call::Front => {
            check(rt, receiver.front().is_some(), "something in front");
            receiver.take_front();
        }
        Call::Advance(next) => {
            check(rt, *next <= NUMBER_END, "a number");
            receiver.advance(*next);
        }
        Call::Reset(session, next) => {
            check(rt, *next <= NUMBER_END, "a number");
            receiver.reset(*session, *next);
        }
    }
    true
}

/// The id of the request in front, 0 at a drop.
fn front(receiver: &Receiver) -> Option<u64> {
    match receiver.front()? {
        Upcall::Drop => Some(0),
        Upcall::Message(request) => Some(request.id),
    }
}

/// The last message number of a session.
const LAST: u64 = 281_474_976_710_655;

/// The session of the second epoch whose count is 2.
const SECOND: u64 = 4_294_967_298;

/// A call, and the session, the next number and the front then.
type Row = (Call, u64, u64, Option<u64>);

/// Calls and what they lead to: in order, out of order with a packet that comes twice, other
/// sessions, a drop, down and up past some of what is queued, another session, the last number.
static CALLS: [Row; 32] = [
    (Call::Message, 2, 1, None),
    (Call::Offer(2, 1, Verdict::Queued), 2, 1, Some(1)),
    (Call::Front, 2, 2, None),
    (Call::Offer(2, 4, Verdict::Queued), 2, 2, Some(0)),
    (Call::Offer(2, 3, Verdict::Queued), 2, 2, Some(0)),
    (Call::Offer(2, 4, Verdict::Old), 2, 2, Some(0)),
    (Call::Message, 2, 2, Some(0)),
    (Call::Offer(2, 2, Verdict::Queued), 2, 2, Some(2)),
    (Call::Message, 2, 3, Some(3)),
    (Call::Offer(2, 2, Verdict::Old), 2, 3, Some(3)),
    (Call::Message, 2, 4, Some(4)),
    (Call::Offer(1, 9, Verdict::Old), 2, 4, Some(4)),
    (
        Call::Offer(SECOND, 1, Verdict::Terminated(SECOND)),
        2,
        4,
        Some(4),
    ),
    (Call::Offer(2, 6, Verdict::Queued), 2, 4, Some(4)),
    (Call::Front, 2, 5, Some(0)),
    (Call::Front, 2, 6, Some(6)),
    (Call::Offer(2, 5, Verdict::Old), 2, 6, Some(6)),
    (Call::Advance(5), 2, 5, Some(0)),
    (Call::Offer(2, 5, Verdict::Queued), 2, 5, Some(5)),
    (Call::Offer(2, 8, Verdict::Queued), 2, 5, Some(5)),
    (Call::Advance(7), 2, 7, Some(0)),
    (Call::Offer(2, 6, Verdict::Old), 2, 7, Some(0)),
    (Call::Advance(6), 2, 6, Some(0)),
    (Call::Offer(2, 6, Verdict::Queued), 2, 6, Some(6)),
    (Call::Advance(9), 2, 9, None),
    (Call::Offer(2, 9, Verdict::Queued), 2, 9, Some(9)),
    (Call::Reset(SECOND, 9), SECOND, 9, None),
    (Call::Offer(2, 9, Verdict::Old), SECOND, 9, None),
    (Call::Offer(SECOND, 9, Verdict::Queued), SECOND, 9, Some(9)),
    (Call::Advance(LAST), SECOND, LAST, None),
    (
        Call::Offer(SECOND, LAST, Verdict::Queued),
        SECOND,
        LAST,
        Some(LAST),
    ),
    (Call::Front, SECOND, LAST + 1, None),
];

/// A call, and whether the receiver then has the session, the next number and the front that the
/// row says.
fn does(rt: &impl Abort, alloc: Global, receiver: &mut Receiver, row: &Row) -> bool {
    let (call, session, next, expected) = row;
    carry_out(rt, alloc, receiver, call)
        && receiver.session() == *session
        && receiver.next() == *next
        && front(receiver) == *expected
}

#[test]
fn calls(rt: HostRuntime) {
    let mut receiver = Receiver::new(rt.alloc(), 2, 1).expect(&rt, "memory");
    for (number, row) in CALLS.iter().enumerate() {
        check_row(&rt, does(&rt, rt.alloc(), &mut receiver, row), number);
    }
}

/// The queue is filled behind the packet 1, which is missing.
#[test]
fn a_full_queue(rt: HostRuntime) {
    let mut receiver = Receiver::new(rt.alloc(), 1, 1).expect(&rt, "memory");
    for i in 0..MAX_QUEUED as u64 {
        let verdict = offer(&rt, rt.alloc(), &mut receiver, 1, i + 2);
        check(&rt, verdict == Verdict::Queued, "queued");
    }
    let verdict = offer(&rt, rt.alloc(), &mut receiver, 1, 1);
    check(&rt, verdict == Verdict::Full, "one too many");
    let verdict = offer(&rt, rt.alloc(), &mut receiver, 1, 2);
    check(&rt, verdict == Verdict::Old, "one that is queued");
}
