//! Which parts of long messages go when, and which again: calls that take times, without a socket.

use crate::checking::check;
use resending::{Ack, Answer, Flow, Name, Receipts, Repeats, RoundTrip, is_request, lane_of};
use std::process::Abort;

/// A part of a message of this kind, in the view of this leader number.
fn part(message: u8, index: u8, kind: u8, leader: u8) -> [u8; 40] {
    let mut bytes = [0u8; 40];
    bytes[12] = message;
    bytes[14] = index;
    bytes[17] = kind;
    bytes[22] = leader;
    bytes
}

const ACK: Ack = Ack {
    window: 36,
    message: 258,
    indexes: [8, 7, 6, 5, 4, 3, 2, 4095],
};

const SPELLED: [u8; 27] =
    *b"NA\x24\0\0\0\0\0\0\x01\x02\0\x08\0\x07\0\x06\0\x05\0\x04\0\x03\0\x02\x0f\xff";

/// An acknowledgement is spelled and read back; other datagrams are none.
#[test]
fn acknowledgements_are_told_apart(rt: HostRuntime) {
    check(&rt, ACK.to_bytes() == SPELLED, "its spelling");
    check(&rt, Ack::read(&SPELLED) == Some(ACK), "it is read back");
    for (place, byte) in [(0, 0x4f), (1, 0x4f), (1, 0x48), (2, 0)] {
        let mut other = SPELLED;
        other[place] = byte;
        check(&rt, Ack::read(&other).is_none(), "another datagram");
    }
    check(
        &rt,
        Ack::read(&SPELLED[..26]).is_none(),
        "a byte is missing",
    );
    check(&rt, Ack::read(b"").is_none(), "no bytes");
}

/// What happens to a flow, with what has to come of it.
enum Turn {
    /// It takes so many parts of the first message.
    Takes(u8),
    /// Whether it takes the part of a message with this index, of this kind, in the view of this leader number.
    Admits(u8, u8, u8, u8, bool),
    /// So many of the parts that wait go now.
    Goes(usize),
    /// So many of those in flight go again in a turn at this time.
    Again(u64, usize),
    /// Parts of the first message came to a port that takes so many, at this time.
    Acks(u8, [u16; 8], u64),
    /// The time is set, or a turn begins.
    At(u64),
    Begins(u64),
    /// So many parts are in flight, and so many wait.
    Holds(usize, usize),
    /// Whether more may go at once.
    Presses(bool),
}

use Turn::{Acks, Admits, Again, At, Begins, Goes, Holds, Presses, Takes};

/// Whether a flow takes so many parts of the first message.
fn takes(rt: &impl Abort, flow: &mut Flow, count: u8) -> bool {
    for i in 0..count {
        if !flow.admit(1, &part(1, i, 21, 0)).expect(rt, "memory") {
            return false;
        }
    }
    true
}

/// How many of the parts that wait go now.
fn advanced(flow: &mut Flow) -> usize {
    let mut count: usize = 0;
    for _ in 0..100usize {
        if flow.advance() {
            count = count.saturating_add(1);
        }
    }
    count
}

/// How many of those in flight go again in a turn at this time.
fn resent(flow: &mut Flow, now: u64) -> usize {
    flow.begin_turn(now);
    let mut count: usize = 0;
    for i in 0..flow.flight().len() {
        if flow.resend(i) {
            count = count.saturating_add(1);
        }
    }
    count
}

/// Parts of the first message came to a port that takes so many.
fn acknowledge(flow: &mut Flow, window: u8, indexes: [u16; 8], now: u64) {
    flow.set_time(now);
    let ack = Ack {
        window,
        message: 1,
        indexes,
    };
    flow.acknowledge(1, &ack);
}

/// Whether a turn goes so.
fn goes(rt: &impl Abort, flow: &mut Flow, turn: &Turn) -> bool {
    match turn {
        Takes(count) => takes(rt, flow, *count),
        Admits(message, index, kind, leader, expected) => {
            let part = part(*message, *index, *kind, *leader);
            flow.admit(1, &part).expect(rt, "memory") == *expected
        }
        Goes(count) => advanced(flow) == *count,
        Again(now, count) => resent(flow, *now) == *count,
        Acks(window, indexes, now) => {
            acknowledge(flow, *window, *indexes, *now);
            true
        }
        At(now) => {
            flow.set_time(*now);
            true
        }
        Begins(now) => {
            flow.begin_turn(*now);
            true
        }
        Holds(in_flight, waiting) => {
            flow.flight().len() == *in_flight
                && flow.waiting().len() == *waiting
                && flow.is_at_rest() == (*in_flight == 0 && *waiting == 0)
        }
        Presses(expected) => flow.is_pressing() == *expected,
    }
}

static TURNS: [&[Turn]; 4] = [
    // Six parts go until the port says how many it takes. Past those it has on its way what goes at its pace: 16 in a millisecond of the
    // round trip, here 6 in 400 microseconds.
    &[
        Takes(50),
        Goes(6),
        Again(300, 0),
        Goes(0),
        Acks(36, [5, 4, 3, 2, 1, 0, 0, 0], 400),
        Holds(0, 44),
        Presses(true),
        Goes(36),
        Presses(true),
        Again(1400, 0),
        Goes(6),
        Holds(42, 2),
        Presses(false),
    ],
    // Of what is not acknowledged in time the first part goes again, and with the others what was sent before one that was acknowledged;
    // then after twice the time. What is acknowledged does not go again.
    &[
        Takes(3),
        Goes(3),
        Again(99_999, 0),
        Again(100_000, 1),
        Again(299_999, 0),
        Acks(36, [0; 8], 299_999),
        Again(300_000, 2),
        Holds(2, 0),
        Again(499_999, 0),
        // of the two that are left the last one is acknowledged
        Acks(36, [2; 8], 499_999),
        Again(500_000, 1),
        Again(819_999, 0),
        Again(820_000, 1),
        Acks(36, [1; 8], 820_000),
        Holds(0, 0),
        Again(10_000_000, 0),
    ],
    // What is on its way to a port that acknowledges nothing for a second is given up.
    &[
        At(5),
        Takes(20),
        Goes(6),
        Begins(1_000_004),
        Holds(6, 14),
        Begins(1_000_005),
        Holds(0, 0),
    ],
    // While a message is on its way, one of its kind and view is refused, also its later parts; one of another kind waits behind it; one
    // of another view takes its place.
    &[
        Takes(8),
        Goes(6),
        Admits(2, 0, 21, 0, false),
        Admits(2, 1, 0, 9, false),
        Admits(3, 0, 22, 0, true),
        Holds(6, 3),
        Admits(4, 0, 21, 1, true),
        Holds(0, 1),
        Admits(4, 1, 0, 0, true),
        Goes(2),
    ],
];

fn check_turns(rt: &impl Abort, flow: &mut Flow, turns: &[Turn]) {
    for (number, turn) in turns.iter().enumerate() {
        assert!(rt; goes(rt, flow, turn), "turn {number}");
    }
}

#[test]
fn parts_go_in_their_turns(rt: HostRuntime) {
    for turns in &TURNS {
        let mut flow = Flow::new(rt.alloc());
        check_turns(&rt, &mut flow, turns);
    }
}

/// A part of the message with this number came from a port: what is answered.
fn recorded(receipts: &mut Receipts, port: u16, message: u64, index: u16) -> Option<Answer> {
    receipts.record(port, Name { message, index })
}

/// The parts up to this one, which is named first.
fn named(last: u16) -> [u16; 8] {
    let mut indexes = [0u16; 8];
    for back in 0..8u16 {
        indexes[usize::from(back)] = last.saturating_sub(back);
    }
    indexes
}

/// The answer acknowledges these parts of the message.
fn check_ack(rt: &impl Abort, answer: &Answer, message: u64, indexes: [u16; 8]) {
    check(rt, answer.ack.message == message, "the message");
    check(rt, answer.ack.indexes == indexes, "the parts of it");
}

/// Each fourth part of a message is answered, and this is one.
fn check_recorded(rt: &impl Abort, receipts: &mut Receipts, port: u16, index: u16) {
    let answer = recorded(receipts, port, 7, index);
    check(rt, answer.is_some() == (index % 4 == 3), "each fourth");
    if let Some(answer) = answer {
        check(rt, answer.port == port, "the port");
        check_ack(rt, &answer, 7, named(index));
        let is_shared = answer.ack.window == 12 || index == 3;
        check(rt, is_shared, "a third of what may be in flight");
    }
}

/// A part of another message came from a port that is owed an acknowledgement.
fn check_another_message(rt: &impl Abort, receipts: &mut Receipts, port: u16) {
    let lane = lane_of(port);
    check(rt, receipts.take(lane).is_none(), "nothing is owed");
    check(rt, recorded(receipts, port, 7, 12).is_none(), "one is owed");
    let other = recorded(receipts, port, 8, 1).expect(rt, "an answer");
    check_ack(rt, &other, 7, named(12));
    let rest = receipts.take(lane).expect(rt, "an answer");
    check_ack(rt, &rest, 8, [1; 8]);
    check(rt, receipts.take(lane).is_none(), "nothing is owed");
}

/// Each fourth part of a port is acknowledged, with those before it. Ports of which a part is among the last 72 share what may be in
/// flight; what is owed for one message is acknowledged before another.
#[test]
fn parts_are_acknowledged_by_name(rt: HostRuntime) {
    let mut receipts = Receipts::new();
    for i in 0..12u16 {
        for port in [41000, 41001, 41002u16] {
            check_recorded(&rt, &mut receipts, port, i);
        }
    }
    check_another_message(&rt, &mut receipts, 41002);
}

/// A part goes again after this time, and so many are on the way at this pace.
fn check_times(rt: &impl Abort, trip: RoundTrip, timeout: u64, pace: usize, on_the_way: usize) {
    check(rt, trip.timeout() == timeout, "the time-out");
    check(rt, trip.on_the_way(pace) == on_the_way, "on the way");
}

/// The time until a part goes again: 100 ms at first, then the smoothed round trip and four deviations, between 10 and 320 ms.
#[test]
fn times_follow_the_round_trip(rt: HostRuntime) {
    let none = RoundTrip::new();
    check_times(&rt, none, 100_000, 16, 0);
    let one = none.measured(40_000);
    check_times(&rt, one, 120_000, 16, 640);
    let two = one.measured(48_000);
    check_times(&rt, two, 41_000 + 4 * 17_000, 2, 80);
    let least = none.measured(100);
    check(&rt, least.timeout() == 10_000, "the least");
    let greatest = none.measured(9_000_000);
    check(&rt, greatest.timeout() == 320_000, "the greatest");
}

/// A request for a view change, to the view of this leader number.
fn request(leader: u8) -> [u8; 40] {
    let mut bytes = part(1, 0, 20, leader);
    bytes[3] = 8;
    bytes[16] = 1;
    bytes
}

/// A request for a view change is a fragment, whole. The last one is repeated each half second, to the ports that it went to, six at most.
#[test]
fn requests_are_repeated(rt: HostRuntime) {
    check(&rt, is_request(&request(3)), "a request");
    check(&rt, !is_request(&part(1, 0, 20, 3)), "no fragment");
    check(&rt, !is_request(b""), "no bytes");
    let mut repeats = Repeats::new(rt.alloc());
    check(&rt, !repeats.is_due(1_000_000), "no request");
    for port in [1, 2, 1, 3, 4, 5, 6, 7u16] {
        check(&rt, repeats.note(port, &request(3), 5).is_ok(), "memory");
    }
    check(&rt, repeats.ports() == [1, 2, 3, 4, 5, 6].as_slice(), "six");
    for (now, is_due) in [(500_004, false), (500_005, true), (1_000_004, false)] {
        check(&rt, repeats.is_due(now) == is_due, "half a second");
    }
    check(&rt, repeats.note(9, &request(4), 6).is_ok(), "memory");
    check(&rt, repeats.ports() == [9].as_slice(), "the last request's");
    let is_last = repeats.request() == request(4).as_slice();
    check(&rt, is_last, "the last request");
}
