//! How links send and acknowledge the parts of long messages, over sockets: scenes of a link and the
//! sockets of others.

use crate::checking::{check, is_idle, micros};
use outside::{Link, Ports};
use std::net::{Ipv4Addr, Net, UdpSocket};
use std::process::Abort;
use std::time::{Clock, Duration};
use udp_ports::{UdpPorts, is_part};

// The first port of these tests.
pub const PORTS: u16 = 43300;

/// The ports of the other sockets: the second one is 32 below the first, the third 16.
const OTHERS: [u16; 3] = [PORTS + 43, PORTS + 11, PORTS + 27];

/// A kind, the two bytes of a count, a length, and whether so many bytes with these are a part.
static PARTS: [(u8, u8, u8, usize, bool); 13] = [
    (8, 0, 2, 1417, true),
    (8, 0, 2, 18, true),
    (8, 0, 3, 18, true),
    (8, 0, 255, 18, true),
    (8, 1, 0, 18, true),
    (8, 1, 1, 1417, true),
    (8, 16, 0, 1417, true),
    // no payload, one of one, a request with the longest op, and no bytes
    (8, 0, 2, 17, false),
    (8, 0, 1, 1417, false),
    (8, 0, 1, 18, false),
    (1, 2, 128, 658, false),
    (7, 7, 7, 1417, false),
    (8, 8, 8, 0, false),
];

fn is_told(kind: u8, high: u8, low: u8, len: usize, expected: bool) -> bool {
    let mut bytes = [8u8; 1417];
    bytes[3] = kind;
    bytes[15] = high;
    bytes[16] = low;
    is_part(&bytes[..len.min(1417)]) == expected
}

/// Parts have a payload, and a count that is not one; datagrams of another kind are none.
#[test]
fn parts_are_told_by_kind_and_count(rt: HostRuntime) {
    for (kind, high, low, len, expected) in &PARTS {
        let told = is_told(*kind, *high, *low, *len, *expected);
        check(&rt, told, "a part or none");
    }
}

/// A request for a view change.
static REQUEST: [u8; 31] =
    *b"NO\x03\x08\x02\0\0\0\0\0\0\x01\x01\0\0\0\x01\x14\x14\x14\x14\x14\x14\x14\x14\x14\x14\x14\x14\x14\x14";

/// A part of a message, with this index.
pub fn part(index: u16) -> [u8; 1417] {
    let mut bytes = [8u8; 1417];
    let [high, low] = index.to_be_bytes();
    bytes[13] = high;
    bytes[14] = low;
    bytes
}

/// An acknowledgement of parts of that message, with indexes below 256.
fn ack(window: u8, indexes: [u8; 8]) -> [u8; 27] {
    let mut bytes = [8u8; 27];
    bytes[0] = 0x4e;
    bytes[1] = 0x41;
    bytes[2] = window;
    for i in 0..8usize {
        bytes[11 + 2 * i] = 0;
        bytes[12 + 2 * i] = indexes[i];
    }
    bytes
}

/// A socket of another program, whose receives wait for at most a second.
pub fn new_peer<R: Net + Abort>(rt: &R, port: u16) -> UdpSocket {
    let peer = UdpSocket::bind(rt, (Ipv4Addr::LOCALHOST, port)).expect(rt, "a socket");
    peer.set_read_timeout(Some(Duration::from_secs(1)))
        .expect(rt, "a time-out");
    peer
}

/// Sends a datagram to a port of the loopback address.
fn send(rt: &impl Abort, peer: &UdpSocket, bytes: &[u8], port: u16) {
    peer.send_to(bytes, (Ipv4Addr::LOCALHOST, port))
        .expect(rt, "a send");
}

/// How many datagrams a socket has.
fn drained(peer: &UdpSocket) -> usize {
    let mut bytes = [0u8; 1500];
    let mut count: usize = 0;
    let _refused = peer.set_nonblocking(true);
    for _ in 0..100usize {
        if peer.recv_from(&mut bytes).is_err() {
            break;
        }
        count = count.saturating_add(1);
    }
    let _refused = peer.set_nonblocking(false);
    count
}

/// Sends so many parts of that message to a port.
pub fn send_parts<L: Link>(rt: &impl Abort, link: &mut L, port: u16, count: u16) {
    for i in 0..count {
        link.send(port, &part(i)).expect(rt, "a send");
    }
}

/// Polls a link until a socket has so many datagrams more, five seconds at most. Whether it has no other number, and none sooner than so
/// many microseconds after the start.
fn are_again<L: Link, R: Clock + Abort>(
    rt: &R,
    link: &mut L,
    peer: &UdpSocket,
    start: u128,
    count: usize,
    least: u128,
) -> bool {
    let mut came: usize = 0;
    for _ in 0..100_000usize {
        let _none = link.poll();
        came = came.saturating_add(drained(peer));
        let waited = micros(rt).saturating_sub(start);
        if came > 0 && waited < least {
            return false;
        }
        if came >= count || waited >= 5_000_000 {
            break;
        }
    }
    came == count
}

/// Whether nothing is sent and nothing received for this many microseconds.
fn is_silent<L: Link, R: Clock + Abort>(
    rt: &R,
    link: &mut L,
    peer: &UdpSocket,
    time: u128,
) -> bool {
    let start = micros(rt);
    for _ in 0..100_000usize {
        if !is_idle(rt, link) || drained(peer) != 0 {
            return false;
        }
        if micros(rt).saturating_sub(start) >= time {
            break;
        }
    }
    true
}

/// A socket sends so many parts to a link. Whether polls answer as many datagrams, and then none.
fn are_taken<L: Link>(rt: &impl Abort, link: &mut L, peer: &UdpSocket, count: u16) -> bool {
    for i in 0..count {
        send(rt, peer, &part(i), link.port());
    }
    for _ in 0..count {
        if is_idle(rt, link) {
            return false;
        }
    }
    is_idle(rt, link)
}

/// Whether the next datagram of a socket acknowledges these parts, and comes from this port.
fn is_acknowledged(rt: &impl Abort, peer: &UdpSocket, port: u16, indexes: [u8; 8]) -> bool {
    let mut bytes = [0u8; 32];
    let (count, from) = peer.recv_from(&mut bytes).expect(rt, "a datagram");
    count == 27 && from.port() == port && &bytes[..27] == ack(36, indexes).as_slice()
}

/// What a link or the socket beside it does, or what has to be found there.
enum Step {
    /// The link sends so many parts, or a request for a view change.
    Sends(u16),
    Requests,
    /// So many datagrams are at the socket.
    Has(usize),
    /// So many more come, so many microseconds after the start of the scene and not before.
    Again(usize, u128),
    /// None comes, to either, for so many microseconds.
    Silent(u128),
    /// The socket acknowledges these parts, and takes so many.
    Acks(u8, [u8; 8]),
    /// It sends so many parts, which the link receives.
    Gives(u16),
    /// The link acknowledged these parts.
    Acked([u8; 8]),
}

use Step::{Acked, Acks, Again, Gives, Has, Requests, Sends, Silent};

fn does<L: Link, R: Clock + Abort>(
    rt: &R,
    link: &mut L,
    peer: &UdpSocket,
    to: u16,
    start: u128,
    step: &Step,
) -> bool {
    match step {
        Sends(count) => {
            send_parts(rt, link, to, *count);
            true
        }
        Requests => link.send(to, &REQUEST).is_ok(),
        Has(count) => drained(peer) == *count,
        Again(count, least) => are_again(rt, link, peer, start, *count, *least),
        Silent(time) => is_silent(rt, link, peer, *time),
        Acks(window, indexes) => {
            send(rt, peer, &ack(*window, *indexes), link.port());
            true
        }
        Gives(count) => are_taken(rt, link, peer, *count),
        Acked(indexes) => is_acknowledged(rt, peer, link.port(), *indexes),
    }
}

const SIX: [u8; 8] = [5, 4, 3, 2, 1, 0, 0, 0];

/// Each step with the number of its socket.
static SCENES: [&[(usize, Step)]; 6] = [
    // A port that acknowledges nothing gets six parts at once, and of these the first one again after a tenth of a second.
    &[(0, Sends(8)), (0, Has(6)), (0, Again(1, 90_000))],
    // Of three parts the last one is acknowledged: the others are sent again, and no more when they are acknowledged too.
    &[
        (0, Sends(3)),
        (0, Has(3)),
        (0, Acks(36, [2; 8])),
        (0, Again(2, 90_000)),
        (0, Acks(36, [1, 0, 0, 0, 0, 0, 0, 0])),
        (0, Silent(700_000)),
    ],
    // A request for a view change is sent again after half a second.
    &[(0, Requests), (0, Has(1)), (0, Again(1, 490_000))],
    // A port that acknowledges nothing holds up no other, also none that is 16 or 32 below it.
    &[
        (0, Sends(8)),
        (0, Has(6)),
        (1, Sends(6)),
        (1, Has(6)),
        (2, Sends(6)),
        (2, Has(6)),
    ],
    // A link acknowledges each fourth part with those before it, and those that are left when nothing comes any more.
    &[
        (0, Gives(9)),
        (0, Acked([3, 2, 1, 0, 0, 0, 0, 0])),
        (0, Acked([7, 6, 5, 4, 3, 2, 1, 0])),
        (0, Acked([8, 7, 6, 5, 4, 3, 2, 1])),
    ],
    // What a port acknowledges makes room for as much as it says, and for no other port; in a turn six go to each at most.
    &[
        (0, Sends(20)),
        (1, Sends(20)),
        (0, Has(6)),
        (0, Acks(3, SIX)),
        (1, Has(6)),
        (1, Acks(36, SIX)),
        (0, Gives(0)),
        (0, Gives(0)),
        (0, Has(3)),
        (1, Has(6)),
    ],
];

fn check_scene<L: Link, R: Net + Clock + Abort>(rt: &R, link: &mut L, scene: &[(usize, Step)]) {
    let [first, second, third] = OTHERS;
    let peers = [
        new_peer(rt, first),
        new_peer(rt, second),
        new_peer(rt, third),
    ];
    let start = micros(rt);
    for (number, (socket, step)) in scene.iter().enumerate() {
        let at = (*socket).min(2);
        let done = does(rt, link, &peers[at], OTHERS[at], start, step);
        assert!(rt; done, "step {number}");
    }
    check(rt, link.losses() == 0, "nothing is lost");
}

/// A link at this port does as a scene says, and is given back.
fn play<P: Ports, R: Net + Clock + Abort>(
    rt: &R,
    ports: &mut P,
    port: u16,
    scene: &[(usize, Step)],
) {
    let mut link = ports.attach(port).expect(rt, "a link");
    check_scene(rt, &mut link, scene);
    ports.detach(link);
}

/// How links send parts and acknowledge them.
#[test]
fn parts_over_sockets(rt: HostRuntime) {
    let mut ports = UdpPorts::new(&rt, rt.alloc());
    let mut port = PORTS;
    for scene in &SCENES {
        play(&rt, &mut ports, port, scene);
        port = port.saturating_add(1);
    }
}

/// A link that is given back sends what still waits: of twenty parts six are sent at once, and the others then.
pub fn check_given_back<P: Ports, R: Net + Abort>(rt: &R, ports: &mut P) {
    let peer = new_peer(rt, PORTS + 6);
    let mut link = ports.attach(PORTS + 7).expect(rt, "a link");
    send_parts(rt, &mut link, PORTS + 6, 20);
    check(rt, link.losses() == 0, "nothing is lost");
    ports.detach(link);
    let mut bytes = [0u8; 1500];
    for i in 0..20u16 {
        let (count, _from) = peer.recv_from(&mut bytes).expect(rt, "a part");
        let is_next = &bytes[..count.min(1500)] == part(i).as_slice();
        check(rt, is_next, "the next part");
    }
    check(rt, drained(&peer) == 0, "the last part");
}
