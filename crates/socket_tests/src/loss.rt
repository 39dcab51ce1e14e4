//! A message from a link to another, through a socket that loses each tenth datagram.

use crate::checking::{check, is_idle, micros};
use crate::links::{PORTS, check_given_back, new_peer, part, send_parts};
use outside::{Link, Ports};
use std::net::{Ipv4Addr, Net, UdpSocket};
use std::process::Abort;
use std::time::Clock;
use udp_ports::UdpPorts;

/// Which of 300 parts came, how many, and how many of them before a small datagram.
#[derive(Drop)]
struct Came {
    parts: [bool; 300],
    count: usize,
    before_small: Option<usize>,
}

impl Came {
    /// A whole part, or the small datagram.
    fn note(&mut self, rt: &impl Abort, bytes: &[u8]) {
        if bytes == b"small".as_slice() {
            self.before_small = Some(self.count);
            return;
        }
        assert!(rt; bytes.len() == 1417);
        let index = u16::from_be_bytes([bytes[13], bytes[14]]);
        check(rt, bytes == part(index).as_slice(), "a whole part");
        let came = self.parts.get_mut(usize::from(index));
        let came = came.expect(rt, "one of 300");
        if !*came {
            *came = true;
            self.count = self.count.saturating_add(1);
        }
    }
}

/// Passes on what a socket has, from each of two ports to the other. Each tenth datagram is lost.
fn pass_on(relay: &UdpSocket, ends: [u16; 2], passed: &mut usize) {
    let mut bytes = [0u8; 1500];
    for _ in 0..100usize {
        let Ok((count, from)) = relay.recv_from(&mut bytes) else {
            return;
        };
        *passed = passed.saturating_add(1);
        let to = if from.port() == ends[0] {
            ends[1]
        } else {
            ends[0]
        };
        if *passed % 10 != 0 {
            let _sent = relay.send_to(&bytes[..count.min(1500)], (Ipv4Addr::LOCALHOST, to));
        }
    }
}

/// Polls both links, and passes on what they send from a twentieth of a second on, until all parts came, within 20 seconds. How many
/// datagrams came to the relay.
fn join<L: Link, R: Clock + Abort>(
    rt: &R,
    from: &mut L,
    to: &mut L,
    relay: &UdpSocket,
    came: &mut Came,
) -> usize {
    let _refused = relay.set_nonblocking(true);
    let ends = [from.port(), to.port()];
    let mut passed = 0usize;
    let start = micros(rt);
    for _ in 0..1_000_000usize {
        let time = micros(rt).saturating_sub(start);
        if came.count == 300 || time >= 20_000_000 {
            break;
        }
        check(rt, is_idle(rt, from), "nothing comes");
        if time >= 50_000 {
            pass_on(relay, ends, &mut passed);
        }
        if let Some(datagram) = to.poll().expect(rt, "a poll") {
            came.note(rt, datagram.as_slice());
        }
    }
    passed
}

/// 300 parts, more than a receive buffer holds, arrive whole, though nothing is passed on at first, and each tenth datagram between the
/// links is lost then, parts and acknowledgements alike. Another datagram passes by all but those that were sent at once.
fn check_loss<L: Link, R: Net + Clock + Abort>(rt: &R, from: &mut L, to: &mut L) {
    let relay = new_peer(rt, PORTS + 18);
    send_parts(rt, from, PORTS + 18, 300);
    from.send(PORTS + 18, b"small").expect(rt, "a send");
    let mut came = Came {
        parts: [false; 300],
        count: 0,
        before_small: None,
    };
    let passed = join(rt, from, to, &relay, &mut came);
    check(rt, came.count == 300, "all parts came");
    check(rt, came.before_small == Some(6), "it passes by");
    check(rt, passed >= 375, "those that are lost go again");
    check(rt, from.losses() == 0, "nothing is refused");
}

fn check_message<P: Ports, R: Net + Clock + Abort>(rt: &R, ports: &mut P) {
    let mut from = ports.attach(PORTS + 16).expect(rt, "a link");
    let mut to = ports.attach(PORTS + 17).expect(rt, "a link");
    check_loss(rt, &mut from, &mut to);
    ports.detach(from);
    ports.detach(to);
}

/// Many parts from a link, over sockets.
#[test]
fn messages_over_sockets(rt: HostRuntime) {
    let mut ports = UdpPorts::new(&rt, rt.alloc());
    check_message(&rt, &mut ports);
    check_given_back(&rt, &mut ports);
}
