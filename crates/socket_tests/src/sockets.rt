//! Links at ports of the loopback address, and the system's clock.

ghost use Rattle.std.specs.Prelude.{◌<◌, length};

use crate::checking::{check, is_idle, micros, receives};
use outside::{Clock, Link, LinkError, Ports};
use std::net::{Ipv4Addr, Net, UdpSocket};
use std::process::Abort;
use std::time::Duration;
use std::{thread, time};
use udp_ports::{SystemClock, UdpPorts};

/// Another address of this machine.
fn elsewhere(port: u16) -> (Ipv4Addr, u16) {
    (Ipv4Addr::new(127, 0, 0, 2), port)
}

/// Whether no link can be attached at a port.
pub fn is_refused<P: Ports>(ports: &mut P, port: u16) -> bool
    ensures { length (P.detached ports.old) < P.attached ports.old →
        length (P.detached ports.new) < P.attached ports.new }
{
    match ports.attach(port) {
        Ok(link) => {
            ports.detach(link);
            false
        }
        Err(_) => true,
    }
}

/// How many microseconds so many polls take, at which nothing comes.
fn idle_micros<L: Link, R: time::Clock + Abort>(rt: &R, link: &mut L, polls: usize) -> u128 {
    let start = micros(rt);
    for _ in 0..polls {
        check(rt, is_idle(rt, link), "nothing comes");
    }
    micros(rt).saturating_sub(start)
}

/// A poll of a link to which nothing comes answers soon, and of the links that are attached together only the first one waits.
fn check_waits<L: Link, R: time::Clock + Abort>(rt: &R, first: &mut L, second: &mut L) {
    let waited = idle_micros(rt, first, 10);
    check(
        rt,
        10_000 <= waited && waited < 1_000_000,
        "the first one waits",
    );
    let waited = idle_micros(rt, second, 1000);
    check(rt, waited < 1_000_000, "the second one does not");
}

/// Datagrams of each size arrive whole: an empty one, the longest fragment, the longest datagram.
fn check_arrivals<L: Link, R: time::Clock + Abort>(rt: &R, from: &mut L, to: &mut L) {
    let mut bytes = [7u8; 1500];
    bytes[1416] = 8;
    bytes[1499] = 9;
    for len in [0, 1, 1000, 1001, 1417, 1500usize] {
        let sent = &bytes[..len.min(1500)];
        from.send(to.port(), sent).expect(rt, "a send");
        check(rt, receives(rt, to, sent), "what was sent");
    }
    check(rt, from.losses() == 0, "nothing is lost");
    check(rt, from.port() != to.port(), "two ports");
}

/// What comes at the link's port of another address is not received, and what comes at that of its own is.
fn check_astray<L: Link, R: Net + time::Clock + Abort>(rt: &R, link: &mut L) {
    let other = UdpSocket::bind(rt, elsewhere(0)).expect(rt, "a socket");
    other
        .send_to(b"astray", elsewhere(link.port()))
        .expect(rt, "a send");
    other
        .send_to(b"here", (Ipv4Addr::LOCALHOST, link.port()))
        .expect(rt, "a send");
    check(rt, receives(rt, link, b"here"), "what came here");
}

/// Six parts to port 0 are lost at once, and those that follow wait.
fn lose_parts<L: Link>(rt: &impl Abort, link: &mut L) {
    for i in 0..8usize {
        let wanted = if i < 6 {
            Err(LinkError::Failed)
        } else {
            Ok(())
        };
        check(rt, link.send(0, &[8u8; 1417]) == wanted, "six are lost");
    }
}

/// A send that the system refuses is a loss, and no fault: nothing can be sent to port 0. One to a port that nobody has is none. A part
/// that cannot be sent is lost again each time that it is sent again.
fn check_losses<L: Link, R: time::Clock + Abort>(rt: &R, link: &mut L) {
    check(rt, link.send(9, b"to nobody").is_ok(), "it is sent");
    let refused = link.send(0, b"nowhere") == Err(LinkError::Failed);
    check(rt, refused && link.losses() == 1, "one is lost");
    lose_parts(rt, link);
    check(rt, link.losses() == 7, "seven are lost");
    let start = micros(rt);
    for _ in 0..100_000usize {
        if link.losses() >= 9 || micros(rt).saturating_sub(start) >= 5_000_000 {
            break;
        }
        check(rt, is_idle(rt, link), "nothing comes");
    }
    check(rt, link.losses() >= 9, "parts are lost again");
    check(rt, link.faults() == 0, "no faults");
}

/// Two links, of which the second one is bound to the loopback address alone: its port can't be attached again, which is a fault, but is
/// free at another address.
fn check_two<P: Ports, R: Net + time::Clock + Abort>(rt: &R, ports: &mut P) {
    let mut from = ports.attach(43360).expect(rt, "a link");
    let mut to = ports.attach(43361).expect(rt, "a link");
    check_waits(rt, &mut from, &mut to);
    check_arrivals(rt, &mut from, &mut to);
    check_astray(rt, &mut to);
    check_losses(rt, &mut from);
    ports.detach(from);
    let faults = ports.faults();
    check(rt, is_refused(ports, to.port()), "the port is taken");
    check(rt, ports.faults() == faults.saturating_add(1), "a fault");
    let other = UdpSocket::bind(rt, elsewhere(to.port()));
    check(rt, other.is_ok(), "it is free elsewhere");
    ports.detach(to);
}

/// A link that is attached alone waits.
fn check_one<P: Ports, R: time::Clock + Abort>(rt: &R, ports: &mut P) {
    let mut alone = ports.attach(43362).expect(rt, "a link");
    let waited = idle_micros(rt, &mut alone, 10);
    check(rt, 10_000 <= waited, "one that is alone waits");
    ports.detach(alone);
}

/// Links at ports of the loopback address.
#[test]
fn links_at_ports(rt: HostRuntime) {
    let mut ports = UdpPorts::new(&rt, rt.alloc());
    check_two(&rt, &mut ports);
    check_one(&rt, &mut ports);
}

/// The clock goes forward by the milliseconds that a sleep took, and never back.
#[test]
fn clock_counts_milliseconds(rt: HostRuntime) {
    let mut clock = SystemClock::new(&rt);
    let start = clock.now();
    let mut last = start;
    for _ in 0..10usize {
        thread::sleep(&rt, Duration::from_millis(20));
        let now = clock.now();
        check(&rt, now >= last, "it never goes back");
        last = now;
    }
    let slept = last.saturating_sub(start);
    check(&rt, 190 <= slept && slept < 2000, "it goes forward");
}
