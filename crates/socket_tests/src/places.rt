//! Links at the places of tables: what they hear, and what they answer to greetings.

use crate::checking::{check, is_idle, receives};
use crate::sockets::is_refused;
use admission::{Greeting, Own, Word};
use nop_types::Actor;
use outside::{Link, Ports};
use std::net::{Ipv4Addr, Net, SocketAddr, UdpSocket};
use std::process::Abort;
use std::time::{Clock, Duration};
use udp_ports::{Home, Place, UdpPorts};

const DIGEST: u64 = 0x0102_0304_0506_0708;

fn address(host: u8, port: u16) -> SocketAddr {
    SocketAddr::from((Ipv4Addr::new(127, 0, 2, host), port))
}

fn place(host: u8, port: u16, actor: Actor) -> Place {
    Place {
        port,
        actor,
        address: address(host, port),
    }
}

/// A request of a client with this number.
fn request(client: u8) -> [u8; 18] {
    [
        0x4e, 0x4f, 3, 1, 0, 0, 0, client, 0, 0, 0, 0, 0, 0, 0, 1, 0, 0,
    ]
}

/// The socket of another process, whose receives wait for at most a tenth of a second.
fn new_socket<R: Net + Abort>(rt: &R, host: u8, port: u16) -> UdpSocket {
    let socket = UdpSocket::bind(rt, address(host, port)).expect(rt, "a socket");
    socket
        .set_read_timeout(Some(Duration::from_millis(100)))
        .expect(rt, "a time-out");
    socket
}

fn send(rt: &impl Abort, from: &UdpSocket, bytes: &[u8], port: u16) {
    from.send_to(bytes, address(1, port)).expect(rt, "a send");
}

/// What comes from an address that is in no table, or what another may not send, is not heard; what follows it is.
fn check_strangers<L: Link, R: Net + Clock + Abort>(rt: &R, link: &mut L) {
    let stranger = new_socket(rt, 3, 42916);
    let client = new_socket(rt, 2, 42916);
    // a request but for its kind, which is a fragment's
    let mut fragment = request(1);
    fragment[3] = 8;
    for bytes in [request(0), request(16)] {
        send(rt, &stranger, &bytes, link.port());
    }
    for bytes in [fragment, request(1), request(32)] {
        send(rt, &client, &bytes, link.port());
    }
    check(rt, receives(rt, link, &request(32)), "what a client sent");
    check(rt, is_idle(rt, link), "nothing else is heard");
    check(rt, link.send(42922, b"to nobody").is_err(), "no such place");
    check(rt, link.losses() == 1, "a loss");
}

/// A word, a digest, a number and a process, and the word that answers them, if one does.
type Asked = (Word, u64, u32, u64, Option<Word>);

static ASKED: [Asked; 8] = [
    (Word::Ask, DIGEST, 17, 5, Some(Word::Free)),
    (Word::Claim, DIGEST, 17, 5, Some(Word::Noted)),
    (Word::Claim, DIGEST, 17, 6, Some(Word::Taken)),
    (Word::Ask, DIGEST, 17, 6, Some(Word::Taken)),
    (Word::Ask, DIGEST, 33, 6, Some(Word::Free)),
    (Word::Ask, 0, 33, 6, Some(Word::Foreign)),
    (Word::Ask, DIGEST, 16, 6, None),
    (Word::Noted, DIGEST, 17, 5, None),
];

/// The greeting that comes next, if one does.
fn answer(client: &UdpSocket) -> Option<Greeting> {
    let mut buf = [0u8; 64];
    match client.recv_from(&mut buf) {
        Ok((count, _from)) => Greeting::read(&buf[..count]).ok(),
        Err(_) => None,
    }
}

/// A greeting of the client is not heard, and answered as it has to be.
fn check_asked<L: Link>(rt: &impl Abort, link: &mut L, client: &UdpSocket, asked: Asked) {
    let (word, digest, number, process, wanted) = asked;
    let greeting = Greeting {
        word,
        digest,
        number,
        process,
    };
    send(rt, client, &greeting.to_bytes(), link.port());
    check(rt, is_idle(rt, link), "it is not heard");
    let wanted = match wanted {
        Some(word) => Some(Greeting { word, ..greeting }),
        None => None,
    };
    check(rt, answer(client) == wanted, "its answer");
}

/// A greeting is answered and not heard: a number is free, then noted for who claims it, and then taken for another.
fn check_answers<L: Link, R: Net + Abort>(rt: &R, link: &mut L) {
    let client = new_socket(rt, 2, 42917);
    for asked in &ASKED {
        check_asked(rt, link, &client, *asked);
    }
}

/// A link that only listens hears a greeting as what else its sender may send, and answers none.
fn check_listening<L: Link, R: Net + Clock + Abort>(rt: &R, link: &mut L) {
    let replica = new_socket(rt, 2, 42918);
    let question = Greeting {
        word: Word::Ask,
        digest: DIGEST,
        number: 0,
        process: 5,
    };
    let question = question.to_bytes();
    send(rt, &replica, &request(0), link.port());
    send(rt, &replica, &question, link.port());
    check(rt, receives(rt, link, &question), "the question");
    check(rt, answer(&replica).is_none(), "no answer");
}

/// No link is attached at another's place. One is at each home.
fn check_homes<P: Ports, R: Net + Clock + Abort>(rt: &R, ports: &mut P) {
    check(rt, is_refused(ports, 42916), "another's place");
    check(rt, ports.faults() == 1, "a fault");
    let mut claiming = ports.attach(42901).expect(rt, "a link");
    let mut listening = ports.attach(42902).expect(rt, "a link");
    check_strangers(rt, &mut claiming);
    check_answers(rt, &mut claiming);
    check_listening(rt, &mut listening);
    ports.detach(claiming);
    ports.detach(listening);
}

/// One process has two homes: links are attached at that of a replica by itself, where it claims its number, and at that where it only
/// listens, beside a replica that does not answer.
#[test]
fn one_home_claims_and_one_listens(rt: HostRuntime) {
    let claimed = [
        place(1, 42901, Actor::Replica(0)),
        place(2, 42916, Actor::Client(0)),
        place(2, 42917, Actor::Client(1)),
    ];
    let heard = [
        place(1, 42902, Actor::Observer(0)),
        place(2, 42918, Actor::Replica(0)),
    ];
    let own = Own {
        actor: Actor::Replica(0),
        digest: DIGEST,
        process: 1,
    };
    let homes = [
        Home {
            places: &claimed,
            port: 42901,
            claims: Some(own),
        },
        Home {
            places: &heard,
            port: 42902,
            claims: None,
        },
    ];
    let mut ports = UdpPorts::at_hosts(&rt, rt.alloc(), &homes);
    check_homes(&rt, &mut ports);
}
