//! Users at a TCP socket: what they send and are replied, and that they have turns.

use crate::checking::check;
use std::alloc::Global;
use std::io::{Read, Write};
use std::net::{Ipv4Addr, Net, SocketAddr, TcpStream};
use std::process::Abort;
use std::thread;
use std::time::{Clock, Duration};
use tcp_users::TcpUsers;
use users::{UserEvent, Users};

fn listen<R: Net + Abort>(rt: &R, alloc: Global) -> TcpUsers {
    let any = SocketAddr::from((Ipv4Addr::LOCALHOST, 0));
    TcpUsers::listen(rt, alloc, any).expect(rt, "a listener")
}

fn connect<R: Net + Abort>(rt: &R, users: &TcpUsers) -> R::Stream {
    let address = users.address().expect(rt, "an address");
    TcpStream::connect(rt, address).expect(rt, "a connection")
}

/// The next event within some seconds.
fn event(users: &mut TcpUsers) -> Option<UserEvent> {
    for _ in 0..100usize {
        match users.next(100) {
            Ok(Some(event)) => return Some(event),
            Ok(None) => {}
            Err(_) => return None,
        }
    }
    None
}

/// Whether a user comes next, and has this number.
fn is_opened(users: &mut TcpUsers, number: u64) -> bool {
    match event(users) {
        Some(UserEvent::Opened { user }) => user == number,
        _ => false,
    }
}

/// Who sent something next, and how many bytes.
fn sent(rt: &impl Abort, users: &mut TcpUsers) -> (u64, usize) {
    match event(users) {
        Some(UserEvent::Sent { user, bytes }) => (user, bytes.as_slice().len()),
        _ => panic!(rt; "nothing was sent"),
    }
}

/// Two replies have come, and behind them the end.
fn check_replies(rt: &impl Abort, stream: &mut impl Read) {
    let mut buf = [0u8; 7];
    let mut count = stream.read(&mut buf).expect(rt, "bytes").min(6);
    let more = stream.read(&mut buf[count..]).expect(rt, "bytes");
    count = count.saturating_add(more);
    check(rt, buf == *b"answer\0" && count == 6, "both replies");
    let end = stream.read(&mut buf).expect(rt, "the end");
    check(rt, end == 0, "no more bytes");
}

/// The first user asks, and is answered in two replies, before it is left.
fn check_answered<R: Net + Abort>(rt: &R, users: &mut TcpUsers) {
    let mut one = connect(rt, users);
    check(rt, is_opened(users, 0), "the first user");
    one.write_all(b"ask").expect(rt, "a send");
    check(rt, sent(rt, users) == (0, 3), "three bytes");
    for bytes in [b"ans", b"wer"] {
        check(rt, users.reply(0, bytes).is_ok(), "a reply");
    }
    check(rt, users.close(0).is_ok(), "it is closed");
    check_replies(rt, &mut one);
}

/// The second user leaves; what is replied to it then is nobody's.
fn check_leaving<R: Net + Abort>(rt: &R, users: &mut TcpUsers) {
    let two = connect(rt, users);
    check(rt, is_opened(users, 1), "the second user");
    drop(two);
    let is_left = matches!(event(users), Some(UserEvent::Left { user: 1 }));
    check(rt, is_left, "who leaves");
    check(rt, users.reply(1, b"late").is_ok(), "a late reply");
    check(rt, users.faults() == 0, "no faults");
}

/// What is replied arrives, and behind it the end of a connection that is closed. A number is nobody else's, and replies to who left are
/// nobody's.
#[test]
fn users_are_answered(rt: HostRuntime) {
    let mut users = listen(&rt, rt.alloc());
    check_answered(&rt, &mut users);
    check_leaving(&rt, &mut users);
}

/// Takes all that two users sent. Whether a turn of the first is followed by one of the second, and then by another of the first.
fn take_turns(rt: &impl Abort, users: &mut TcpUsers, bytes: usize) -> bool {
    let mut turns = [(0, 0); 3];
    let mut taken = 0usize;
    for i in 0..100usize {
        let turn = sent(rt, users);
        if i < 3 {
            turns[i] = turn;
        }
        taken = taken.saturating_add(turn.1);
        if taken >= bytes {
            break;
        }
    }
    check(rt, taken == bytes, "all that was sent");
    turns == [(0, 16_384), (1, 5), (0, 16_384)]
}

/// Two users send, the first more than is taken in a turn. Whether they have turns.
fn are_fair<S: Write, R: Clock + Abort>(
    rt: &R,
    users: &mut TcpUsers,
    one: &mut S,
    two: &mut S,
) -> bool {
    one.write_all(&[1; 50_000]).expect(rt, "a send");
    two.write_all(b"short").expect(rt, "a send");
    thread::sleep(rt, Duration::from_millis(20));
    take_turns(rt, users, 50_005)
}

/// Whether two users have turns once in twenty times.
fn have_turns<R: Net + Clock + Abort>(rt: &R, users: &mut TcpUsers) -> bool {
    let mut one = connect(rt, users);
    let mut two = connect(rt, users);
    check(rt, is_opened(users, 0), "the first user");
    check(rt, is_opened(users, 1), "the second user");
    check(rt, matches!(users.next(0), Ok(None)), "no event");
    for _ in 0..20usize {
        if are_fair(rt, users, &mut one, &mut two) {
            return true;
        }
    }
    false
}

/// Who sends much has a turn as others have. Where the bytes of the second come late, both send again.
#[test]
fn turns_are_fair(rt: HostRuntime) {
    let mut users = listen(&rt, rt.alloc());
    check(&rt, have_turns(&rt, &mut users), "turns");
}
