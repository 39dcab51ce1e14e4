//! The loop over devices in memory: what comes of it in so many turns, and with each fault.

ghost use Rattle.std.specs.Prelude.{All, true, ◌≤◌, length};
ghost use Rattle.outside.specs.Memory.{MayAnswer};

use crate::scripts::{self, bytes_of, put_text, reply, text_of};
use client_call::Service;
use gate::{GateError, Seats, serve};
use nop_types::{Bytes, Config, MAX_DATAGRAM_BYTES};
use outside::{ClockMem, Failing, LinkMem, PollAnswer, PortsMem};
use roll_call::Roll;
use std::alloc::Global;
use std::process::Abort;
use udp_node::BasePort;
use users::{MAX_EVENT_BYTES, UserAnswer, UserCall, UserEvent, UsersMem};

/// No datagram comes.
const SILENT: [&str; 5] = ["nothing"; 5];

fn datagram(rt: &impl Abort, bytes: Vec<u8>) -> Bytes
    ensures { length result ≤ MAX_DATAGRAM_BYTES }
{
    assert!(rt; bytes.len() <= MAX_DATAGRAM_BYTES);
    Bytes::from_vec(bytes)
}

/// A datagram: the reply `REPLICA CLIENT ID RESULT`, or the answer `@OBSERVER POSITION CLIENT ID RESULT`.
fn bytes_that_come(rt: &impl Abort, alloc: Global, words: &str) -> Vec<u8> {
    match words.strip_prefix("@") {
        Some(words) => scripts::answer(rt, alloc, words),
        None => reply(rt, alloc, words),
    }
}

/// What a poll answers: a failure, nothing, or a datagram.
fn answer(rt: &impl Abort, alloc: Global, words: &str) -> PollAnswer
    ensures { MayAnswer true result }
{
    match words {
        "failure" => PollAnswer::Failure,
        "nothing" => PollAnswer::Nothing,
        _ => PollAnswer::Received(datagram(rt, bytes_that_come(rt, alloc, words))),
    }
}

/// Adds what a poll answers.
fn push(rt: &impl Abort, alloc: Global, words: &str, answers: &mut Vec<PollAnswer>)
    requires { All (MayAnswer true) answers.old.items }
    ensures { All (MayAnswer true) answers.new.items }
{
    let given = answer(rt, alloc, words);
    answers.push(given).expect(rt, "memory");
}

/// What the polls answer.
fn answers(rt: &impl Abort, alloc: Global, polls: &[&str; 5]) -> Vec<PollAnswer>
    ensures { All (MayAnswer true) result.items }
{
    let [first, second, third, fourth, fifth] = polls;
    let mut answers = Vec::new(alloc);
    push(rt, alloc, first, &mut answers);
    push(rt, alloc, second, &mut answers);
    push(rt, alloc, third, &mut answers);
    push(rt, alloc, fourth, &mut answers);
    push(rt, alloc, fifth, &mut answers);
    answers
}

/// A gateway with so many cores serves users for so many turns, over ports whose first link has polls that answer these and then nothing,
/// and of which the attaches with these numbers fail. One user connects and sends a text, in which `;` stands for the end of a line; where
/// there is none, users fail as a whole. The gateway ends so, gives so many links back, and has told users this.
struct Row {
    cores: usize,
    turns: u64,
    polls: [&'static str; 5],
    failing: &'static [u64],
    sent: Option<&'static str>,
    ended: Result<(), GateError>,
    back: usize,
    replies: &'static str,
}

fn ports(rt: &impl Abort, alloc: Global, row: &Row) -> PortsMem<Failing> {
    let answers = answers(rt, alloc, &row.polls);
    let link = LinkMem::with_faults(alloc, 0, answers, &[]).expect(rt, "memory");
    let links = vec![in alloc; link].expect(rt, "memory");
    PortsMem::with_faults(alloc, links, row.failing).expect(rt, "memory")
}

/// A user that connects and sends the text.
fn user(rt: &impl Abort, alloc: Global, text: &str) -> UsersMem {
    let bytes = bytes_of(rt, alloc, text);
    assert!(rt; bytes.as_slice().len() <= MAX_EVENT_BYTES);
    let opened = UserAnswer::Came(UserEvent::Opened { user: 0 });
    let sent = UserAnswer::Came(UserEvent::Sent { user: 0, bytes });
    let answers = vec![in alloc; opened, sent].expect(rt, "memory");
    UsersMem::new(alloc, answers)
}

/// Users that fail as a whole.
fn failing_users(rt: &impl Abort, alloc: Global) -> UsersMem {
    let answers = vec![in alloc; UserAnswer::Failure].expect(rt, "memory");
    UsersMem::new(alloc, answers)
}

fn users(rt: &impl Abort, alloc: Global, sent: Option<&str>) -> UsersMem {
    match sent {
        Some(text) => user(rt, alloc, text),
        None => failing_users(rt, alloc),
    }
}

fn put_reply(rt: &impl Abort, alloc: Global, bytes: &[u8], to: &mut String) {
    let text = text_of(rt, alloc, bytes);
    put_text(rt, text.as_str(), to);
}

/// What was replied to users, and who was closed.
fn told(rt: &impl Abort, alloc: Global, users: &UsersMem) -> String {
    let mut told = String::new(alloc);
    for call in users.trace() {
        match call {
            UserCall::Came(_) => {}
            UserCall::Replied { user: _, bytes } => {
                put_reply(rt, alloc, bytes.as_slice(), &mut told);
            }
            UserCall::Closed { user: _ } => put_text(rt, "closed", &mut told),
        }
    }
    told
}

fn is_told(rt: &impl Abort, alloc: Global, users: &UsersMem, replies: &str) -> bool {
    told(rt, alloc, users).as_str() == replies
}

fn service(rt: &impl Abort) -> Service {
    Service {
        base: BasePort::new(41000).expect(rt, "a port"),
        config: Config::new(3, 1, 1, 1, 1).expect(rt, "a group"),
    }
}

/// How the gateway of a row ends.
fn ended(
    rt: &impl Abort,
    alloc: Global,
    row: &Row,
    ports: &mut PortsMem<Failing>,
    users: &mut UsersMem,
) -> Result<(), GateError> {
    let service = service(rt);
    let count = row.cores;
    assert!(rt; count <= 16);
    let seats = Seats {
        first: 0,
        count,
        observer: None,
    };
    let roll = Roll::none(alloc);
    let mut clock = ClockMem::new(alloc);
    serve(
        alloc, &service, seats, roll, row.turns, ports, users, &mut clock,
    )
}

fn holds(rt: &impl Abort, alloc: Global, row: &Row) -> bool {
    let mut ports = ports(rt, alloc, row);
    let mut users = users(rt, alloc, row.sent);
    ended(rt, alloc, row, &mut ports, &mut users) == row.ended
        && ports.detached().len() == row.back
        && is_told(rt, alloc, &users, row.replies)
}

fn check(rt: &impl Abort, alloc: Global, rows: &[Row]) {
    for (number, row) in rows.iter().enumerate() {
        assert!(rt; holds(rt, alloc, row), "row {number}");
    }
}

/// A ping is answered in its turn, by the gateway alone.
static PING: [Row; 1] = [Row {
    cores: 1,
    turns: 1,
    polls: SILENT,
    failing: &[],
    sent: Some("*1;$4;PING;"),
    ended: Ok(()),
    back: 1,
    replies: "+PONG;",
}];

#[test]
fn a_ping_is_answered(rt: HostRuntime) {
    check(&rt, rt.alloc(), &PING);
}

/// So is INFO, with the line on the gateway alone where it has no place of an observer.
static INFO: [Row; 1] = [Row {
    cores: 1,
    turns: 1,
    polls: SILENT,
    failing: &[],
    sent: Some("*1;$4;INFO;"),
    ended: Ok(()),
    back: 1,
    replies: "$23;redis_mode:standalone;;",
}];

#[test]
fn info_is_answered(rt: HostRuntime) {
    check(&rt, rt.alloc(), &INFO);
}

const SET: Option<&str> = Some("*3;$3;SET;$1;k;$1;v;");

const FOLLOWERS: [&str; 5] = [
    "nothing",
    "1 0 1 none",
    "2 0 1 none",
    "nothing",
    "0 0 1 none",
];

/// A SET is sent in the first turn. Replies of two followers are not enough without the leader's.
static WAITS_FOR_LEADER: [Row; 2] = [
    Row {
        cores: 1,
        turns: 2,
        polls: FOLLOWERS,
        failing: &[],
        sent: SET,
        ended: Ok(()),
        back: 1,
        replies: "",
    },
    Row {
        cores: 1,
        turns: 3,
        polls: FOLLOWERS,
        failing: &[],
        sent: SET,
        ended: Ok(()),
        back: 1,
        replies: "+OK;",
    },
];

#[test]
fn a_set_waits_for_the_leader(rt: HostRuntime) {
    check(&rt, rt.alloc(), &WAITS_FOR_LEADER);
}

const LEADER: [&str; 5] = [
    "nothing",
    "0 0 1 none",
    "0 0 1 none",
    "nothing",
    "2 0 1 none",
];

/// The leader's reply is not enough without a follower's; the same one twice is one.
static WAITS_FOR_FOLLOWER: [Row; 2] = [
    Row {
        cores: 1,
        turns: 2,
        polls: LEADER,
        failing: &[],
        sent: SET,
        ended: Ok(()),
        back: 1,
        replies: "",
    },
    Row {
        cores: 1,
        turns: 3,
        polls: LEADER,
        failing: &[],
        sent: SET,
        ended: Ok(()),
        back: 1,
        replies: "+OK;",
    },
];

#[test]
fn a_set_waits_for_a_follower(rt: HostRuntime) {
    check(&rt, rt.alloc(), &WAITS_FOR_FOLLOWER);
}

const ANSWERS: [&str; 5] = [
    "nothing",
    "@0 3 0 2 =w",
    "nothing",
    "@0 3 0 1 =v",
    "nothing",
];

/// A read is asked for in the turn after the one in which it came, and an answer of another read is
/// none.
static READ: [Row; 2] = [
    Row {
        cores: 1,
        turns: 2,
        polls: ANSWERS,
        failing: &[],
        sent: Some("*2;$5;GETAT;$1;k;"),
        ended: Ok(()),
        back: 1,
        replies: "",
    },
    Row {
        cores: 1,
        turns: 3,
        polls: ANSWERS,
        failing: &[],
        sent: Some("*2;$5;GETAT;$1;k;"),
        ended: Ok(()),
        back: 1,
        replies: "$1;v;",
    },
];

#[test]
fn a_read_is_answered(rt: HostRuntime) {
    check(&rt, rt.alloc(), &READ);
}

/// Where the second attach fails the first link is given back, and nothing is done for users.
static ATTACH_FAILS: [Row; 1] = [Row {
    cores: 3,
    turns: 3,
    polls: SILENT,
    failing: &[2],
    sent: Some("*1;$4;PING;"),
    ended: Err(GateError::PortFault),
    back: 1,
    replies: "",
}];

#[test]
fn a_failed_attach_ends_it(rt: HostRuntime) {
    check(&rt, rt.alloc(), &ATTACH_FAILS);
}

/// Where a poll fails the gateway ends, and both links are given back. What was replied before
/// stands. Of links over which no answer is awaited one is polled in a turn.
static POLL_FAILS: [Row; 1] = [Row {
    cores: 2,
    turns: 4,
    polls: ["nothing", "failure", "nothing", "nothing", "nothing"],
    failing: &[],
    sent: Some("*1;$4;PING;"),
    ended: Err(GateError::LinkFault),
    back: 2,
    replies: "+PONG;",
}];

#[test]
fn a_failed_poll_ends_it(rt: HostRuntime) {
    check(&rt, rt.alloc(), &POLL_FAILS);
}

/// Where users fail as a whole the gateway ends, and its link is given back.
static USERS_FAIL: [Row; 1] = [Row {
    cores: 1,
    turns: 3,
    polls: SILENT,
    failing: &[],
    sent: None,
    ended: Err(GateError::UsersFault),
    back: 1,
    replies: "",
}];

#[test]
fn a_fault_of_users_ends_it(rt: HostRuntime) {
    check(&rt, rt.alloc(), &USERS_FAIL);
}
