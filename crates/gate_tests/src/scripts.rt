//! A gateway in lines: what it takes, and below it what is done.

use gate_core::{Act, Event, GateState};
use kv_host::KvHost;
use nop_types::{Bytes, Config};
use observer::Observer;
use std::alloc::Global;
use std::process::Abort;
use users::UserEvent;

/// What stands before the first blank, and what behind it.
fn cut<'a>(rt: &impl Abort, words: &'a str) -> (&'a str, &'a str) {
    words.split_once(' ').expect(rt, "two words")
}

fn number(rt: &impl Abort, word: &str) -> usize {
    word.parse::<usize>().expect(rt, "a number")
}

fn bytes_in(rt: &impl Abort, alloc: Global, digits: &str) -> Vec<u8> {
    hex::decode(alloc, digits).expect(rt, "hexadecimal")
}

/// The bytes of the digits, and the text behind them.
fn with_text(rt: &impl Abort, alloc: Global, digits: &str, text: &str) -> Vec<u8> {
    let mut bytes = bytes_in(rt, alloc, digits);
    bytes
        .extend_from_slice(text.as_bytes())
        .expect(rt, "memory");
    bytes
}

/// A reply of view (0, 1), whose leader is replica 0, in hexadecimal: replica, client and id; the leader's has the result.
pub(crate) fn reply(rt: &impl Abort, alloc: Global, words: &str) -> Vec<u8> {
    let (replica, words) = cut(rt, words);
    let (client, words) = cut(rt, words);
    let (id, result) = cut(rt, words);
    let (replica, client, id) = (number(rt, replica), number(rt, client), number(rt, id));
    let (tag, result) = if replica == 0 {
        ("01", result)
    } else {
        ("00", "")
    };
    let len = result.len();
    // The request is at the slot of its id.
    let digits = format!(in alloc;
        "4e4f0303{replica:02x}000000000000000000000001{id:08x}{client:08x}{id:016x}{tag}{len:04x}"
    );
    with_text(rt, alloc, digits.expect(rt, "memory").as_str(), result)
}

/// An answer in hexadecimal: observer, position, client, id and result.
pub(crate) fn answer(rt: &impl Abort, alloc: Global, words: &str) -> Vec<u8> {
    let (observer, words) = cut(rt, words);
    let (position, words) = cut(rt, words);
    let (client, words) = cut(rt, words);
    let (id, result) = cut(rt, words);
    let (observer, position) = (number(rt, observer), number(rt, position));
    let (client, id, len) = (number(rt, client), number(rt, id), result.len());
    let digits = format!(in alloc;
        "4e4f030a{observer:02x}{position:08x}{client:08x}{id:016x}{len:04x}"
    );
    with_text(rt, alloc, digits.expect(rt, "memory").as_str(), result)
}

pub(crate) fn put_text(rt: &impl Abort, text: &str, to: &mut String) {
    to.push_str(text).expect(rt, "memory");
}

/// Bytes as text, with `;` where a line ends.
pub(crate) fn text_of(rt: &impl Abort, alloc: Global, bytes: &[u8]) -> String {
    let mut text = String::new(alloc);
    for byte in bytes {
        match *byte {
            b'\r' => {}
            b'\n' => text.push(';').expect(rt, "memory"),
            b => text.push(char::from(b)).expect(rt, "memory"),
        }
    }
    text
}

/// The bytes of a text in which `;` stands for the end of a line.
pub(crate) fn bytes_of(rt: &impl Abort, alloc: Global, text: &str) -> Bytes {
    let mut bytes = Vec::new(alloc);
    for byte in text.as_bytes() {
        if *byte == b';' {
            bytes.extend_from_slice(b"\r\n").expect(rt, "memory");
        } else {
            bytes.push(*byte).expect(rt, "memory");
        }
    }
    Bytes::from_vec(bytes)
}

/// Adds what a core does with a request or a read.
fn put_core(rt: &impl Abort, alloc: Global, core: usize, does: &str, id: u64, to: &mut String) {
    let line = format!(in alloc; "  {core} {does} {id}\n").expect(rt, "memory");
    put_text(rt, line.as_str(), to);
}

/// Adds what is done for a user.
fn put_user(rt: &impl Abort, alloc: Global, user: u64, text: &str, to: &mut String) {
    let line = format!(in alloc; "  {user} {text}\n").expect(rt, "memory");
    put_text(rt, line.as_str(), to);
}

/// Adds an act in a few words: datagrams are left out.
fn put_act(rt: &impl Abort, alloc: Global, act: &Act, to: &mut String) {
    match act {
        Act::Send { .. } => {}
        Act::Submitted { core, id } => put_core(rt, alloc, *core, "submitted", *id, to),
        Act::Accepted { core, id } => put_core(rt, alloc, *core, "accepted", *id, to),
        Act::Reading { core, id } => put_core(rt, alloc, *core, "reading", *id, to),
        Act::Answered { core, id } => put_core(rt, alloc, *core, "answered", *id, to),
        Act::Waits { user, again: false } => put_user(rt, alloc, *user, "waits", to),
        Act::Waits { user, again: true } => put_user(rt, alloc, *user, "waits again", to),
        Act::Reply { user, bytes } => {
            let text = text_of(rt, alloc, bytes.as_slice());
            put_user(rt, alloc, *user, text.as_str(), to);
        }
        Act::Close { user } => put_user(rt, alloc, *user, "closed", to),
    }
}

fn put_acts(rt: &impl Abort, alloc: Global, acts: &[Act], to: &mut String) {
    for act in acts {
        put_act(rt, alloc, act, to);
    }
}

/// A user sends a text.
fn sent(rt: &impl Abort, alloc: Global, words: &str) -> Event {
    let (user, text) = cut(rt, words);
    Event::User(UserEvent::Sent {
        user: number(rt, user) as u64,
        bytes: bytes_of(rt, alloc, text),
    })
}

/// A core asks for a read: core, observer and user.
fn ask(rt: &impl Abort, words: &str) -> Event {
    let (core, words) = cut(rt, words);
    let (observer, user) = cut(rt, words);
    Event::Ask {
        core: number(rt, core),
        observer: observer.parse::<u8>().expect(rt, "an observer"),
        user: number(rt, user) as u64,
    }
}

/// A reply comes to the core with the place of the client's number.
fn replied(rt: &impl Abort, alloc: Global, words: &str) -> Event {
    let (_, client) = cut(rt, words);
    let (client, _) = cut(rt, client);
    Event::Datagram {
        core: number(rt, client),
        bytes: Bytes::from_vec(reply(rt, alloc, words)),
    }
}

/// An answer comes to the core with the place of the client's number.
fn answered(rt: &impl Abort, alloc: Global, words: &str) -> Event {
    let (_, position) = cut(rt, words);
    let (_, client) = cut(rt, position);
    let (client, _) = cut(rt, client);
    Event::Datagram {
        core: number(rt, client),
        bytes: Bytes::from_vec(answer(rt, alloc, words)),
    }
}

/// A datagram comes to the place of an observer.
fn heard(rt: &impl Abort, alloc: Global, digits: &str) -> Event {
    Event::Watch {
        now: 0,
        datagram: Some(Bytes::from_vec(bytes_in(rt, alloc, digits))),
    }
}

/// A line of a script: `open USER`, `send USER TEXT`, `left USER`, `read USER`, `retry CORE`, `ask
/// CORE OBSERVER USER`, `reassign CORE`, `idle 0`, `hear HEX`, `reply REPLICA CLIENT ID RESULT` or
/// `answer OBSERVER POSITION CLIENT ID RESULT`.
fn event_of(rt: &impl Abort, alloc: Global, line: &str) -> Event {
    let (kind, rest) = cut(rt, line);
    match kind {
        "open" => Event::User(UserEvent::Opened {
            user: number(rt, rest) as u64,
        }),
        "left" => Event::User(UserEvent::Left {
            user: number(rt, rest) as u64,
        }),
        "send" => sent(rt, alloc, rest),
        "read" => Event::Read {
            user: number(rt, rest) as u64,
        },
        "retry" => Event::Retry {
            core: number(rt, rest),
        },
        "ask" => ask(rt, rest),
        "reassign" => Event::Reassign {
            core: number(rt, rest),
        },
        "answer" => answered(rt, alloc, rest),
        "hear" => heard(rt, alloc, rest),
        "idle" => Event::Idle,
        _ => replied(rt, alloc, rest),
    }
}

fn turn(rt: &impl Abort, alloc: Global, gate: &mut GateState, line: &str, to: &mut String) {
    let mut acts = Vec::new(alloc);
    gate.step(alloc, event_of(rt, alloc, line), &mut acts)
        .expect(rt, "memory");
    put_acts(rt, alloc, &acts, to);
}

/// The lines of a script that are not indented, and below each what is done.
fn told(rt: &impl Abort, alloc: Global, gate: &mut GateState, script: &str) -> String {
    let mut given = String::new(alloc);
    for line in script.lines() {
        if !line.starts_with("  ") {
            put_text(rt, line, &mut given);
            put_text(rt, "\n", &mut given);
            turn(rt, alloc, gate, line, &mut given);
        }
    }
    given
}

fn check(rt: &impl Abort, given: &str, script: &str) {
    assert!(rt; given == script, "{given}");
}

/// A gateway with so many cores, beside so many observers, takes the lines of a script that are not
/// indented; those that are say what is done.
pub fn play(rt: &impl Abort, alloc: Global, cores: usize, observers: u8, script: &str) {
    let config = Config::new(3, 1, 1, 1, observers).expect(rt, "a group");
    play_with(rt, alloc, config, cores, None, script);
}

fn new_gate(
    rt: &impl Abort,
    alloc: Global,
    config: Config,
    cores: usize,
    near: Option<Observer<KvHost>>,
) -> GateState {
    assert!(rt; cores <= 16);
    GateState::new(alloc, config, 0, cores, None, near).expect(rt, "memory")
}

fn play_with(
    rt: &impl Abort,
    alloc: Global,
    config: Config,
    cores: usize,
    near: Option<Observer<KvHost>>,
    script: &str,
) {
    let mut gate = new_gate(rt, alloc, config, cores, near);
    check(rt, &told(rt, alloc, &mut gate, script), script);
}
