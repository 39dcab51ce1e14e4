//! Sessions over devices in memory: of one op, answered, unanswered, and with each fault; and of
//! several ops.

ghost use Rattle.std.specs.Prelude.{All, true};
ghost use Rattle.outside.specs.Memory.{MayAnswer};

use crate::outcomes::{answer, ports_of};
use client_call::{CallError, Service, Session, close_session, open_session};
use nop_types::{Config, Op};
use outside::{ClockMem, Failing, LinkMem, PollAnswer, PortsMem};
use std::alloc::Global;
use std::process::Abort;
use udp_node::BasePort;

fn service(rt: &impl Abort) -> Service {
    Service {
        base: BasePort::new(41000).expect(rt, "a port"),
        config: Config::new(3, 1, 1, 1, 0).expect(rt, "a group"),
    }
}

/// What the devices do, how an op is answered in three turns, by the id and the slot, and how many
/// links came back.
static CALLS: [(&str, Result<(u64, u32), CallError>, usize); 4] = [
    ("polls reply follower", Ok((1, 1)), 1),
    ("polls reply nothing", Err(CallError::Unanswered), 1),
    ("polls nothing failure", Err(CallError::LinkFault), 1),
    (
        "polls reply follower\nattaches 1",
        Err(CallError::PortFault),
        0,
    ),
];

/// How an op is answered in a session of its own; its result is none.
fn called(
    rt: &impl Abort,
    alloc: Global,
    ports: &mut PortsMem<Failing>,
) -> Result<(u64, u32), CallError> {
    let op = Op::new(alloc, b"put").expect(rt, "an op");
    let mut clock = ClockMem::new(alloc);
    let mut session = open_session(alloc, &service(rt), 0, ports)?;
    let answer = session.submit(&op, 3, &mut clock);
    close_session(session, ports);
    match answer {
        Ok(accept) => {
            assert!(rt; accept.result.as_slice() == b"none".as_slice());
            Ok((accept.id, accept.slot))
        }
        Err(e) => Err(e),
    }
}

#[test]
fn calls(rt: HostRuntime) {
    for (head, wanted, links) in &CALLS {
        let mut ports = ports_of(&rt, rt.alloc(), head);
        let given = called(&rt, rt.alloc(), &mut ports);
        assert!(rt;
            given == *wanted && ports.detached().len() == *links,
            "{head}"
        );
    }
}

/// Adds what a poll answers.
fn push(rt: &impl Abort, alloc: Global, word: &str, answers: &mut Vec<PollAnswer>)
    requires { All (MayAnswer true) answers.old.items }
    ensures { All (MayAnswer true) answers.new.items }
{
    let given = answer(rt, alloc, word);
    answers.push(given).expect(rt, "memory");
}

/// What the polls of the session answer: each line is an op with its turns.
static POLLS: [&str; 8] = [
    // The first request is accepted at slot 1.
    "4e4f030300000000000000000000000001000000010000000000000000000000010100046e6f6e65",
    "4e4f03030100000000000000000000000100000001000000000000000000000001000000",
    // The second one has the leader's reply alone.
    "4e4f030300000000000000000000000001000000020000000000000000000000020100046e6f6e65",
    "nothing",
    // The third one is accepted at slot 3.
    "4e4f030300000000000000000000000001000000030000000000000000000000030100023d76",
    "4e4f03030100000000000000000000000100000003000000000000000000000003000000",
    // The second one is accepted in the turns of the fourth one.
    "4e4f03030100000000000000000000000100000002000000000000000000000002000000",
    "failure",
];

/// What the polls answer.
fn answers(rt: &impl Abort, alloc: Global, words: &[&str; 8]) -> Vec<PollAnswer>
    ensures { All (MayAnswer true) result.items }
{
    let [first, second, third, fourth, fifth, sixth, seventh, eighth] = words;
    let mut answers = Vec::new(alloc);
    push(rt, alloc, first, &mut answers);
    push(rt, alloc, second, &mut answers);
    push(rt, alloc, third, &mut answers);
    push(rt, alloc, fourth, &mut answers);
    push(rt, alloc, fifth, &mut answers);
    push(rt, alloc, sixth, &mut answers);
    push(rt, alloc, seventh, &mut answers);
    push(rt, alloc, eighth, &mut answers);
    answers
}

/// How the ops are answered: the id and the slot.
static ANSWERS: [Result<(u64, u32), CallError>; 5] = [
    Ok((1, 1)),
    Err(CallError::Unanswered),
    Ok((3, 3)),
    Err(CallError::LinkFault),
    Err(CallError::LinkFault),
];

/// How an op is answered in two turns.
fn submitted(
    rt: &impl Abort,
    alloc: Global,
    session: &mut Session<LinkMem<Failing>>,
    clock: &mut ClockMem,
) -> Result<(u64, u32), CallError> {
    let op = Op::new(alloc, b"op").expect(rt, "an op");
    match session.submit(&op, 2, clock) {
        Ok(accept) => Ok((accept.id, accept.slot)),
        Err(e) => Err(e),
    }
}

fn check_ops(rt: &impl Abort, alloc: Global, session: &mut Session<LinkMem<Failing>>) {
    let mut clock = ClockMem::new(alloc);
    for (row, wanted) in ANSWERS.iter().enumerate() {
        let given = submitted(rt, alloc, session, &mut clock);
        assert!(rt; given == *wanted, "op {row}: {given:?}");
    }
}

fn check(rt: &impl Abort, holds: bool, text: &str) {
    assert!(rt; holds, "{text}");
}

fn check_session(rt: &impl Abort, alloc: Global) {
    let polls = answers(rt, alloc, &POLLS);
    let link = LinkMem::with_faults(alloc, 0, polls, &[]).expect(rt, "memory");
    let links = vec![in alloc; link].expect(rt, "memory");
    let mut ports = PortsMem::with_faults(alloc, links, &[]).expect(rt, "memory");
    let Ok(mut session) = open_session(alloc, &service(rt), 0, &mut ports) else {
        panic!(rt; "a session");
    };
    check_ops(rt, alloc, &mut session);
    check(rt, session.last_id() == 4, "the last id");
    check(rt, session.can_submit(), "room");
    close_session(session, &mut ports);
    check(rt, ports.detached().len() == 1, "the link");
}

#[test]
fn a_session_goes_on(rt: HostRuntime) {
    check_session(&rt, rt.alloc());
}
