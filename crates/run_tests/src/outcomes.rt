//! One way to run the program, and the tools that look for an order, over devices in memory, of
//! which a text says what they hold and which of their calls fail.

ghost use Rattle.std.specs.Prelude.{◌≤◌, length, true};
ghost use Rattle.outside.specs.Memory.{IsFresh, MayAnswer};

use braiding::{BraidError, braid};
use commands::run;
use kv_host::KvHost;
use kv_parts::ByKey;
use nop_types::{Bytes, MAX_DATAGRAM_BYTES};
use outside::{
    CallPlan, ClockMem, Failing, LinkCall, LinkMem, PollAnswer, PortsMem, ReadMem, WriteMem,
};
use std::alloc::Global;
use std::process::Abort;

pub const REQUEST: &str = "4e4f030100000000000000000000000100075000016b000176";

pub const ONE_PUT: &str =
    "nopaxos 1 replicas 3 sequencers 1 clients 1\nsubmit c0 5000016b000176\ndeliver 0 s0\ndeliver 1 r0\ndeliver 1 r1\ndeliver 2 c0\ndeliver 3 c0\n";

/// How a run ended, what it wrote, and a line for each port and datagram that its links sent.
#[derive(Drop)]
pub struct Outcome {
    pub status: u8,
    pub written: Vec<u8>,
    pub sent: String,
}

pub fn words_of(rt: &impl Abort, alloc: Global, text: &str) -> Vec<String> {
    let mut words = Vec::new(alloc);
    for word in text.split(' ') {
        let word = String::from_str(alloc, word).expect(rt, "memory");
        words.push(word).expect(rt, "memory");
    }
    words
}

/// What stands behind a key at the begin of a line, nothing where there is none.
fn field<'a>(head: &'a str, key: &str) -> &'a str {
    for line in head.lines() {
        if let Some(rest) = line.strip_prefix(key) {
            return rest;
        }
    }
    ""
}

fn numbers(rt: &impl Abort, alloc: Global, text: &str) -> Vec<u64> {
    let mut numbers = Vec::new(alloc);
    for word in text.split_whitespace() {
        let number = word.parse::<u64>().expect(rt, "a number");
        numbers.push(number).expect(rt, "memory");
    }
    numbers
}

/// How many bytes a call moves at most, and the numbers of those that fail.
fn calls(rt: &impl Abort, alloc: Global, text: &str) -> (usize, Vec<u64>) {
    let (most, failing) = text.split_once(' ').unwrap_or((text, ""));
    let most = most.parse::<usize>().unwrap_or(usize::MAX);
    (most, numbers(rt, alloc, failing))
}

fn source_of(rt: &impl Abort, alloc: Global, head: &str, schedule: &str) -> ReadMem<Failing> {
    let (most, failing) = calls(rt, alloc, field(head, "reads "));
    let bytes = schedule.as_bytes().to_vec(alloc).expect(rt, "memory");
    ReadMem::with_faults(alloc, bytes, most.max(1), &failing).expect(rt, "memory")
}

fn sink_of(rt: &impl Abort, alloc: Global, head: &str) -> WriteMem<Failing> {
    let (most, failing) = calls(rt, alloc, field(head, "writes "));
    WriteMem::with_faults(alloc, most, &failing).expect(rt, "memory")
}

/// A datagram by its name, or in hexadecimal.
pub fn datagram(rt: &impl Abort, alloc: Global, word: &str) -> Bytes
    ensures { length result ≤ MAX_DATAGRAM_BYTES }
{
    let digits = match word {
        "request" => REQUEST,
        "stamped" =>
            "4e4f03020000000000000001000000000000000100000000000000000000000100075000016b000176",
        "reply" =>
            "4e4f030300000000000000000000000001000000010000000000000000000000010100046e6f6e65",
        "follower" => "4e4f03030100000000000000000000000100000001000000000000000000000001000000",
        // The request with message number 2, where number 1 is missing.
        "later" =>
            "4e4f03020000000000000001000000000000000200000000000000000000000100075000016b000176",
        "read" => "4e4f030900000000000000000000000100016b",
        "answer" => "4e4f030a000000000000000000000000000000000100046e6f6e65",
        _ => word,
    };
    let bytes = hex::decode(alloc, digits).expect(rt, "hexadecimal");
    assert!(rt; bytes.len() <= MAX_DATAGRAM_BYTES);
    Bytes::from_vec(bytes)
}

/// What a poll answers: a failure, nothing, or a datagram.
pub fn answer(rt: &impl Abort, alloc: Global, word: &str) -> PollAnswer
    ensures { MayAnswer true result }
{
    match word {
        "failure" => PollAnswer::Failure,
        "nothing" => PollAnswer::Nothing,
        _ => PollAnswer::Received(datagram(rt, alloc, word)),
    }
}

/// What a poll answers by its number, from 1. A line `instead` has the answer of one poll, and its
/// number.
fn poll<'a>(rt: &impl Abort, head: &'a str, number: usize) -> &'a str {
    let (word, changed) = field(head, "instead ").split_once(' ').unwrap_or(("", "0"));
    if changed.parse::<usize>().expect(rt, "a number") == number {
        return word;
    }
    let mut words = field(head, "polls ").split(' ');
    words.nth(number.saturating_sub(1)).unwrap_or("nothing")
}

/// A link with three of the polls, the first by its number, and the numbers of its sends that fail.
fn link(rt: &impl Abort, alloc: Global, head: &str, first: usize, failing: &str) -> LinkMem<Failing>
    requires { first ≤ 10 }
    ensures { IsFresh ⟦<Failing as CallPlan>⟧.fault_count result }
{
    let mut answers = Vec::new(alloc);
    let given = answer(rt, alloc, poll(rt, head, first));
    answers.push(given).expect(rt, "memory");
    let given = answer(rt, alloc, poll(rt, head, first + 1));
    answers.push(given).expect(rt, "memory");
    let given = answer(rt, alloc, poll(rt, head, first + 2));
    answers.push(given).expect(rt, "memory");
    let failing = numbers(rt, alloc, failing);
    LinkMem::with_faults(alloc, 0, answers, &failing).expect(rt, "memory")
}

/// Four links, with three polls each.
pub fn ports_of(rt: &impl Abort, alloc: Global, head: &str) -> PortsMem<Failing> {
    let first = link(rt, alloc, head, 1, field(head, "sends of 1: "));
    let second = link(rt, alloc, head, 4, field(head, "sends of 2: "));
    let third = link(rt, alloc, head, 7, field(head, "sends of 3: "));
    let fourth = link(rt, alloc, head, 10, field(head, "sends of 4: "));
    let links = vec![in alloc; first, second, third, fourth].expect(rt, "memory");
    let failing = numbers(rt, alloc, field(head, "attaches "));
    PortsMem::with_faults(alloc, links, &failing).expect(rt, "memory")
}

/// Adds a line for each port and datagram that was sent.
fn put_sent(rt: &impl Abort, alloc: Global, all: &[LinkCall], lines: &mut String) {
    for call in all {
        if let LinkCall::Sent { port, bytes } = call {
            let digits = hex::encode(alloc, bytes.as_slice()).expect(rt, "memory");
            let line = format!(in alloc; "{} {digits}\n", *port).expect(rt, "memory");
            lines.push_str(line.as_str()).expect(rt, "memory");
        }
    }
}

fn sent_lines<P: CallPlan>(rt: &impl Abort, alloc: Global, links: &[LinkMem<P>]) -> String {
    let mut lines = String::new(alloc);
    for link in links {
        put_sent(rt, alloc, link.trace(), &mut lines);
    }
    lines
}

/// The exit status of the program `braid`.
fn braided(alloc: Global, source: &mut ReadMem<Failing>, sink: &mut WriteMem<Failing>) -> u8 {
    match braid(alloc, source, sink) {
        Ok(()) => 0,
        Err(BraidError::ReadFault) => 3,
        Err(BraidError::WriteFault) => 4,
        Err(BraidError::NoMemory) => 6,
        Err(BraidError::Refuted { .. }) => 8,
    }
}

/// The exit status of a run, of the program that the first word names.
fn status_of(
    alloc: Global,
    words: &[String],
    source: &mut ReadMem<Failing>,
    sink: &mut WriteMem<Failing>,
    ports: &mut PortsMem<Failing>,
) -> u8 {
    match words.first().map(|word| word.as_str()) {
        Some("braid") => braided(alloc, source, sink),
        Some("linearize") => linearize::run::<ByKey, _, _>(alloc, "", words, source, sink) as u8,
        _ => {
            let mut clock = ClockMem::new(alloc);
            run::<KvHost, _, _, _, _>(
                alloc, "nopaxos", words, source, sink, ports, &mut clock,
            ) as u8
        }
    }
}

/// Runs the words of the first line. Each further line says of a device, behind a word, how many
/// bytes a call moves and which fail, or what it answers.
pub fn outcome_of(rt: &impl Abort, alloc: Global, head: &str, schedule: &str) -> Outcome {
    let line = head.lines().next().unwrap_or("");
    let mut source = source_of(rt, alloc, head, schedule);
    let mut sink = sink_of(rt, alloc, head);
    let mut ports = ports_of(rt, alloc, head);
    let words = words_of(rt, alloc, line);
    let status = status_of(alloc, &words, &mut source, &mut sink, &mut ports);
    Outcome {
        status,
        written: sink.into_vec(),
        sent: sent_lines(rt, alloc, ports.detached()),
    }
}

/// Compares what a run ends with: the status, what was written, with a bar behind it, and what was
/// sent.
pub fn check_outcome(rt: &impl Abort, alloc: Global, head: &str, schedule: &str, wanted: &str) {
    let outcome = outcome_of(rt, alloc, head, schedule);
    let written = std::str::from_utf8(&outcome.written).expect(rt, "text");
    let given = format!(in alloc; "{}\n{written}|\n{}", outcome.status, outcome.sent);
    let given = given.expect(rt, "memory");
    assert_eq!(rt; given.as_str(), wanted, "{head}");
}
