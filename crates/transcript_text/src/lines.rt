//! The lines of a transcript. Each function appends one line.

ghost use Rattle.std.specs.Prelude.{◌≡◌, ◌≢◌, ◌++◌, Some, None, IsTrue, slice_index, OnOk, OnErr};
ghost use Rattle.nop_types.specs.Headers.{gives};
ghost use Rattle.transcript_text.specs.Transcript as texts;

use crate::field::{Field, write_line};
use nop_types::{Actor, Bytes, Config, Dest, Entry, Key, NoMemory, Phase, Request, View};

/// The first line of a form that counts controllers, and observers in form 3.
#[tactic(auto, using(crate::proofs::LineLemmas::second_form))]
fn counted_line(word: &str, form: u8, config: Config, to: &mut Vec<u8>) -> Result<(), NoMemory>
    requires { form ≢ 1 }
    ensures ok { OnOk result (to.new.items
        ≡ to.old.items ++ texts.counts_line word.now form config) }
    ensures err { OnErr result (to.new.items ≡ to.old.items) }
{
    let fields = [
        Field::Number(u64::from(form)),
        Field::Word("replicas"),
        Field::Number(u64::from(config.replicas())),
        Field::Word("sequencers"),
        Field::Number(u64::from(config.sequencers())),
        Field::Word("clients"),
        Field::Number(u64::from(config.clients())),
        Field::Word("controllers"),
        Field::Number(u64::from(config.controllers())),
        Field::Word("observers"),
        Field::Number(u64::from(config.observers())),
    ];
    if form == 2 {
        write_line(word, &fields[..9], to)
    } else {
        write_line(word, &fields, to)
    }
}

/// A word, a form and the counts of a configuration. With their words it is the first line of
/// schedules, traces and transcripts.
#[tactic(auto, using(crate::proofs::LineLemmas::first_form))]
pub fn counts_line(word: &str, form: u8, config: Config, to: &mut Vec<u8>) -> Result<(), NoMemory>
    ensures ok { OnOk result (to.new.items
        ≡ to.old.items ++ texts.counts_line word.now form config) }
    ensures err { OnErr result (to.new.items ≡ to.old.items) }
{
    let fields = [
        Field::Number(u64::from(form)),
        Field::Word("replicas"),
        Field::Number(u64::from(config.replicas())),
        Field::Word("sequencers"),
        Field::Number(u64::from(config.sequencers())),
        Field::Word("clients"),
        Field::Number(u64::from(config.clients())),
    ];
    if form == 1 {
        write_line(word, &fields, to)
    } else {
        counted_line(word, form, config, to)
    }
}

/// The first line of a transcript, in the form of its schedule's header.
#[tactic(auto, unfolding(crate::specs::Transcript::transcript_line))]
pub fn transcript_line(form: u8, config: Config, to: &mut Vec<u8>) -> Result<(), NoMemory>
    requires { IsTrue (gives form config) }
    ensures ok { OnOk result (to.new.items ≡ to.old.items ++ texts.transcript_line form config) }
    ensures err { OnErr result (to.new.items ≡ to.old.items) }
{
    counts_line("transcript", form, config, to)
}

/// An event came to a crashed actor.
#[tactic(auto, unfolding(crate::specs::Transcript::dead_line))]
pub fn dead_line(actor: Actor, to: &mut Vec<u8>) -> Result<(), NoMemory>
    ensures ok { OnOk result (to.new.items ≡ to.old.items ++ texts.dead_line actor) }
    ensures err { OnErr result (to.new.items ≡ to.old.items) }
{
    write_line("dead", &[Field::Name(actor)], to)
}

/// A client submitted a request.
#[tactic(auto, unfolding(crate::specs::Transcript::submit_line))]
pub fn submit_line(request: &Request, to: &mut Vec<u8>) -> Result<(), NoMemory>
    ensures ok { OnOk result (to.new.items ≡ to.old.items ++ texts.submit_line request.now) }
    ensures err { OnErr result (to.new.items ≡ to.old.items) }
{
    let fields = [
        Field::Name(Actor::Client(request.client)),
        Field::Number(request.id),
        Field::Hex(request.op.as_slice()),
    ];
    write_line("submit", &fields, to)
}

/// A client took a result.
#[tactic(auto, unfolding(crate::specs::Transcript::accept_line))]
pub fn accept_line(client: u32, id: u64, answer: &Bytes, to: &mut Vec<u8>) -> Result<(), NoMemory>
    ensures ok { OnOk result (to.new.items ≡ to.old.items
        ++ texts.accept_line client id answer.now) }
    ensures err { OnErr result (to.new.items ≡ to.old.items) }
{
    let fields = [
        Field::Name(Actor::Client(client)),
        Field::Number(id),
        Field::Hex(answer.as_slice()),
    ];
    write_line("accept", &fields, to)
}

/// A client could not take an op.
#[tactic(auto, unfolding(crate::specs::Transcript::busy_line))]
pub fn busy_line(client: u32, to: &mut Vec<u8>) -> Result<(), NoMemory>
    ensures ok { OnOk result (to.new.items ≡ to.old.items ++ texts.busy_line client) }
    ensures err { OnErr result (to.new.items ≡ to.old.items) }
{
    write_line("busy", &[Field::Name(Actor::Client(client))], to)
}

/// A client asked an observer for a key.
#[tactic(auto, unfolding(crate::specs::Transcript::read_line))]
pub fn read_line(
    client: u32,
    id: u64,
    observer: u8,
    key: &Key,
    to: &mut Vec<u8>,
) -> Result<(), NoMemory>
    ensures ok { OnOk result (to.new.items ≡ to.old.items
        ++ texts.read_line client id observer key.now) }
    ensures err { OnErr result (to.new.items ≡ to.old.items) }
{
    let fields = [
        Field::Name(Actor::Client(client)),
        Field::Number(id),
        Field::Name(Actor::Observer(observer)),
        Field::Hex(key.as_slice()),
    ];
    write_line("read", &fields, to)
}

/// A client took the answer to a read, from the state after the first `position` slots.
#[tactic(auto, using(crate::proofs::LineLemmas::answer_fields))]
pub fn answer_line(
    client: u32,
    id: u64,
    observer: u8,
    position: u32,
    answer: &Bytes,
    to: &mut Vec<u8>,
) -> Result<(), NoMemory>
    ensures ok { OnOk result (to.new.items ≡ to.old.items
        ++ texts.answer_line client id observer position answer.now) }
    ensures err { OnErr result (to.new.items ≡ to.old.items) }
{
    let fields = [
        Field::Name(Actor::Client(client)),
        Field::Number(id),
        Field::Name(Actor::Observer(observer)),
        Field::Number(u64::from(position)),
        Field::Hex(answer.as_slice()),
    ];
    write_line("answer", &fields, to)
}

/// The kind of a datagram is its fourth byte.
fn kind_of(datagram: &[u8]) -> u8
    ensures { result ≡ slice_index datagram.now 3 }
{
    match datagram.get(3) {
        Some(kind) => *kind,
        None => 0,
    }
}

/// A datagram was sent, the one with this index of all that were sent, counted from 0.
#[tactic(auto, using(crate::proofs::LineLemmas::send_fields))]
pub fn send_line(
    index: u64,
    from: Actor,
    dest: Dest,
    datagram: &[u8],
    to: &mut Vec<u8>,
) -> Result<(), NoMemory>
    ensures ok { OnOk result (to.new.items ≡ to.old.items
        ++ texts.send_line index from dest datagram.now) }
    ensures err { OnErr result (to.new.items ≡ to.old.items) }
{
    let fields = [
        Field::Number(index),
        Field::Name(from),
        Field::To(dest),
        Field::Kind(kind_of(datagram)),
        Field::Number(datagram.len() as u64),
    ];
    write_line("send", &fields, to)
}

/// How a replica stands at the end, with the lengths of its log and of its synchronised prefix.
#[tactic(auto, using(crate::proofs::LineLemmas::replica_fields))]
pub fn replica_line(
    number: u8,
    crashed: bool,
    status: Phase,
    view: View,
    len: u32,
    sync_point: u32,
    to: &mut Vec<u8>,
) -> Result<(), NoMemory>
    ensures ok { OnOk result (to.new.items ≡ to.old.items
        ++ texts.replica_line number crashed status view len sync_point) }
    ensures err { OnErr result (to.new.items ≡ to.old.items) }
{
    let fields = [
        Field::Name(Actor::Replica(number)),
        Field::Crashed(crashed),
        Field::Status(status),
        Field::Number(u64::from(view.leader)),
        Field::Number(view.session),
        Field::Number(u64::from(len)),
        Field::Number(u64::from(sync_point)),
    ];
    write_line("replica", &fields, to)
}

/// How an observer stands at the end: from the state after the first `position` slots it answers.
#[tactic(auto, using(crate::proofs::LineLemmas::observer_fields))]
pub fn observer_line(
    number: u8,
    crashed: bool,
    position: u32,
    to: &mut Vec<u8>,
) -> Result<(), NoMemory>
    ensures ok { OnOk result (to.new.items
        ≡ to.old.items ++ texts.observer_line number crashed position) }
    ensures err { OnErr result (to.new.items ≡ to.old.items) }
{
    let fields = [
        Field::Name(Actor::Observer(number)),
        Field::Crashed(crashed),
        Field::Number(u64::from(position)),
    ];
    write_line("observer", &fields, to)
}

#[tactic(auto, unfolding(crate::specs::Transcript::entry_line))]
fn no_op_line(replica: u8, slot: u32, to: &mut Vec<u8>) -> Result<(), NoMemory>
    ensures ok { OnOk result (to.new.items ≡ to.old.items
        ++ texts.entry_line replica slot Entry.NoOp) }
    ensures err { OnErr result (to.new.items ≡ to.old.items) }
{
    let fields = [
        Field::Name(Actor::Replica(replica)),
        Field::Number(u64::from(slot)),
        Field::Word("noop"),
    ];
    write_line("entry", &fields, to)
}

#[tactic(auto, unfolding(crate::specs::Transcript::entry_line))]
fn request_line(replica: u8, slot: u32, request: &Request, to: &mut Vec<u8>) -> Result<(), NoMemory>
    ensures ok { OnOk result (to.new.items ≡ to.old.items
        ++ texts.entry_line replica slot (Entry.Req request.now)) }
    ensures err { OnErr result (to.new.items ≡ to.old.items) }
{
    let fields = [
        Field::Name(Actor::Replica(replica)),
        Field::Number(u64::from(slot)),
        Field::Name(Actor::Client(request.client)),
        Field::Number(request.id),
        Field::Hex(request.op.as_slice()),
    ];
    write_line("entry", &fields, to)
}

/// What is in a slot of a replica's log.
pub fn entry_line(replica: u8, slot: u32, entry: &Entry, to: &mut Vec<u8>) -> Result<(), NoMemory>
    ensures ok { OnOk result (to.new.items ≡ to.old.items
        ++ texts.entry_line replica slot entry.now) }
    ensures err { OnErr result (to.new.items ≡ to.old.items) }
{
    match entry {
        Entry::NoOp => no_op_line(replica, slot, to),
        Entry::Req(request) => request_line(replica, slot, request, to),
    }
}

/// A request of the history, with its place there, counted from 1.
#[tactic(auto, unfolding(crate::specs::Transcript::history_line))]
pub fn history_line(index: u32, request: &Request, to: &mut Vec<u8>) -> Result<(), NoMemory>
    ensures ok { OnOk result (to.new.items ≡ to.old.items ++ texts.history_line index
        request.now) }
    ensures err { OnErr result (to.new.items ≡ to.old.items) }
{
    let fields = [
        Field::Number(u64::from(index)),
        Field::Name(Actor::Client(request.client)),
        Field::Number(request.id),
        Field::Hex(request.op.as_slice()),
    ];
    write_line("history", &fields, to)
}

#[tactic(auto, unfolding(crate::specs::Transcript::error_line))]
fn rule_line(line: u32, rule: u8, to: &mut Vec<u8>) -> Result<(), NoMemory>
    ensures ok { OnOk result (to.new.items ≡ to.old.items ++ texts.error_line line rule None) }
    ensures err { OnErr result (to.new.items ≡ to.old.items) }
{
    let fields = [
        Field::Word("line"),
        Field::Number(u64::from(line)),
        Field::Word("rule"),
        Field::Number(u64::from(rule)),
    ];
    write_line("error", &fields, to)
}

#[tactic(auto, unfolding(crate::specs::Transcript::error_line))]
fn datagram_line(
    line: u32,
    rule: u8,
    index: u64,
    sent: u64,
    to: &mut Vec<u8>,
) -> Result<(), NoMemory>
    ensures ok { OnOk result (to.new.items ≡ to.old.items
        ++ texts.error_line line rule (Some (index, sent))) }
    ensures err { OnErr result (to.new.items ≡ to.old.items) }
{
    let fields = [
        Field::Word("line"),
        Field::Number(u64::from(line)),
        Field::Word("rule"),
        Field::Number(u64::from(rule)),
        Field::Word("index"),
        Field::Number(index),
        Field::Word("sent"),
        Field::Number(sent),
    ];
    write_line("error", &fields, to)
}

/// A bad line, counted from 1, and the rule that it breaks. Where it delivers a datagram that was
/// not sent, also the datagram's index and how many were sent.
pub fn error_line(
    line: u32,
    rule: u8,
    index_sent: Option<(u64, u64)>,
    to: &mut Vec<u8>,
) -> Result<(), NoMemory>
    ensures ok { OnOk result (to.new.items ≡ to.old.items
        ++ texts.error_line line rule index_sent) }
    ensures err { OnErr result (to.new.items ≡ to.old.items) }
{
    match index_sent {
        None => rule_line(line, rule, to),
        Some((index, sent)) => datagram_line(line, rule, index, sent, to),
    }
}

/// The last line of a whole transcript.
#[tactic(auto, unfolding(crate::specs::Transcript::end_line))]
pub fn end_line(to: &mut Vec<u8>) -> Result<(), NoMemory>
    ensures ok { OnOk result (to.new.items ≡ to.old.items ++ texts.end_line) }
    ensures err { OnErr result (to.new.items ≡ to.old.items) }
{
    write_line("end", &[], to)
}
