//! Scripts: turns of cores, with what each gives.
use crate::rows::{bytes_of, check_text, put_entries, put_line};
use nop_types::{Core, Dest, Input, Log, MAX_OP_BYTES, Op, Out, Outbox, Tick};
use std::alloc::Global;
use std::process::Abort;

/// A tick by its name, or `install I`.
fn tick_of(rt: &impl Abort, name: &str) -> Tick {
    match name {
        "suspect" => Tick::Suspect,
        "watch" => Tick::Watch,
        "resend" => Tick::Resend,
        "sync" => Tick::Sync,
        "retry" => Tick::Retry,
        "next" => Tick::Next,
        "probe" => Tick::Probe,
        _ => {
            let number = name.strip_prefix("install ").expect(rt, "no such tick");
            Tick::Install(number.parse::<u8>().expect(rt, "a number"))
        }
    }
}

/// The bytes of an input: none of a tick, a datagram that was sent, or in hexadecimal.
fn bytes_in(rt: &impl Abort, alloc: Global, kind: &str, rest: &str, sent: &Outbox) -> Vec<u8> {
    match kind {
        "tick" => Vec::new(alloc),
        "sent" => {
            let place = rest.parse::<usize>().expect(rt, "a number");
            match sent.as_slice().get(place) {
                Some(Out::Send(_, bytes)) => bytes.as_slice().to_vec(alloc).expect(rt, "memory"),
                _ => panic!(rt; "no datagram"),
            }
        }
        _ => bytes_of(rt, alloc, rest),
    }
}

/// The op with these bytes, if they are few enough.
fn op_of(rt: &impl Abort, alloc: Global, bytes: &[u8]) -> Op {
    if bytes.len() > MAX_OP_BYTES {
        return Op::from_vec(Vec::new(alloc));
    }
    Op::new(alloc, bytes).expect(rt, "memory")
}

/// A core takes an input: a packet in hexadecimal, an output that was sent, an op in hexadecimal,
/// or a tick.
fn take<C: Core>(
    rt: &impl Abort,
    alloc: Global,
    core: &mut C,
    input: &str,
    sent: &Outbox,
) -> Outbox {
    let (kind, rest) = input.split_once(' ').expect(rt, "an input");
    let bytes = bytes_in(rt, alloc, kind, rest, sent);
    let op = op_of(rt, alloc, &bytes);
    let input = match kind {
        "tick" => Input::Tick(tick_of(rt, rest)),
        "submit" => Input::Submit(&op),
        _ => Input::Packet(&bytes),
    };
    let mut out = Outbox::new(alloc);
    core.step(input, &mut out).expect(rt, "memory");
    out
}

/// A datagram with its destination and its bytes, or how many they are where they are many.
fn text_of_send(rt: &impl Abort, alloc: Global, dest: &Dest, bytes: &[u8]) -> String {
    let len = bytes.len();
    if len > 92 {
        return format!(in alloc; "{dest:?} {len} bytes").expect(rt, "memory");
    }
    let digits = hex::encode(alloc, bytes).expect(rt, "memory");
    format!(in alloc; "{dest:?} {digits}").expect(rt, "memory")
}

fn text_of_accept(rt: &impl Abort, alloc: Global, id: u64, answer: &[u8]) -> String {
    let digits = hex::encode(alloc, answer).expect(rt, "memory");
    format!(in alloc; "accepted {id} {digits}").expect(rt, "memory")
}

fn text_of_answer(rt: &impl Abort, alloc: Global, id: u64, position: u32, answer: &[u8]) -> String {
    let digits = hex::encode(alloc, answer).expect(rt, "memory");
    format!(in alloc; "answered {id} {position} {digits}").expect(rt, "memory")
}

/// The slot of the first entry that moved out of a log, and the entries.
fn text_of_trimmed(rt: &impl Abort, alloc: Global, first: u32, entries: &Log) -> String {
    let mut text = format!(in alloc; "trimmed {first}").expect(rt, "memory");
    put_entries(rt, alloc, entries.entries(), &mut text);
    text
}

/// An output in few words.
fn text_of(rt: &impl Abort, alloc: Global, out: &Out) -> String {
    match out {
        Out::Send(dest, bytes) => text_of_send(rt, alloc, dest, bytes.as_slice()),
        Out::Submitted(request) => {
            format!(in alloc; "submitted {}", request.id).expect(rt, "memory")
        }
        Out::Accepted { id, result, .. } => text_of_accept(rt, alloc, *id, result.as_slice()),
        Out::Busy(_) => String::from_str(alloc, "busy").expect(rt, "memory"),
        Out::Reading { id, observer, .. } => {
            format!(in alloc; "reading {id} {observer}").expect(rt, "memory")
        }
        Out::Answered {
            id,
            position,
            result,
            ..
        } => text_of_answer(rt, alloc, *id, *position, result.as_slice()),
        Out::Trimmed { first, entries } => text_of_trimmed(rt, alloc, *first, entries),
    }
}

/// Adds a line for each output from this place on.
fn put_outputs(rt: &impl Abort, alloc: Global, sent: &Outbox, from: usize, to: &mut String) {
    let outputs = sent.as_slice();
    for i in from..outputs.len() {
        let text = text_of(rt, alloc, &outputs[i]);
        let line = format!(in alloc; "  {i} {text}").expect(rt, "memory");
        put_line(rt, &line, to);
    }
}

/// One turn: the place of a core, and its input. Its outputs are put behind those that were sent.
fn turn<C: Core>(
    rt: &impl Abort,
    alloc: Global,
    cores: &mut [C],
    sent: &mut Outbox,
    line: &str,
    to: &mut String,
) {
    let (place, input) = line.split_once(' ').expect(rt, "a turn");
    let place = place.parse::<usize>().expect(rt, "a number");
    let core = cores.get_mut(place).expect(rt, "a core");
    let out = take(rt, alloc, core, input, sent);
    let from = sent.as_slice().len();
    sent.append(out).expect(rt, "memory");
    put_line(rt, line, to);
    put_outputs(rt, alloc, sent, from, to);
}

/// Cores take turns. A line has the place of a core and its input; each line below it that is
/// indented has an output of that step, with how many outputs came before it.
pub fn play<C: Core>(
    rt: &impl Abort,
    alloc: Global,
    cores: &mut [C],
    sent: &mut Outbox,
    script: &str,
) {
    let mut given = String::new(alloc);
    for line in script.lines() {
        if !line.starts_with("  ") {
            turn(rt, alloc, cores, sent, line, &mut given);
        }
    }
    check_text(rt, &given, script);
}

/// A core's timers, None past the last.
pub fn timers<C: Core>(rt: &impl Abort, alloc: Global, core: &C) -> String {
    let (first, second) = (core.timer(0), core.timer(1));
    let (third, fourth) = (core.timer(2), core.timer(3));
    format!(in alloc; "{first:?} {second:?} {third:?} {fourth:?}").expect(rt, "memory")
}
