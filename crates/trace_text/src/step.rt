//! The lines of a step.

ghost use Rattle.std.specs.Prelude.{◌≡◌, ◌++◌, ◌∷◌, [], codes, decimal, Some, None, unwrap_or};
ghost use Rattle.std.specs.Prelude.{OnOk, OnErr, MatchOption};
ghost use Rattle.std.specs.List.{concat};
ghost use Rattle.nop_types.specs.Given.{Submit, Ticked, given};
ghost use Rattle.nop_types.specs.Lists.{IsPrefixOf};
ghost use Rattle.trace_text.specs.Traces.{asked_or, in_line, out_line, out_lines};
ghost use Rattle.trace_text.specs.Traces.{out_text, submitted, taken, trace_lines};
ghost use Rattle.transcript_text.specs.Transcript.{dest_text, hex_text, observer_text};

use nop_types::{Actor, Dest, Input, NoMemory, Op, Out, Tick};
use schedule_text::tick_word;
use transcript_text::{Field, write_line};

// ---- what a step took

/// The op that was submitted.
fn submitted(outs: &[Out]) -> Option<&Op>
    ensures { MatchOption result (submitted outs.now ≡ None)
        (λ op. submitted outs.now ≡ Some (Submit op.now)) }
{
    for out in outs {
        if let Out::Submitted(request) = out {
            return Some(&request.op);
        }
    }
    None
}

/// The read that was begun, or else the input.
fn asked_or<'a>(input: Input<'a>, outs: &'a [Out]) -> Input<'a>
    ensures { given result ≡ asked_or (given input.entry) outs.now }
{
    for out in outs {
        if let Out::Reading { observer, key, .. } = out {
            return Input::Read(*observer, key);
        }
    }
    input
}

/// What the step took; None where a client had no op to submit.
fn taken<'a>(input: Input<'a>, outs: &'a [Out]) -> Option<Input<'a>>
    ensures { MatchOption result (taken (given input.entry) outs.now ≡ None)
        (λ x. taken (given input.entry) outs.now ≡ Some (given x)) }
{
    match input {
        Input::Tick(Tick::Next) => Some(Input::Submit(submitted(outs)?)),
        Input::Tick(Tick::Retry) => Some(asked_or(input, outs)),
        _ => Some(input),
    }
}

// ---- its lines

/// No line for the tick Next.
fn put_tick(actor: Actor, tick: Tick, to: &mut Vec<u8>) -> Result<(), NoMemory>
    ensures ok { OnOk result (to.new.items
        ≡ to.old.items ++ unwrap_or (in_line actor (Ticked tick)) []) }
    ensures err { OnErr result (to.new.items ≡ to.old.items) }
{
    let name = Field::Name(actor);
    match tick {
        Tick::Next => Ok(()),
        Tick::Install(number) => {
            let sequencer = Field::Name(Actor::Sequencer(number));
            write_line("in", &[name, Field::Word("install"), sequencer], to)
        }
        _ => {
            let word = Field::Word(tick_word(tick));
            write_line("in", &[name, Field::Word("tick"), word], to)
        }
    }
}

fn put_in(actor: Actor, input: Input<'_>, to: &mut Vec<u8>) -> Result<(), NoMemory>
    ensures ok { OnOk result (to.new.items
        ≡ to.old.items ++ unwrap_or (in_line actor (given input.entry)) []) }
    ensures err { OnErr result (to.new.items ≡ to.old.items) }
{
    let name = Field::Name(actor);
    match input {
        Input::Packet(bytes) => {
            let fields = [name, Field::Word("packet"), Field::Hex(bytes)];
            write_line("in", &fields, to)
        }
        Input::Tick(tick) => put_tick(actor, tick, to),
        Input::Submit(op) => {
            let fields = [name, Field::Word("submit"), Field::Hex(op.as_slice())];
            write_line("in", &fields, to)
        }
        Input::Read(observer, key) => {
            let fields = [
                name,
                Field::Word("read"),
                Field::Name(Actor::Observer(observer)),
                Field::Hex(key.as_slice()),
            ];
            write_line("in", &fields, to)
        }
    }
}

/// A word, an id and bytes.
fn put_pair<'a>(
    actor: Actor,
    word: &'a str,
    id: u64,
    bytes: &'a [u8],
    to: &mut Vec<u8>,
) -> Result<(), NoMemory>
    ensures ok { OnOk result (to.new.items ≡ to.old.items
        ++ out_text actor (word.now ∷ decimal id ∷ hex_text bytes.now ∷ [])) }
    ensures err { OnErr result (to.new.items ≡ to.old.items) }
{
    let fields = [
        Field::Name(actor),
        Field::Word(word),
        Field::Number(id),
        Field::Hex(bytes),
    ];
    write_line("out", &fields, to)
}

fn put_sent(actor: Actor, dest: Dest, bytes: &[u8], to: &mut Vec<u8>) -> Result<(), NoMemory>
    ensures ok { OnOk result (to.new.items ≡ to.old.items
        ++ out_text actor (codes "send" ∷ dest_text dest ∷ hex_text bytes.now ∷ [])) }
    ensures err { OnErr result (to.new.items ≡ to.old.items) }
{
    let fields = [
        Field::Name(actor),
        Field::Word("send"),
        Field::To(dest),
        Field::Hex(bytes),
    ];
    write_line("out", &fields, to)
}

fn put_read(
    actor: Actor,
    id: u64,
    observer: u8,
    key: &[u8],
    to: &mut Vec<u8>,
) -> Result<(), NoMemory>
    ensures ok { OnOk result (to.new.items ≡ to.old.items ++ out_text actor
        (codes "read" ∷ decimal id ∷ observer_text observer ∷ hex_text key.now ∷ [])) }
    ensures err { OnErr result (to.new.items ≡ to.old.items) }
{
    let fields = [
        Field::Name(actor),
        Field::Word("read"),
        Field::Number(id),
        Field::Name(Actor::Observer(observer)),
        Field::Hex(key),
    ];
    write_line("out", &fields, to)
}

fn put_answer(
    actor: Actor,
    id: u64,
    observer: u8,
    position: u32,
    answer: &[u8],
    to: &mut Vec<u8>,
) -> Result<(), NoMemory>
    ensures ok { OnOk result (to.new.items ≡ to.old.items ++ out_text actor
        (codes "answer" ∷ decimal id ∷ observer_text observer ∷ decimal position
        ∷ hex_text answer.now ∷ [])) }
    ensures err { OnErr result (to.new.items ≡ to.old.items) }
{
    let fields = [
        Field::Name(actor),
        Field::Word("answer"),
        Field::Number(id),
        Field::Name(Actor::Observer(observer)),
        Field::Number(u64::from(position)),
        Field::Hex(answer),
    ];
    write_line("out", &fields, to)
}

fn put_out(actor: Actor, out: &Out, to: &mut Vec<u8>) -> Result<(), NoMemory>
    ensures ok { OnOk result (to.new.items
        ≡ to.old.items ++ unwrap_or (out_line actor out.now) []) }
    ensures err { OnErr result (to.new.items ≡ to.old.items) }
{
    match out {
        Out::Send(dest, bytes) => put_sent(actor, *dest, bytes.as_slice(), to),
        Out::Submitted(request) => {
            put_pair(actor, "submit", request.id, request.op.as_slice(), to)
        }
        Out::Accepted { id, result, .. } => {
            put_pair(actor, "accept", *id, result.as_slice(), to)
        }
        Out::Reading {
            id,
            observer,
            key,
            ..
        } => put_read(actor, *id, *observer, key.as_slice(), to),
        Out::Answered {
            id,
            observer,
            position,
            result,
            ..
        } => put_answer(actor, *id, *observer, *position, result.as_slice(), to),
        Out::Busy(_) | Out::Trimmed { .. } => Ok(()),
    }
}

fn put_outs(actor: Actor, outs: &[Out], to: &mut Vec<u8>) -> Result<(), NoMemory>
    ensures ok { OnOk result (to.new.items
        ≡ to.old.items ++ concat (out_lines actor outs.now)) }
    ensures err { OnErr result (IsPrefixOf to.old.items to.new.items) }
{
    for out in outs {
        put_out(actor, out, to)?;
    }
    Ok(())
}

fn put_step(actor: Actor, input: Input<'_>, outs: &[Out], to: &mut Vec<u8>) -> Result<(), NoMemory>
    ensures ok { OnOk result (to.new.items
        ≡ to.old.items ++ concat (trace_lines actor (given input.entry) outs.now)) }
    ensures err { OnErr result (IsPrefixOf to.old.items to.new.items) }
{
    let Some(input) = taken(input, outs) else {
        return Ok(());
    };
    put_in(actor, input, to)?;
    put_outs(actor, outs, to)
}

/// Appends the lines of a step, of what an actor took and what it gave.
pub fn trace_step(
    actor: Actor,
    input: Input<'_>,
    outs: &[Out],
    to: &mut Vec<u8>,
) -> Result<(), NoMemory>
    ensures ok { OnOk result (to.new.items
        ≡ to.old.items ++ concat (trace_lines actor (given input.entry) outs.now)) }
    ensures err { OnErr result (to.new.items ≡ to.old.items) }
{
    let len = to.len();
    let written = put_step(actor, input, outs, to);
    if written.is_err() {
        to.truncate(len);
    }
    written
}
