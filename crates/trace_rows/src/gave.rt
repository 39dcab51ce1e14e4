//! What a step gave, by the fields behind the actor's name.

ghost use Rattle.std.specs.Prelude.{◌≡◌, IfOk};
ghost use Rattle.std.specs.Option.{option_copied};
ghost use Rattle.line_fields.specs.Split.{other_fields};
ghost use Rattle.trace_rows.specs.Reading.{accept_gave, answer_gave, gave_of, read_gave, send_gave};
ghost use Rattle.trace_rows.specs.Reading.{short_gave, submit_gave};

use crate::fields::{bytes, id, op, position};
use crate::names::{observer, to};
use crate::row::Gave;
use line_fields::{is_word, key, next_field};
use nop_types::{MAX_DATAGRAM_BYTES, MAX_RESULT_BYTES, NoMemory};
use std::alloc::Global;

/// `send TO HEX`
fn send(alloc: Global, dest: &[u8], text: &[u8]) -> Result<Option<Gave>, NoMemory>
    ensures { IfOk result (λ gave. gave ≡ send_gave dest.now text.now) }
{
    let Some(to) = to(dest) else {
        return Ok(None);
    };
    match bytes(alloc, MAX_DATAGRAM_BYTES, text)? {
        Some(bytes) => Ok(Some(Gave::Send(to, bytes))),
        None => Ok(None),
    }
}

/// `submit ID HEX`
fn submit(alloc: Global, number: &[u8], text: &[u8]) -> Result<Option<Gave>, NoMemory>
    ensures { IfOk result (λ gave. gave ≡ submit_gave number.now text.now) }
{
    let Some(id) = id(number) else {
        return Ok(None);
    };
    match op(alloc, text)? {
        Some(op) => Ok(Some(Gave::Submit(id, op))),
        None => Ok(None),
    }
}

/// `accept ID HEX`
fn accept(alloc: Global, number: &[u8], text: &[u8]) -> Result<Option<Gave>, NoMemory>
    ensures { IfOk result (λ gave. gave ≡ accept_gave number.now text.now) }
{
    let Some(id) = id(number) else {
        return Ok(None);
    };
    match bytes(alloc, MAX_RESULT_BYTES, text)? {
        Some(result) => Ok(Some(Gave::Accept(id, result))),
        None => Ok(None),
    }
}

/// `read ID oM HEX`
fn read(alloc: Global, number: &[u8], of: &[u8], text: &[u8]) -> Result<Option<Gave>, NoMemory>
    ensures { IfOk result (λ gave. gave ≡ read_gave number.now of.now text.now) }
{
    let Some(id) = id(number) else {
        return Ok(None);
    };
    let Some(observer) = observer(of) else {
        return Ok(None);
    };
    match key(alloc, text)? {
        Some(key) => Ok(Some(Gave::Read(id, observer, key))),
        None => Ok(None),
    }
}

/// `answer ID oM POSITION HEX`
fn answer(
    alloc: Global,
    number: &[u8],
    of: &[u8],
    place: &[u8],
    text: &[u8],
) -> Result<Option<Gave>, NoMemory>
    ensures { IfOk result (λ gave. gave ≡ answer_gave number.now of.now place.now text.now) }
{
    let Some(id) = id(number) else {
        return Ok(None);
    };
    let Some(observer) = observer(of) else {
        return Ok(None);
    };
    let Some(position) = position(place) else {
        return Ok(None);
    };
    match bytes(alloc, MAX_RESULT_BYTES, text)? {
        Some(result) => Ok(Some(Gave::Answer(id, observer, position, result))),
        None => Ok(None),
    }
}

/// A word and two more fields.
fn short(alloc: Global, word: &[u8], first: &[u8], second: &[u8]) -> Result<Option<Gave>, NoMemory>
    ensures { IfOk result (λ gave. gave ≡ short_gave word.now first.now second.now) }
{
    if is_word(word, "send") {
        return send(alloc, first, second);
    }
    if is_word(word, "submit") {
        return submit(alloc, first, second);
    }
    if is_word(word, "accept") {
        return accept(alloc, first, second);
    }
    Ok(None)
}

/// What the fields behind the name say that the actor gave.
pub(crate) fn gave(alloc: Global, rest: Option<&[u8]>) -> Result<Option<Gave>, NoMemory>
    ensures { IfOk result (λ gave. gave
        ≡ gave_of (other_fields (option_copied rest.entry))) }
{
    let Some((word, rest)) = next_field(rest) else {
        return Ok(None);
    };
    let Some((first, rest)) = next_field(rest) else {
        return Ok(None);
    };
    let Some((second, rest)) = next_field(rest) else {
        return Ok(None);
    };
    let Some((third, rest)) = next_field(rest) else {
        return short(alloc, word, first, second);
    };
    let Some((fourth, rest)) = next_field(rest) else {
        if is_word(word, "read") {
            return read(alloc, first, second, third);
        }
        return Ok(None);
    };
    if next_field(rest).is_some() || !is_word(word, "answer") {
        return Ok(None);
    }
    answer(alloc, first, second, third, fourth)
}
