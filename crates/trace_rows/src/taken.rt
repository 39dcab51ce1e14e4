//! What a step took, by the fields behind the actor's name.

ghost use Rattle.std.specs.Prelude.{◌≡◌, IfOk, option_map};
ghost use Rattle.std.specs.Option.{option_copied};
ghost use Rattle.line_fields.specs.Split.{other_fields};
ghost use Rattle.nop_types.specs.declared.limits.TheConstants as limits;
ghost use Rattle.trace_rows.specs.Reading.{bytes_within, read_taken, short_taken, taken_of};
ghost use Rattle.trace_rows.specs.declared.row.Taken.TheVariants as ins;

use crate::fields::{bytes, op};
use crate::names::{observer, sequencer};
use crate::row::Taken;
use line_fields::{is_word, key, next_field};
use nop_types::{MAX_DATAGRAM_BYTES, NoMemory};
use schedule_text::tick_named;
use std::alloc::Global;

/// `packet HEX`
fn packet(alloc: Global, text: &[u8]) -> Result<Option<Taken>, NoMemory>
    ensures { IfOk result (λ taken. taken
        ≡ option_map ins.Packet (bytes_within limits.MAX_DATAGRAM_BYTES text.now)) }
{
    match bytes(alloc, MAX_DATAGRAM_BYTES, text)? {
        Some(bytes) => Ok(Some(Taken::Packet(bytes))),
        None => Ok(None),
    }
}

/// `submit HEX`
fn submit(alloc: Global, text: &[u8]) -> Result<Option<Taken>, NoMemory>
    ensures { IfOk result (λ taken. taken
        ≡ option_map ins.Submit (bytes_within limits.MAX_OP_BYTES text.now)) }
{
    match op(alloc, text)? {
        Some(op) => Ok(Some(Taken::Submit(op))),
        None => Ok(None),
    }
}

/// `read oM HEX`
fn read(alloc: Global, of: &[u8], text: &[u8]) -> Result<Option<Taken>, NoMemory>
    ensures { IfOk result (λ taken. taken ≡ read_taken of.now text.now) }
{
    let Some(number) = observer(of) else {
        return Ok(None);
    };
    match key(alloc, text)? {
        Some(key) => Ok(Some(Taken::Read(number, key))),
        None => Ok(None),
    }
}

/// A word and one more field.
fn short(alloc: Global, word: &[u8], field: &[u8]) -> Result<Option<Taken>, NoMemory>
    ensures { IfOk result (λ taken. taken ≡ short_taken word.now field.now) }
{
    if is_word(word, "tick") {
        return match tick_named(field) {
            Some(tick) => Ok(Some(Taken::Tick(tick))),
            None => Ok(None),
        };
    }
    if is_word(word, "packet") {
        return packet(alloc, field);
    }
    if is_word(word, "submit") {
        return submit(alloc, field);
    }
    if is_word(word, "install") {
        return match sequencer(field) {
            Some(number) => Ok(Some(Taken::Install(number))),
            None => Ok(None),
        };
    }
    Ok(None)
}

/// What the fields behind the name say that the actor took.
pub(crate) fn taken(alloc: Global, rest: Option<&[u8]>) -> Result<Option<Taken>, NoMemory>
    ensures { IfOk result (λ taken. taken
        ≡ taken_of (other_fields (option_copied rest.entry))) }
{
    let Some((word, rest)) = next_field(rest) else {
        return Ok(None);
    };
    let Some((first, rest)) = next_field(rest) else {
        return Ok(None);
    };
    let Some((second, rest)) = next_field(rest) else {
        return short(alloc, word, first);
    };
    if next_field(rest).is_some() || !is_word(word, "read") {
        return Ok(None);
    }
    read(alloc, first, second)
}
