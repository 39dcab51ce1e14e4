//! What single fields of a row spell.

ghost use Rattle.std.specs.Prelude.{◌≡◌, ◌^◌, IfOk};
ghost use Rattle.line_fields.specs.Fields.{actor_of};
ghost use Rattle.transcript_rows.specs.Reading.{limits, client_of, replica_of, observer_of};
ghost use Rattle.transcript_rows.specs.Reading.{word_of, dest_of, kind_of, crashed_of, status_of};
ghost use Rattle.transcript_rows.specs.Reading.{op_of};

use line_fields::{is_word, number};
use nop_types::{
    Actor, Config, Dest, MAX_CLIENTS, MAX_CONTROLLERS, MAX_OBSERVERS, MAX_OP_BYTES, MAX_REPLICAS,
    MAX_SEQUENCERS, NoMemory, Op, Phase, kinds,
};
use std::alloc::Global;

/// The most characters of an op.
const MAX_OP_TEXT: usize = 2 * MAX_OP_BYTES;

/// As many actors as there may be.
fn limits() -> Config
    ensures { result ≡ limits }
{
    match Config::new(
        MAX_REPLICAS,
        MAX_SEQUENCERS,
        MAX_CLIENTS,
        MAX_CONTROLLERS,
        MAX_OBSERVERS,
    ) {
        Some(limits) => limits,
        None => unreachable!(),
    }
}

pub(crate) fn actor(field: &[u8]) -> Option<Actor>
    ensures { result ≡ actor_of limits field.now }
{
    line_fields::actor(limits(), field)
}

pub(crate) fn client(field: &[u8]) -> Option<u32>
    ensures { result ≡ client_of field.now }
{
    match actor(field) {
        Some(Actor::Client(number)) => Some(number),
        _ => None,
    }
}

pub(crate) fn replica(field: &[u8]) -> Option<u8>
    ensures { result ≡ replica_of field.now }
{
    match actor(field) {
        Some(Actor::Replica(number)) => Some(number),
        _ => None,
    }
}

pub(crate) fn observer(field: &[u8]) -> Option<u8>
    ensures { result ≡ observer_of field.now }
{
    match actor(field) {
        Some(Actor::Observer(number)) => Some(number),
        _ => None,
    }
}

/// A number of 32 bits.
pub(crate) fn word(field: &[u8]) -> Option<u32>
    ensures { result ≡ word_of field.now }
{
    let n = number(field)?;
    if n < 0x1_0000_0000 {
        Some(n as u32)
    } else {
        None
    }
}

#[tactic(auto, unfolding(crate::specs::Reading::dest_of))]
pub(crate) fn dest(field: &[u8]) -> Option<Dest>
    ensures { result ≡ dest_of field.now }
{
    if is_word(field, "r*") {
        return Some(Dest::Replicas);
    }
    if is_word(field, "s*") {
        return Some(Dest::Sequencers);
    }
    match actor(field) {
        Some(actor) => Some(Dest::One(actor)),
        None => None,
    }
}

/// The kind that a word names, as a datagram's fourth byte has it.
#[tactic(auto, unfolding(crate::specs::Reading::kind_of))]
pub(crate) fn kind(field: &[u8]) -> Option<u8>
    ensures { result ≡ kind_of field.now }
{
    if is_word(field, "request") {
        return Some(kinds::REQUEST);
    }
    if is_word(field, "stamped") {
        return Some(kinds::STAMPED);
    }
    if is_word(field, "reply") {
        return Some(kinds::REPLY);
    }
    if is_word(field, "install") {
        return Some(kinds::INSTALL);
    }
    if is_word(field, "installed") {
        return Some(kinds::INSTALLED);
    }
    if is_word(field, "ping") {
        return Some(kinds::PING);
    }
    if is_word(field, "pong") {
        return Some(kinds::PONG);
    }
    if is_word(field, "fragment") {
        return Some(kinds::FRAGMENT);
    }
    if is_word(field, "read") {
        return Some(kinds::READ);
    }
    if is_word(field, "answer") {
        return Some(kinds::ANSWER);
    }
    None
}

pub(crate) fn crashed(field: &[u8]) -> bool
    ensures { result ≡ crashed_of field.now }
{
    is_word(field, "crashed")
}

pub(crate) fn status(field: &[u8]) -> Phase
    ensures { result ≡ status_of field.now }
{
    if is_word(field, "normal") {
        Phase::Normal
    } else {
        Phase::Change
    }
}

/// An op in hexadecimal, if it is not too long.
pub(crate) fn op(alloc: Global, field: &[u8]) -> Result<Option<Op>, NoMemory>
    ensures { IfOk result (λ op. op ≡ op_of field.now) }
{
    if field.len() > MAX_OP_TEXT {
        return Ok(None);
    }
    line_fields::op(alloc, field)
}
