//! What single fields spell.

ghost use Rattle.std.specs.Prelude.{◌≡◌, ◌*◌, ◌≤◌, length, IfOk};
ghost use Rattle.line_fields.specs.Fields.{actor_of, as_key, by_number, bytes_of, digit_on, key_of};
ghost use Rattle.line_fields.specs.Fields.{lettered, number_of, number_on, number_below};

use crate::split::is_word;
use nop_types::{Actor, Bytes, Config, Key, MAX_KEY_BYTES, MAX_OP_BYTES, NoMemory, Op};
use std::alloc::Global;

fn digit(n: u64, d: u8) -> Option<u64>
    ensures { result ≡ digit_on n d }
{
    if d < b'0' || b'9' < d {
        return None;
    }
    n.checked_mul(10)?.checked_add(u64::from(d - b'0'))
}

fn digits(text: &[u8]) -> Option<u64>
    ensures { result ≡ number_on (Some 0) text.now }
{
    let mut n = 0u64;
    for d in text {
        match digit(n, *d) {
            Some(more) => n = more,
            None => return None,
        }
    }
    Some(n)
}

/// A number of 64 bits in decimal, without leading zeros.
#[tactic(auto, unfolding(crate::specs::Fields::number_of))]
pub fn number(field: &[u8]) -> Option<u64>
    ensures { result ≡ number_of field.now }
{
    match field {
        [] | [b'0', _, ..] => None,
        _ => digits(field),
    }
}

/// A number below a limit.
pub fn small_number(limit: u64, field: &[u8]) -> Option<u8>
    requires { limit ≤ 256 }
    ensures { result ≡ number_below limit field.now }
{
    let n = number(field)?;
    if n < limit { Some(n as u8) } else { None }
}

fn numbered(count: u8, digits: &[u8]) -> Option<u8>
    ensures { result ≡ number_below count digits.now }
{
    small_number(u64::from(count), digits)
}

fn lettered(config: Config, letter: u8, digits: &[u8]) -> Option<Actor>
    ensures { result ≡ lettered config letter digits.now }
{
    match letter {
        b'r' => Some(Actor::Replica(numbered(config.replicas(), digits)?)),
        b's' => Some(Actor::Sequencer(numbered(config.sequencers(), digits)?)),
        b'c' => Some(Actor::Client(u32::from(numbered(config.clients(), digits)?))),
        b'o' => Some(Actor::Observer(numbered(config.observers(), digits)?)),
        _ => None,
    }
}

/// A controller by what follows `ctl`, a number from 1.
fn numbered_controller(config: Config, digits: &[u8]) -> Option<Actor>
    ensures { result ≡ by_number config digits.now }
{
    match numbered(config.controllers(), digits)? {
        0 => None,
        number => Some(Actor::Controller(number)),
    }
}

/// An actor of the configuration.
#[tactic(auto, unfolding(crate::specs::Fields::actor_of))]
pub fn actor(config: Config, field: &[u8]) -> Option<Actor>
    ensures { result ≡ actor_of config field.now }
{
    if is_word(field, "ctl") {
        return Some(Actor::Controller(0));
    }
    match field {
        [] => None,
        [b'c', b't', b'l', digits @ ..] => numbered_controller(config, digits),
        [letter, digits @ ..] => lettered(config, *letter, digits),
    }
}

/// Bytes in hexadecimal, `-` for none.
#[tactic(auto, unfolding(crate::specs::Fields::bytes_of))]
pub fn bytes(alloc: Global, field: &[u8]) -> Result<Option<Bytes>, NoMemory>
    ensures { IfOk result (λ bytes. bytes ≡ bytes_of field.now) }
{
    if field.is_empty() {
        return Ok(None);
    }
    if is_word(field, "-") {
        return Ok(Some(Bytes::from_vec(Vec::new(alloc))));
    }
    match hex::decode(alloc, field) {
        Ok(bytes) => Ok(Some(Bytes::from_vec(bytes))),
        Err(hex::FromHexError::OutOfMemory) => Err(NoMemory),
        Err(_) => Ok(None),
    }
}

/// An op in hexadecimal.
pub fn op(alloc: Global, field: &[u8]) -> Result<Option<Op>, NoMemory>
    requires { length field.now ≤ 2 * MAX_OP_BYTES }
    ensures { IfOk result (λ op. op ≡ bytes_of field.now) }
{
    match bytes(alloc, field)? {
        Some(bytes) => Ok(Some(Op::from_vec(bytes.into_vec()))),
        None => Ok(None),
    }
}

fn as_key(bytes: Bytes) -> Option<Key>
    ensures { result ≡ as_key bytes }
{
    let len = bytes.as_slice().len();
    if 1 <= len && len <= MAX_KEY_BYTES {
        Some(Key::from_vec(bytes.into_vec()))
    } else {
        None
    }
}

/// A key in hexadecimal, of 1 to `MAX_KEY_BYTES` bytes.
pub fn key(alloc: Global, field: &[u8]) -> Result<Option<Key>, NoMemory>
    ensures { IfOk result (λ key. key ≡ key_of field.now) }
{
    match bytes(alloc, field)? {
        Some(bytes) => Ok(as_key(bytes)),
        None => Ok(None),
    }
}
