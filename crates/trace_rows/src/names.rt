//! The names of actors.

ghost use Rattle.std.specs.Prelude.{◌≡◌};
ghost use Rattle.std.specs.List.{list_all};
ghost use Rattle.trace_rows.specs.Reading.{by_number, is_decimal, is_digit, lettered, name_of};
ghost use Rattle.trace_rows.specs.Reading.{number_in, observer_number, sequencer_number, to_of};

use crate::row::{Name, Number, To};
use line_fields::{is_word, number, small_number};
use nop_types::MAX_CONTROLLERS;

fn is_digit(b: u8) -> bool
    ensures { result ≡ is_digit b }
{
    48 <= b && b <= 57
}

fn are_digits(text: &[u8]) -> bool
    ensures { result ≡ list_all is_digit text.now }
{
    text.iter().all(|b| is_digit(*b))
}

/// Digits without leading zeros, however many.
fn is_decimal(text: &[u8]) -> bool
    ensures { result ≡ is_decimal text.now }
{
    match text {
        [] => false,
        [d] => is_digit(*d),
        [d, _, ..] => *d != 48 && are_digits(text),
    }
}

fn number_in(text: &[u8]) -> Option<Number>
    ensures { result ≡ number_in text.now }
{
    if !is_decimal(text) {
        return None;
    }
    match number(text) {
        Some(n) => Some(Number::Is(n)),
        None => Some(Number::Past),
    }
}

fn lettered(letter: u8, digits: &[u8]) -> Option<Name>
    ensures { result ≡ lettered letter digits.now }
{
    match letter {
        b'r' => Some(Name::Replica(number_in(digits)?)),
        b's' => Some(Name::Sequencer(number_in(digits)?)),
        b'c' => Some(Name::Client(number_in(digits)?)),
        b'o' => Some(Name::Observer(number_in(digits)?)),
        _ => None,
    }
}

/// A controller by what follows `ctl`, a number from 1.
fn numbered_controller(digits: &[u8]) -> Option<Name>
    ensures { result ≡ by_number digits.now }
{
    match small_number(u64::from(MAX_CONTROLLERS), digits)? {
        0 => None,
        number => Some(Name::Controller(number)),
    }
}

/// The name that a field is.
#[tactic(auto, unfolding(crate::specs::Reading::name_of))]
pub(crate) fn name(field: &[u8]) -> Option<Name>
    ensures { result ≡ name_of field.now }
{
    if is_word(field, "ctl") {
        return Some(Name::Controller(0));
    }
    match field {
        [] => None,
        [b'c', b't', b'l', digits @ ..] => numbered_controller(digits),
        [letter, digits @ ..] => lettered(*letter, digits),
    }
}

/// An observer's name, as its number.
pub(crate) fn observer(field: &[u8]) -> Option<Number>
    ensures { result ≡ observer_number (name_of field.now) }
{
    match name(field) {
        Some(Name::Observer(number)) => Some(number),
        _ => None,
    }
}

/// A sequencer's name, as its number.
pub(crate) fn sequencer(field: &[u8]) -> Option<Number>
    ensures { result ≡ sequencer_number (name_of field.now) }
{
    match name(field) {
        Some(Name::Sequencer(number)) => Some(number),
        _ => None,
    }
}

/// All replicas, all sequencers, or a name.
#[tactic(auto, unfolding(crate::specs::Reading::to_of))]
pub(crate) fn to(field: &[u8]) -> Option<To>
    ensures { result ≡ to_of field.now }
{
    if is_word(field, "r*") {
        return Some(To::Replicas);
    }
    if is_word(field, "s*") {
        return Some(To::Sequencers);
    }
    match name(field) {
        Some(name) => Some(To::One(name)),
        None => None,
    }
}
