//! From a request to an op or a reply.

ghost use Rattle.std.specs.Prelude.{◌≡◌, ◌∷◌, [], IfOk};
ghost use Rattle.kv_resp.specs.Table.{asked, alone, bad_key, bad_value, done};
ghost use Rattle.kv_resp.specs.Table.{is_word, key_action, option_action, put_action, read_action, selected};
ghost use Rattle.kv_resp.specs.Table.{swap_action, unknown};
ghost use Rattle.kv_resp.specs.Table.{with_any, with_one, with_three, with_two};
ghost use Rattle.kv_resp.specs.View.{action_of};

use crate::demand::{Demand, Form};
use kv_host::{DELETE, GET};
use kv_spelling::{fits_key, fits_value, key_op, swap_op, value_op};
use nop_types::{Bytes, Key, NoMemory};
use resp::Reply;
use std::alloc::Global;

/// Whether both are the same but for the case of letters.
fn same_letters(word: &[u8], name: &[u8]) -> bool
    ensures { result ≡ is_word word.now name.now }
{
    word.eq_ignore_ascii_case(name)
}

/// Whether it is this word, whatever the case of its letters.
fn is_word(word: &[u8], name: &str) -> bool
    ensures { result ≡ is_word word.now name.now }
{
    same_letters(word, name.as_bytes())
}

fn bad_key<'a>() -> Demand<'a>
    ensures { action_of result ≡ bad_key }
{
    Demand::Answer(Reply::Error("ERR a key has 1 to 64 bytes"))
}

fn bad_value<'a>() -> Demand<'a>
    ensures { action_of result ≡ bad_value }
{
    Demand::Answer(Reply::Error("ERR a value has at most 256 bytes"))
}

/// What is said of all that is not served.
fn unknown<'a>() -> Demand<'a>
    ensures { action_of result ≡ unknown }
{
    Demand::Answer(Reply::Error("ERR unknown command, or not with these arguments"))
}

fn done<'a>() -> Demand<'a>
    ensures { action_of result ≡ done }
{
    Demand::Answer(Reply::Simple("OK"))
}

fn key_action<'a>(alloc: Global, kind: u8, key: &[u8], form: Form) -> Result<Demand<'a>, NoMemory>
    ensures { IfOk result (λ a. action_of a ≡ key_action kind key.now form) }
{
    if !fits_key(key) {
        return Ok(bad_key());
    }
    match key_op(alloc, kind, key) {
        Ok(op) => Ok(Demand::Execute(op, form)),
        Err(e) => Err(e),
    }
}

/// A read of an observer.
fn read_action<'a>(alloc: Global, key: &[u8]) -> Result<Demand<'a>, NoMemory>
    ensures { IfOk result (λ a. action_of a ≡ read_action key.now) }
{
    if !fits_key(key) {
        return Ok(bad_key());
    }
    match Key::new(alloc, key) {
        Ok(key) => Ok(Demand::ReadAt(key)),
        Err(e) => Err(e),
    }
}

fn put_action<'a>(
    alloc: Global,
    key: &[u8],
    value: &[u8],
    form: Form,
) -> Result<Demand<'a>, NoMemory>
    ensures { IfOk result (λ a. action_of a ≡ put_action key.now value.now form) }
{
    if !fits_key(key) {
        return Ok(bad_key());
    }
    if !fits_value(value) {
        return Ok(bad_value());
    }
    match value_op(alloc, key, value) {
        Ok(op) => Ok(Demand::Execute(op, form)),
        Err(e) => Err(e),
    }
}

fn swap_action<'a>(
    alloc: Global,
    key: &[u8],
    old: &[u8],
    new: &[u8],
) -> Result<Demand<'a>, NoMemory>
    ensures { IfOk result (λ a. action_of a ≡ swap_action key.now old.now new.now) }
{
    if !fits_key(key) {
        return Ok(bad_key());
    }
    if !fits_value(old) || !fits_value(new) {
        return Ok(bad_value());
    }
    match swap_op(alloc, key, old, new) {
        Ok(op) => Ok(Demand::Execute(op, Form::Swapped)),
        Err(e) => Err(e),
    }
}

/// The commands that connections begin and end with, with any arguments.
fn with_any<'a>(word: &[u8]) -> Demand<'a>
    ensures { action_of result ≡ with_any word.now }
{
    if is_word(word, "quit") {
        Demand::End(Reply::Simple("OK"))
    } else if is_word(word, "client") {
        done()
    } else if is_word(word, "command") || is_word(word, "config") {
        Demand::Answer(Reply::Empty)
    } else if is_word(word, "info") {
        Demand::Info
    } else {
        unknown()
    }
}

fn alone<'a>(word: &[u8]) -> Demand<'a>
    ensures { action_of result ≡ alone word.now }
{
    if is_word(word, "ping") {
        Demand::Answer(Reply::Simple("PONG"))
    } else {
        with_any(word)
    }
}

/// There is one database.
fn selected<'a>(number: &[u8]) -> Demand<'a>
    ensures { action_of result ≡ selected number.now }
{
    if is_word(number, "0") {
        done()
    } else {
        Demand::Answer(Reply::Error("ERR DB index is out of range"))
    }
}

#[tactic(auto, unfolding(crate::specs::Table::with_one))]
fn with_one<'a>(alloc: Global, word: &[u8], first: &'a [u8]) -> Result<Demand<'a>, NoMemory>
    ensures { IfOk result (λ a. action_of a ≡ with_one word.now first.now) }
{
    if is_word(word, "get") {
        key_action(alloc, GET, first, Form::Value)
    } else if is_word(word, "exists") {
        key_action(alloc, GET, first, Form::Presence)
    } else if is_word(word, "del") {
        key_action(alloc, DELETE, first, Form::Presence)
    } else if is_word(word, "getdel") {
        key_action(alloc, DELETE, first, Form::Value)
    } else if is_word(word, "getat") {
        read_action(alloc, first)
    } else if is_word(word, "ping") || is_word(word, "echo") {
        Ok(Demand::Answer(Reply::Bulk(first)))
    } else if is_word(word, "select") {
        Ok(selected(first))
    } else {
        Ok(with_any(word))
    }
}

fn with_two<'a>(
    alloc: Global,
    word: &[u8],
    key: &[u8],
    value: &[u8],
) -> Result<Demand<'a>, NoMemory>
    ensures { IfOk result (λ a. action_of a ≡ with_two word.now key.now value.now) }
{
    if is_word(word, "set") {
        put_action(alloc, key, value, Form::Stored)
    } else if is_word(word, "getset") {
        put_action(alloc, key, value, Form::Value)
    } else {
        Ok(with_any(word))
    }
}

/// SET with one option: GET is served, since it changes nothing but the reply.
fn option_action<'a>(
    alloc: Global,
    key: &[u8],
    value: &[u8],
    option: &[u8],
) -> Result<Demand<'a>, NoMemory>
    ensures { IfOk result (λ a. action_of a ≡ option_action key.now value.now option.now) }
{
    if is_word(option, "get") {
        put_action(alloc, key, value, Form::Value)
    } else {
        Ok(unknown())
    }
}

fn with_three<'a>(
    alloc: Global,
    word: &[u8],
    key: &[u8],
    second: &[u8],
    third: &[u8],
) -> Result<Demand<'a>, NoMemory>
    ensures { IfOk result (λ a. action_of a
        ≡ with_three word.now key.now second.now third.now) }
{
    if is_word(word, "set") {
        option_action(alloc, key, second, third)
    } else if is_word(word, "cas") {
        swap_action(alloc, key, second, third)
    } else {
        Ok(with_any(word))
    }
}

/// What a request asks for, by its arguments.
#[tactic(auto, unfolding(crate::specs::Table::asked))]
pub fn asked(alloc: Global, arguments: &[Bytes]) -> Result<Demand<'_>, NoMemory>
    ensures { IfOk result (λ a. action_of a ≡ asked arguments.now) }
{
    match arguments {
        [] => Ok(unknown()),
        [word] => Ok(alone(word.as_slice())),
        [word, first] => with_one(alloc, word.as_slice(), first.as_slice()),
        [word, key, value] => with_two(alloc, word.as_slice(), key.as_slice(), value.as_slice()),
        [word, key, second, third] => with_three(
            alloc,
            word.as_slice(),
            key.as_slice(),
            second.as_slice(),
            third.as_slice(),
        ),
        [word, ..] => Ok(with_any(word.as_slice())),
    }
}
