//! The rules of a schedule's lines: what a line means, or the first rule that it breaks.

ghost use Rattle.std.specs.Prelude.{◌≡◌, if◌then◌else◌, Ok, Err, MatchResult};
ghost use Rattle.std.specs.List.{list_all};
ghost use Rattle.std.specs.Option.{option_copied};
ghost use Rattle.line_fields.specs.Fields.{fields};
ghost use Rattle.schedule_text.specs.LineAnswer.{IsAnswer};
ghost use Rattle.schedule_text.specs.Rules.{is_plain, plain_line, header_of, header_rest};
ghost use Rattle.schedule_text.specs.Rules.{count_of, header_by, header_with, are_named, event_of};
ghost use Rattle.schedule_text.specs.Rules.{event_of_fields};
ghost use Rattle.line_fields.specs.Split.{other_fields};

use crate::event::Event;
use crate::line_error::LineError;
use crate::rule::Rule;
use crate::split::{next_field, no_field};
use crate::words::{crash, deliver, install, junk, read, submit, tick};
use line_fields::{cut, is_word, small_number};
use nop_types::{Config, Header, MAX_LINE_BYTES, MAX_LINES};
use std::alloc::Global;

fn is_plain(b: u8) -> bool
    ensures { result ≡ is_plain b }
{
    b' ' <= b && b <= b'~'
}

fn has_plain_bytes(line: &[u8]) -> bool
    ensures { result ≡ list_all is_plain line.now }
{
    line.iter().all(|b| is_plain(*b))
}

/// The line is not too long, and has printable characters of ASCII alone.
fn plain(line: &[u8]) -> Result<(), Rule>
    ensures { MatchResult result
        (λ _. plain_line line.now ≡ Ok line.now)
        (λ rule. plain_line line.now ≡ Err rule) }
{
    if line.len() > MAX_LINE_BYTES {
        return Err(Rule::LineTooLong);
    }
    if has_plain_bytes(line) {
        Ok(())
    } else {
        Err(Rule::WrongByte)
    }
}

fn count(field: &[u8]) -> Option<u8>
    ensures { result ≡ count_of field.now }
{
    small_number(256, field)
}

fn header_with(
    form: u8,
    n: Option<u8>,
    s: Option<u8>,
    c: Option<u8>,
    k: Option<u8>,
    o: Option<u8>,
) -> Result<Header, Rule>
    ensures { result ≡ header_with form n s c k o }
{
    match (n, s, c, k, o) {
        (Some(n), Some(s), Some(c), Some(k), Some(o)) => match Config::new(n, s, c, k, o) {
            Some(config) => Ok(Header { form, config }),
            None => Err(Rule::WrongField),
        },
        _ => Err(Rule::WrongField),
    }
}

fn are_named(replicas: &[u8], sequencers: &[u8], clients: &[u8]) -> bool
    ensures { result ≡ are_named replicas.now sequencers.now clients.now }
{
    is_word(replicas, "replicas")
        && is_word(sequencers, "sequencers")
        && is_word(clients, "clients")
}

/// By what follows the first three counts: form 1 names no controllers, and means one, and form 3 alone names observers.
fn header_by(
    form: &[u8],
    named: bool,
    n: Option<u8>,
    s: Option<u8>,
    c: Option<u8>,
    rest: Option<&[u8]>,
) -> Result<Header, Rule>
    ensures { result ≡ header_by form.now named n s c (other_fields (option_copied rest.entry)) }
{
    let Some(rest) = rest else {
        if !is_word(form, "1") || !named {
            return Err(Rule::WrongField);
        }
        return header_with(1, n, s, c, Some(1), Some(0));
    };
    let (controllers, rest) = cut(rest);
    let (k, rest) = next_field(rest)?;
    let Some(rest) = rest else {
        if !is_word(form, "2") || !named || !is_word(controllers, "controllers") {
            return Err(Rule::WrongField);
        }
        return header_with(2, n, s, c, count(k), Some(0));
    };
    let (observers, rest) = cut(rest);
    let (o, rest) = next_field(rest)?;
    no_field(rest)?;
    if !is_word(form, "3") || !named {
        return Err(Rule::WrongField);
    }
    if !is_word(controllers, "controllers") || !is_word(observers, "observers") {
        return Err(Rule::WrongField);
    }
    header_with(3, n, s, c, count(k), count(o))
}

/// The fields after the first word.
fn header_rest(rest: Option<&[u8]>) -> Result<Header, Rule>
    ensures { result ≡ header_rest (other_fields (option_copied rest.entry)) }
{
    let (form, rest) = next_field(rest)?;
    let (replicas, rest) = next_field(rest)?;
    let (n, rest) = next_field(rest)?;
    let (sequencers, rest) = next_field(rest)?;
    let (s, rest) = next_field(rest)?;
    let (clients, rest) = next_field(rest)?;
    let (c, rest) = next_field(rest)?;
    let named = are_named(replicas, sequencers, clients);
    header_by(form, named, count(n), count(s), count(c), rest)
}

/// What the first line says, or the rule that it breaks.
#[tactic(auto, unfolding(crate::specs::Rules::header_of))]
pub fn header(line: &[u8]) -> Result<Header, Rule>
    ensures { result ≡ header_of line.now }
{
    plain(line)?;
    let (word, rest) = cut(line);
    if !is_word(word, "nopaxos") {
        return Err(Rule::WrongWord);
    }
    header_rest(rest)
}

fn answer(read: Result<Event, Rule>) -> Result<Event, LineError>
    ensures { IsAnswer result read }
{
    match read {
        Ok(event) => Ok(event),
        Err(rule) => Err(LineError::Breaks(rule)),
    }
}

/// The event of the fields of a line, by the word that comes first.
fn event_of_words(alloc: Global, config: Config, line: &[u8]) -> Result<Event, LineError>
    ensures { IsAnswer result (event_of_fields config (fields line.now)) }
{
    let (word, rest) = cut(line);
    if is_word(word, "submit") {
        return submit(alloc, config, rest);
    }
    if is_word(word, "deliver") {
        return answer(deliver(config, rest));
    }
    if is_word(word, "tick") {
        return answer(tick(config, rest));
    }
    if is_word(word, "install") {
        return answer(install(config, rest));
    }
    if is_word(word, "crash") {
        return answer(crash(config, rest));
    }
    if is_word(word, "junk") {
        return junk(alloc, config, rest);
    }
    if is_word(word, "read") {
        return read(alloc, config, rest);
    }
    Err(LineError::Breaks(Rule::WrongWord))
}

/// The rule that a line breaks first, where its words break this one.
fn first_rule(line: &[u8], rule: Rule) -> Rule
    ensures { result ≡ (if list_all is_plain line.now then rule else Rule.WrongByte) }
{
    if has_plain_bytes(line) {
        rule
    } else {
        Rule::WrongByte
    }
}

/// The event of any other line, or the rule that it breaks; `before` is the number of lines before
/// it. A line that gives an event has no other bytes than it may have, so these are not looked at.
#[tactic(auto, unfolding(crate::specs::Rules::event_of))]
pub fn event(alloc: Global, config: Config, before: u32, line: &[u8]) -> Result<Event, LineError>
    ensures { IsAnswer result (event_of config before line.now) }
{
    if before >= MAX_LINES {
        return Err(LineError::Breaks(Rule::TooManyLines));
    }
    if line.len() > MAX_LINE_BYTES {
        return Err(LineError::Breaks(Rule::LineTooLong));
    }
    match event_of_words(alloc, config, line) {
        Ok(event) => Ok(event),
        Err(LineError::Breaks(rule)) => Err(LineError::Breaks(first_rule(line, rule))),
        Err(LineError::NoMemory) => Err(LineError::NoMemory),
    }
}
