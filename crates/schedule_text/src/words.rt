//! The words of a schedule's lines: the event that the fields after a word give, or the first rule
//! that they break.

ghost use Rattle.std.specs.Prelude.{◌≡◌};
ghost use Rattle.std.specs.Option.{option_copied};
ghost use Rattle.schedule_text.specs.LineAnswer.{IsAnswer};
ghost use Rattle.schedule_text.specs.Rules.{submit_event, submit_of, deliver_event, deliver_of};
ghost use Rattle.schedule_text.specs.Rules.{tick_event, tick_of, ordered, install_of, crash_of};
ghost use Rattle.schedule_text.specs.Rules.{junk_event, junk_of, read_event, read_of};
ghost use Rattle.line_fields.specs.Split.{other_fields};

use crate::event::Event;
use crate::line_error::LineError;
use crate::rule::Rule;
use crate::split::{one_field, one_or_two_fields, three_fields, two_fields};
use crate::ticks::{takes_tick, tick_named};
use line_fields::{actor, bytes, is_word, key, number, op};
use nop_types::{Actor, Config, MAX_DATAGRAM_BYTES, MAX_KEY_BYTES, MAX_OP_BYTES};
use std::alloc::Global;

/// The most characters of an op.
const MAX_OP_TEXT: usize = 2 * MAX_OP_BYTES;

/// The most characters of a key.
const MAX_KEY_TEXT: usize = 2 * MAX_KEY_BYTES;

/// The most characters of junk.
const MAX_JUNK_TEXT: usize = 2 * MAX_DATAGRAM_BYTES;

/// `submit cN HEX`
pub fn submit(alloc: Global, config: Config, rest: Option<&[u8]>) -> Result<Event, LineError>
    ensures { IsAnswer result (submit_of config (other_fields (option_copied rest.entry))) }
{
    let (client, text) = two_fields(rest)?;
    if text.len() > MAX_OP_TEXT {
        return Err(LineError::Breaks(Rule::WrongField));
    }
    let Some(op) = op(alloc, text)? else {
        return Err(LineError::Breaks(Rule::WrongHex));
    };
    match actor(config, client) {
        Some(Actor::Client(number)) => Ok(Event::Submit(number, op)),
        _ => Err(LineError::Breaks(Rule::WrongActor)),
    }
}

/// `deliver I ACTOR`
pub fn deliver(config: Config, rest: Option<&[u8]>) -> Result<Event, Rule>
    ensures { result ≡ deliver_of config (other_fields (option_copied rest.entry)) }
{
    let (index, to) = two_fields(rest)?;
    let Some(index) = number(index) else {
        return Err(Rule::WrongField);
    };
    match actor(config, to) {
        Some(to) => Ok(Event::Deliver(index, to)),
        None => Err(Rule::WrongActor),
    }
}

/// `tick ACTOR KIND`
pub fn tick(config: Config, rest: Option<&[u8]>) -> Result<Event, Rule>
    ensures { result ≡ tick_of config (other_fields (option_copied rest.entry)) }
{
    let (one, kind) = two_fields(rest)?;
    let Some(one) = actor(config, one) else {
        return Err(Rule::WrongActor);
    };
    match tick_named(kind) {
        Some(tick) if takes_tick(one, tick) => Ok(Event::Tick(one, tick)),
        _ => Err(Rule::WrongActor),
    }
}

/// The controller that a line names: controller 0 where it names none.
fn ordered(config: Config, name: Option<&[u8]>) -> Option<u8>
    ensures { result ≡ ordered config (option_copied name.entry) }
{
    let Some(name) = name else {
        return Some(0);
    };
    match actor(config, name) {
        Some(Actor::Controller(number)) => Some(number),
        _ => None,
    }
}

/// `install sN` or `install sN CONTROLLER`
pub fn install(config: Config, rest: Option<&[u8]>) -> Result<Event, Rule>
    ensures { result ≡ install_of config (other_fields (option_copied rest.entry)) }
{
    let (name, by) = one_or_two_fields(rest)?;
    let Some(Actor::Sequencer(sequencer)) = actor(config, name) else {
        return Err(Rule::WrongActor);
    };
    match ordered(config, by) {
        Some(controller) => Ok(Event::Install(controller, sequencer)),
        None => Err(Rule::WrongActor),
    }
}

/// `crash ACTOR`
pub fn crash(config: Config, rest: Option<&[u8]>) -> Result<Event, Rule>
    ensures { result ≡ crash_of config (other_fields (option_copied rest.entry)) }
{
    match actor(config, one_field(rest)?) {
        Some(one) => Ok(Event::Crash(one)),
        None => Err(Rule::WrongActor),
    }
}

/// `junk ACTOR HEX`
pub fn junk(alloc: Global, config: Config, rest: Option<&[u8]>) -> Result<Event, LineError>
    ensures { IsAnswer result (junk_of config (other_fields (option_copied rest.entry))) }
{
    let (to, text) = two_fields(rest)?;
    if text.len() > MAX_JUNK_TEXT {
        return Err(LineError::Breaks(Rule::WrongField));
    }
    let Some(bytes) = bytes(alloc, text)? else {
        return Err(LineError::Breaks(Rule::WrongHex));
    };
    match actor(config, to) {
        Some(to) => Ok(Event::Junk(to, bytes)),
        None => Err(LineError::Breaks(Rule::WrongActor)),
    }
}

/// `read cN oM HEX`
pub fn read(alloc: Global, config: Config, rest: Option<&[u8]>) -> Result<Event, LineError>
    ensures { IsAnswer result (read_of config (other_fields (option_copied rest.entry))) }
{
    let (client, observer, text) = three_fields(rest)?;
    if text.len() > MAX_KEY_TEXT {
        return Err(LineError::Breaks(Rule::WrongField));
    }
    if is_word(text, "-") {
        return Err(LineError::Breaks(Rule::WrongField));
    }
    let Some(key) = key(alloc, text)? else {
        return Err(LineError::Breaks(Rule::WrongHex));
    };
    let Some(Actor::Client(number)) = actor(config, client) else {
        return Err(LineError::Breaks(Rule::WrongActor));
    };
    match actor(config, observer) {
        Some(Actor::Observer(asked)) => Ok(Event::Read(number, asked, key)),
        _ => Err(LineError::Breaks(Rule::WrongActor)),
    }
}
