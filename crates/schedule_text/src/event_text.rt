//! The lines of a schedule. What reads them is in `rules`.

ghost use Rattle.std.specs.Prelude.{◌≡◌, ◌++◌, ◌∷◌, [], codes, OnOk, OnErr};
ghost use Rattle.hex.specs.Hex.{IsBytes};
ghost use Rattle.schedule_text.specs.EventText.{HasLine, event_word};
ghost use Rattle.schedule_text.specs.EventText.{event_fields, event_text, Means, IsTyped};
ghost use Rattle.schedule_text.specs.EventText.{IsTypedKey};
ghost use Rattle.transcript_text.specs.LineText.{line_of};

use crate::event::Event;
use crate::ticks::tick_word;
use nop_types::{Actor, Key, NoMemory};
use transcript_text::{Field, write_line};

fn are_bytes(bytes: &[u8])
    ensures { IsBytes bytes.now }
{
    let _bytes = bytes;
}

fn typed_key(key: &Key)
    ensures { IsTypedKey key.now }
{
    are_bytes(key.as_slice());
}

/// The ranges of an event's numbers, which its types keep.
fn ranges(event: &Event)
    ensures { IsTyped event.now }
{
    match event {
        Event::Submit(_, op) => {
            are_bytes(op.as_slice());
        }
        Event::Deliver(index, _) => {
            let _index = *index;
        }
        Event::Junk(_, bytes) => {
            are_bytes(bytes.as_slice());
        }
        Event::Read(_, _, key) => typed_key(key),
        Event::Tick(_, _) | Event::Install(_, _) | Event::Crash(_) => {}
    }
}

/// Controller 0 is not named.
fn put_install(controller: u8, sequencer: u8, to: &mut Vec<u8>) -> Result<(), NoMemory>
    ensures ok { OnOk result (to.new.items ≡ to.old.items
        ++ line_of (codes "install") (event_fields (Event.Install controller sequencer))) }
    ensures err { OnErr result (to.new.items ≡ to.old.items) }
{
    let sequencer = Field::Name(Actor::Sequencer(sequencer));
    if controller == 0 {
        write_line("install", &[sequencer], to)
    } else {
        let controller = Field::Name(Actor::Controller(controller));
        write_line("install", &[sequencer, controller], to)
    }
}

fn put_event(event: &Event, to: &mut Vec<u8>) -> Result<(), NoMemory>
    requires { HasLine event.now }
    ensures ok { OnOk result (to.new.items ≡ to.old.items
        ++ line_of (event_word event.now) (event_fields event.now)) }
    ensures err { OnErr result (to.new.items ≡ to.old.items) }
{
    match event {
        Event::Submit(client, op) => {
            let client = Field::Name(Actor::Client(*client));
            write_line("submit", &[client, Field::Hex(op.as_slice())], to)
        }
        Event::Deliver(index, actor) => {
            write_line("deliver", &[Field::Number(*index), Field::Name(*actor)], to)
        }
        Event::Tick(actor, tick) => {
            let fields = [Field::Name(*actor), Field::Word(tick_word(*tick))];
            write_line("tick", &fields, to)
        }
        Event::Install(controller, sequencer) => put_install(*controller, *sequencer, to),
        Event::Crash(actor) => write_line("crash", &[Field::Name(*actor)], to),
        Event::Junk(actor, bytes) => {
            write_line(
                "junk",
                &[Field::Name(*actor), Field::Hex(bytes.as_slice())],
                to,
            )
        }
        Event::Read(client, observer, key) => {
            let fields = [
                Field::Name(Actor::Client(*client)),
                Field::Name(Actor::Observer(*observer)),
                Field::Hex(key.as_slice()),
            ];
            write_line("read", &fields, to)
        }
    }
}

/// Appends the line of an event, as a schedule has it: what reads the schedule gets the event
/// again. Bytes are written in lower case.
#[tactic(auto, using(crate::proofs::EventTexts::text_means, crate::proofs::EventTexts::whole_line))]
pub fn event_line(event: &Event, to: &mut Vec<u8>) -> Result<(), NoMemory>
    requires { HasLine event.now }
    ensures ok { OnOk result (to.new.items
        ≡ to.old.items ++ (event_text event.now ++ 10 ∷ [])) }
    ensures means { Means (event_text event.now) event.now }
    ensures err { OnErr result (to.new.items ≡ to.old.items) }
{
    ranges(event);
    put_event(event, to)
}
