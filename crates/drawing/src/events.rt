//! Events in a few words.

ghost use Rattle.std.specs.Prelude.{◌≡◌, ◌++◌, ◌∷◌, [], codes, decimal, string_bytes, IfOk};
ghost use Rattle.std.specs.List.{flat_map};
ghost use Rattle.nop_types.specs.declared.output.Actor.TheVariants as actors;
ghost use Rattle.picture.specs.Texts.{Grows};
ghost use Rattle.schedule_text.specs.EventText.{named_controller, tick_text, HasLine, HasWord};
ghost use Rattle.transcript_text.specs.LineText.{after_space};
ghost use Rattle.transcript_text.specs.Transcript.{actor_text};
ghost use Rattle.drawing.specs.Words.{shown_text};

use nop_types::{Actor, NoMemory, Tick};
use op_text::OpText;
use picture::Text;
use picture_labels::{put_key, put_op};
use schedule_text::{Event, tick_word};
use std::alloc::Global;

/// A space and the name of an actor.
fn put_actor(actor: Actor, to: &mut Text)
    ensures { Grows to.old to.new (after_space (actor_text actor)) }
{
    to.put(" ");
    to.actor(actor);
}

fn put_named(word: &str, actor: Actor, to: &mut Text)
    ensures { Grows to.old to.new (word.now ++ flat_map after_space (actor_text actor ∷ [])) }
{
    to.put(word);
    put_actor(actor, to);
}

fn put_deliver(index: u64, actor: Actor, to: &mut Text)
    ensures { Grows to.old to.new
        (codes "deliver" ++ flat_map after_space (decimal index ∷ actor_text actor ∷ [])) }
{
    to.numbered("deliver ", index);
    put_actor(actor, to);
}

fn put_tick(actor: Actor, tick: Tick, to: &mut Text)
    ensures { HasWord tick → Grows to.old to.new
        (codes "tick" ++ flat_map after_space (actor_text actor ∷ tick_text tick ∷ [])) }
{
    put_named("tick", actor, to);
    to.put(" ");
    to.put(tick_word(tick));
}

/// The controller is named where it is not controller 0.
fn put_install(controller: u8, sequencer: u8, to: &mut Text)
    ensures { Grows to.old to.new (codes "install" ++ flat_map after_space
        (actor_text (actors.Sequencer sequencer) ∷ named_controller controller)) }
{
    put_named("install", Actor::Sequencer(sequencer), to);
    if controller != 0 {
        put_actor(Actor::Controller(controller), to);
    }
}

fn put_read(client: u32, observer: u8, to: &mut Text)
    ensures { Grows to.old to.new (codes "read" ++ flat_map after_space
        (actor_text (actors.Client client) ∷ actor_text (actors.Observer observer) ∷ [])) }
{
    put_named("read", Actor::Client(client), to);
    put_actor(Actor::Observer(observer), to);
}

fn put_event(event: &Event, to: &mut Text)
    ensures { HasLine event.now → Grows to.old to.new (shown_text event.now) }
{
    match event {
        Event::Submit(client, _) => put_named("submit", Actor::Client(*client), to),
        Event::Deliver(index, actor) => put_deliver(*index, *actor, to),
        Event::Tick(actor, tick) => put_tick(*actor, *tick, to),
        Event::Install(controller, sequencer) => put_install(*controller, *sequencer, to),
        Event::Read(client, observer, _) => put_read(*client, *observer, to),
        Event::Crash(actor) => put_named("crash", *actor, to),
        Event::Junk(actor, _) => put_named("junk", *actor, to),
    }
}

/// An event as its line has it, without an op, without a key and without junk.
pub fn event_text(alloc: Global, event: &Event) -> Result<String, NoMemory>
    ensures { IfOk result (λ s. HasLine event.now → string_bytes s ≡ shown_text event.now) }
{
    let mut text = Text::new(alloc);
    put_event(event, &mut text);
    text.finish()
}

fn put_junk(bytes: &[u8], to: &mut Text) {
    to.number(bytes.len() as u64);
    to.put(" bytes");
}

/// Appends the op that is submitted or the key that is asked for, or how many bytes of junk come.
pub fn put_submitted<T: OpText>(
    alloc: Global,
    event: &Event,
    to: &mut Text,
) -> Result<(), NoMemory> {
    match event {
        Event::Submit(_, op) => put_op::<T>(alloc, op.as_slice(), to)?,
        Event::Read(_, _, key) => put_key(key.as_slice(), to),
        Event::Junk(_, bytes) => put_junk(bytes.as_slice(), to),
        _ => {}
    }
    Ok(())
}
