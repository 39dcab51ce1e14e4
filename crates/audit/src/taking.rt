//! The event of what an actor takes.

ghost use Rattle.std.specs.Prelude.{◌≡◌, Err, IfOk};
ghost use Rattle.audit.specs.Steps.{IsEvent};
ghost use Rattle.audit_laws.specs.Audits.{event_of, install_event, packet_event, read_event};
ghost use Rattle.audit_laws.specs.Audits.{submit_event, tick_event};
ghost use Rattle.oum_codec.specs.Reading.{reading};
ghost use Rattle.schedule_text.specs.EventText.{HasLine};
ghost use Rattle.trace_rows.specs.Rows.{TakenFits};
ghost use Rattle.world.specs.WorldSteps.{actor_of};

use crate::names::number_within;
use crate::row_error::RowError;
use audit_laws::Fault;
use nop_types::{Actor, Bytes, Host, Key, Op, Tick};
use oum_codec::read_datagram;
use schedule_text::{Event, takes_tick};
use std::alloc::Global;
use trace_rows::Taken;
use world::World;

/// The first datagram that was sent with these bytes; bytes that spell none are junk.
fn packet_event<H: Host>(
    alloc: Global,
    world: &World<H>,
    actor: Actor,
    bytes: Bytes,
) -> Result<Event, RowError>
    ensures { IsEvent result (packet_event world.now.state.sent actor bytes (reading bytes)) }
{
    if read_datagram(alloc, bytes.as_slice())?.is_none() {
        return Ok(Event::Junk(actor, bytes));
    }
    match world.find(bytes.as_slice()) {
        Some(index) => Ok(Event::Deliver(index, actor)),
        None => Err(RowError::Faulty(Fault::Unsent)),
    }
}

fn tick_event(actor: Actor, tick: Tick) -> Result<Event, RowError>
    ensures { IsEvent result (tick_event actor tick) }
{
    if takes_tick(actor, tick) {
        Ok(Event::Tick(actor, tick))
    } else {
        Err(RowError::Faulty(Fault::Misplaced))
    }
}

fn submit_event(actor: Actor, op: Op) -> Result<Event, RowError>
    ensures { IsEvent result (submit_event actor op) }
{
    match actor {
        Actor::Client(client) => Ok(Event::Submit(client, op)),
        _ => Err(RowError::Faulty(Fault::Misplaced)),
    }
}

fn read_event(actor: Actor, observer: Option<u8>, key: Key) -> Result<Event, RowError>
    ensures { IsEvent result (read_event actor observer key) }
{
    match (actor, observer) {
        (Actor::Client(client), Some(observer)) => Ok(Event::Read(client, observer, key)),
        _ => Err(RowError::Faulty(Fault::Misplaced)),
    }
}

fn install_event(actor: Actor, sequencer: Option<u8>) -> Result<Event, RowError>
    ensures { IsEvent result (install_event actor sequencer) }
{
    match (actor, sequencer) {
        (Actor::Controller(controller), Some(sequencer)) => {
            Ok(Event::Install(controller, sequencer))
        }
        _ => Err(RowError::Faulty(Fault::Misplaced)),
    }
}

/// What an actor of the configuration takes, as an event of the world.
pub fn event_of<H: Host>(
    alloc: Global,
    world: &World<H>,
    actor: Actor,
    taken: Taken,
) -> Result<Event, RowError>
    requires { TakenFits taken }
    ensures event { IsEvent result
        (event_of world.now.state.config world.now.state.sent actor taken) }
    ensures actor { IfOk result (λ e. actor_of e ≡ actor) }
    ensures line { IfOk result HasLine }
{
    let config = world.config();
    match taken {
        Taken::Packet(bytes) => packet_event(alloc, world, actor, bytes),
        Taken::Tick(tick) => tick_event(actor, tick),
        Taken::Submit(op) => submit_event(actor, op),
        Taken::Read(observer, key) => {
            read_event(actor, number_within(config.observers(), observer), key)
        }
        Taken::Install(sequencer) => {
            install_event(actor, number_within(config.sequencers(), sequencer))
        }
    }
}
