ghost use Rattle.std.specs.Prelude.{◌≡◌, ⊤, Ok, IfOk, IfErr, length, slice_get};
ghost use Rattle.oum_codec.specs.Reading.{reading};
ghost use Rattle.world.specs.SeatOutcomes.{owned, Refuses};
ghost use Rattle.world.specs.WorldSteps.{
  actor_of,
  tick_if,
  read_if,
  datagram_at,
  junk_of,
  stimulus_of,
};

use crate::step_error::StepError;
use network::Network;
use nop_types::{Actor, Bytes, Config, Input, Key, Tick};
use oum_codec::read_datagram;
use schedule_text::{Event, takes_tick};
use std::alloc::Global;

/// What an event delivers to its actor.
#[derive(Drop)]
pub enum Stimulus<'a> {
    Input(Input<'a>),
    /// A datagram of the network, copied.
    Datagram(Bytes),
    Crash,
}

/// The actor whose step the event is.
pub fn actor_of(event: &Event) -> Actor
    ensures { result ≡ actor_of event.now }
{
    match event {
        Event::Submit(client, _) => Actor::Client(*client),
        Event::Install(controller, _) => Actor::Controller(*controller),
        Event::Read(client, _, _) => Actor::Client(*client),
        Event::Deliver(_, actor)
        | Event::Tick(actor, _)
        | Event::Crash(actor)
        | Event::Junk(actor, _) => *actor,
    }
}

fn tick_if(takes: bool, tick: Tick) -> Result<Stimulus<'static>, StepError>
    ensures ok { IfOk result (λ s. tick_if takes tick ≡ Ok (owned s)) }
    ensures err { IfErr result (λ e. Refuses e (tick_if takes tick) ⊤) }
{
    if takes {
        Ok(Stimulus::Input(Input::Tick(tick)))
    } else {
        Err(StepError::NoSuchActor)
    }
}

/// A key, of an observer that is there.
fn read_if(is_there: bool, observer: u8, key: &Key) -> Result<Stimulus<'_>, StepError>
    ensures ok { IfOk result (λ s. read_if is_there observer key.now ≡ Ok (owned s)) }
    ensures err { IfErr result (λ e. Refuses e (read_if is_there observer key.now) ⊤) }
{
    if is_there {
        Ok(Stimulus::Input(Input::Read(observer, key)))
    } else {
        Err(StepError::NoSuchActor)
    }
}

/// Copied only where the datagram does not lie in one piece.
fn datagram_at(network: &Network, index: u64) -> Result<Stimulus<'_>, StepError>
    ensures ok { IfOk result (λ s.
        datagram_at index (length network.now) (slice_get network.now index) ≡ Ok (owned s)) }
    ensures err { IfErr result (λ e. Refuses e
        (datagram_at index (length network.now) (slice_get network.now index)) ⊤) }
{
    if let Some(bytes) = network.piece(index) {
        return Ok(Stimulus::Input(Input::Packet(bytes)));
    }
    match network.get(index)? {
        Some(bytes) => Ok(Stimulus::Datagram(bytes)),
        None => Err(StepError::NoSuchDatagram {
            index,
            sent: network.len(),
        }),
    }
}

/// Bytes that spell no datagram.
fn junk(alloc: Global, bytes: &[u8]) -> Result<Stimulus<'_>, StepError>
    ensures ok { IfOk result (λ s. junk_of bytes.now (reading bytes.now) ≡ Ok (owned s)) }
    ensures err { IfErr result (λ e. Refuses e (junk_of bytes.now (reading bytes.now)) ⊤) }
{
    match read_datagram(alloc, bytes)? {
        Some(_) => Err(StepError::Forged),
        None => Ok(Stimulus::Input(Input::Packet(bytes))),
    }
}

/// What the event delivers to its actor, where these datagrams were sent.
#[tactic(auto, unfolding(crate::specs::WorldSteps::stimulus_of))]
pub fn stimulus_of<'a>(
    alloc: Global,
    config: Config,
    network: &'a Network,
    event: &'a Event,
) -> Result<Stimulus<'a>, StepError>
    ensures ok { IfOk result (λ s. stimulus_of config network.now event.now ≡ Ok (owned s)) }
    ensures err { IfErr result (λ e. Refuses e (stimulus_of config network.now event.now) ⊤) }
{
    match event {
        Event::Submit(_, op) => Ok(Stimulus::Input(Input::Submit(op))),
        Event::Deliver(index, _) => datagram_at(network, *index),
        Event::Tick(actor, tick) => tick_if(takes_tick(*actor, *tick), *tick),
        Event::Install(_, sequencer) => {
            tick_if(*sequencer < config.sequencers(), Tick::Install(*sequencer))
        }
        Event::Read(_, observer, key) => read_if(*observer < config.observers(), *observer, key),
        Event::Crash(_) => Ok(Stimulus::Crash),
        Event::Junk(_, bytes) => junk(alloc, bytes.as_slice()),
    }
}
