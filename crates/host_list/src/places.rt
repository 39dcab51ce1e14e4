//! The place of each actor in a list.

ghost use Rattle.std.specs.Prelude.{◌≡◌, ◌+◌, ◌<◌, ◌^◌};
ghost use Rattle.host_list.specs.Places.{actor_at, most, named, place_of, place_within};

use nop_types::{
    Actor, Config, MAX_CLIENTS, MAX_CONTROLLERS, MAX_OBSERVERS, MAX_REPLICAS, MAX_SEQUENCERS,
};

/// How many places there are.
pub const PLACES: usize = 36;

const _: () = prove!(PLACES == 36);

fn place_within(first: usize, count: u8, number: u8) -> Option<usize>
    requires { first + 256 < 2 ^ 32 }
    ensures { result ≡ place_within first count number }
{
    if number < count {
        Some(first + usize::from(number))
    } else {
        None
    }
}

/// The place of an actor, if it is within the limits.
pub(crate) fn place_of(actor: Actor) -> Option<usize>
    ensures { result ≡ place_of actor }
{
    match actor {
        Actor::Replica(i) => place_within(0, MAX_REPLICAS, i),
        Actor::Sequencer(i) => place_within(8, MAX_SEQUENCERS, i),
        Actor::Controller(i) => place_within(12, MAX_CONTROLLERS, i),
        Actor::Client(i) => Some(16 + (i % 16) as usize),
        Actor::Observer(i) => place_within(32, MAX_OBSERVERS, i),
    }
}

/// The actor at a place.
pub(crate) fn actor_at(place: usize) -> Option<Actor>
    ensures { result ≡ actor_at place }
{
    if place < 7 {
        Some(Actor::Replica(place as u8))
    } else if place < 8 {
        None
    } else if place < 12 {
        Some(Actor::Sequencer((place - 8) as u8))
    } else if place < 16 {
        Some(Actor::Controller((place - 12) as u8))
    } else if place < 32 {
        Some(Actor::Client((place - 16) as u32))
    } else if place < 36 {
        Some(Actor::Observer((place - 32) as u8))
    } else {
        None
    }
}

fn most() -> Config
    ensures { result ≡ most }
{
    match Config::new(
        MAX_REPLICAS,
        MAX_SEQUENCERS,
        MAX_CLIENTS,
        MAX_CONTROLLERS,
        MAX_OBSERVERS,
    ) {
        Some(most) => most,
        None => unreachable!(),
    }
}

/// The place of the actor with this name.
pub(crate) fn named(word: &[u8]) -> Option<usize>
    ensures { result ≡ named word.now }
{
    place_of(line_fields::actor(most(), word)?)
}
