//! Which actors and destinations the names of a trace are.

ghost use Rattle.std.specs.Prelude.{◌≡◌};
ghost use Rattle.audit_laws.specs.Names.{actor_in, is_number, names_actor, names_dest};
ghost use Rattle.audit_laws.specs.Names.{number_within};

use nop_types::{Actor, Config, Dest};
use trace_rows::{Name, Number, To};

/// A number below a limit.
pub fn number_within(limit: u8, number: Number) -> Option<u8>
    ensures { result ≡ number_within limit number }
{
    match number {
        Number::Is(i) => {
            if i < u64::from(limit) {
                Some(i as u8)
            } else {
                None
            }
        }
        Number::Past => None,
    }
}

pub fn is_number(number: Number, of: u64) -> bool
    ensures { result ≡ is_number number of }
{
    match number {
        Number::Is(i) => i == of,
        Number::Past => false,
    }
}

/// The actor of the configuration with this name.
pub fn actor_in(config: Config, name: Name) -> Option<Actor>
    ensures { result ≡ actor_in config name }
{
    match name {
        Name::Replica(number) => Some(Actor::Replica(number_within(config.replicas(), number)?)),
        Name::Sequencer(number) => {
            Some(Actor::Sequencer(number_within(config.sequencers(), number)?))
        }
        Name::Client(number) => {
            let i = number_within(config.clients(), number)?;
            Some(Actor::Client(u32::from(i)))
        }
        Name::Controller(k) => {
            if k < config.controllers() {
                Some(Actor::Controller(k))
            } else {
                None
            }
        }
        Name::Observer(number) => Some(Actor::Observer(number_within(config.observers(), number)?)),
    }
}

/// Whether the name is this actor's.
pub fn names_actor(name: Name, actor: Actor) -> bool
    ensures { result ≡ names_actor name actor }
{
    match (name, actor) {
        (Name::Replica(number), Actor::Replica(i)) => is_number(number, u64::from(i)),
        (Name::Sequencer(number), Actor::Sequencer(i)) => is_number(number, u64::from(i)),
        (Name::Client(number), Actor::Client(i)) => is_number(number, u64::from(i)),
        (Name::Controller(k), Actor::Controller(i)) => k == i,
        (Name::Observer(number), Actor::Observer(i)) => is_number(number, u64::from(i)),
        _ => false,
    }
}

/// Whether it is this destination's.
pub fn names_dest(to: To, dest: Dest) -> bool
    ensures { result ≡ names_dest to dest }
{
    match (to, dest) {
        (To::Replicas, Dest::Replicas) => true,
        (To::Sequencers, Dest::Sequencers) => true,
        (To::One(name), Dest::One(actor)) => names_actor(name, actor),
        _ => false,
    }
}
