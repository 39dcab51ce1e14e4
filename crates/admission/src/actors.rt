//! Which actor a greeting speaks of, and which nodes are asked.

ghost use Rattle.std.specs.Prelude.{◌≡◌};
ghost use Rattle.admission.specs.Actors.{actor_named, counts, is_asked, is_client, is_observer};
ghost use Rattle.admission.specs.Actors.{is_replica};

use nop_types::{Actor, number_of, same_actor};

pub(crate) fn is_client(actor: Actor) -> bool
    ensures { result ≡ is_client actor }
{
    match actor {
        Actor::Client(_) => true,
        _ => false,
    }
}

fn is_replica(actor: Actor) -> bool
    ensures { result ≡ is_replica actor }
{
    match actor {
        Actor::Replica(_) => true,
        _ => false,
    }
}

fn is_observer(actor: Actor) -> bool
    ensures { result ≡ is_observer actor }
{
    match actor {
        Actor::Observer(_) => true,
        _ => false,
    }
}

/// The actor with this number at the address of `source`: a node itself, or any client of a place of clients.
pub(crate) fn actor_named(source: Actor, number: u32) -> Option<Actor>
    ensures { result ≡ actor_named source number }
{
    if let Actor::Client(place) = source {
        if number % 16 == place {
            return Some(Actor::Client(number));
        }
        return None;
    }
    if number == number_of(source) {
        Some(source)
    } else {
        None
    }
}

/// Whether this actor is one of the nodes that the own one asks.
pub(crate) fn is_asked(own: Actor, other: Actor) -> bool
    ensures { result ≡ is_asked own other }
{
    !is_client(other) && !same_actor(own, other)
}

/// Whether the answer of this node counts.
pub(crate) fn counts(own: Actor, other: Actor) -> bool
    ensures { result ≡ counts own other }
{
    if is_replica(own) {
        !is_observer(other)
    } else {
        is_replica(other)
    }
}
