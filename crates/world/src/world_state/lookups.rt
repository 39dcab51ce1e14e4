//! What is asked of a world by bytes, timers and clients.

ghost use Rattle.std.specs.Prelude.{◌≡◌, slice_get};
ghost use Rattle.network.specs.Finding.{first_index};
ghost use Rattle.world.specs.Lookups.{timers_of, takes_op};

use super::World;
use crate::seat::{seat_at, timer_at};
use nop_types::{Actor, Core, Host, Tick};

impl<H: Host> World<H> {
    /// The index of the first datagram with these bytes, None where none of those that were sent has
    /// them. Without an index it looks at each of them.
    pub fn find(&self, bytes: &[u8]) -> Option<u64>
        ensures { result ≡ first_index bytes.now self.now.state.sent }
    {
        self.actors.network.find(bytes)
    }

    /// The timer of an actor with this index and its period in milliseconds; None past the last, and for
    /// no actor.
    pub fn timer(&self, actor: Actor, i: u8) -> Option<(Tick, u64)>
        ensures { result ≡ slice_get (timers_of self.now.state actor) i }
    {
        match actor {
            Actor::Replica(number) => timer_at(&self.actors.replicas, number as usize, i),
            Actor::Sequencer(number) => timer_at(&self.actors.sequencers, number as usize, i),
            Actor::Client(number) => timer_at(&self.actors.clients, number as usize, i),
            Actor::Controller(number) => timer_at(&self.actors.controllers, number as usize, i),
            Actor::Observer(_) => None,
        }
    }

    /// Whether an op that is submitted now becomes the client's request: it is of the configuration, has not
    /// crashed, no request of it is open, and an id is left.
    pub fn takes(&self, client: u32) -> bool
        ensures { result ≡ takes_op self.now.state client }
    {
        match seat_at(&self.actors.clients, client as usize) {
            Some(seat) => !seat.crashed && seat.core.can_submit(),
            None => false,
        }
    }
}
