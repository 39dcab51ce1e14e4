ghost use Rattle.std.specs.Prelude.{
  ◌≡◌,
  ◌↔◌,
  ◌<◌,
  ◌++◌,
  IsSome,
  IfOk,
  IfErr,
  IsErrOf,
  OnOk,
  OnErr,
  false,
  true,
  length,
  option_map,
  slice_get,
};
ghost use Rattle.schedule_text.specs.Fits.{EventFits};
ghost use Rattle.world.specs.Actors.{world_of, Gives, Happens};
ghost use Rattle.world.specs.SeatOutcomes.{Refuses};
ghost use Rattle.world.specs.WorldSteps.{actor_of, step, opening, history, has_crashed};
ghost use Rattle.world.specs.StateLines.{observers_text, replicas_text};

mod lookups;
mod queries;

use crate::actors::Actors;
use crate::history::history_of;
use crate::main_log::main_log;
use crate::seat::core_at;
use crate::state_lines::{put_observers, put_replicas};
use crate::step_error::StepError;
use network::{Lines, Network};
use nop_types::{Actor, Bytes, Config, Host, NoMemory, Outbox, Request};
use observer::Observer;
use replica_core::Replica;
use schedule_text::Event;
use std::alloc::Global;
use std::marker::Model;

/// The limits of what an event holds, which its types keep.
fn limits(event: &Event)
    ensures { EventFits event.now }
{
    match event {
        Event::Submit(_, op) => {
            let _limit = op.as_slice();
        }
        Event::Read(_, _, key) => {
            let _limits = key.as_slice();
        }
        _ => (),
    }
}

/// All actors and the network. One event is one step of one actor.
pub struct World<H: Host> {
    alloc: Global,
    failed: bool,
    actors: Actors<H>,
}

impl<H: Host> Model for World<H> {
    ghost use Rattle.std.specs.Coded.{codes};
    ghost use Rattle.nop_types.specs.Machine.{Machine};
    ghost use Rattle.client_quorum.specs.contracts.state.ClientState as client;
    ghost use Rattle.client_quorum.specs.Code.{reads_code};
    ghost use Rattle.replica_core.specs.Code.{replica_code};
    ghost use Rattle.world.specs.WorldSteps.{WorldState};
    ghost use Rattle.world.specs.Actors.{world_of};

    ghost Value = { Machine WorldState };

    ghost coded = { Prim.hlevel (codes, replica_code, client.the_row.coded, reads_code) };

    ghost view = { λ w. record { failed = w.failed; state = world_of w.actors } };

    ghost use Rattle.std.specs.Prelude.{◌≡◌, length};

    ghost invariant = { λ w. (length w.actors.replicas.items ≡ w.actors.config.replicas)
        × (length w.actors.observers.items ≡ w.actors.config.observers) };
}

// By hand, so that a crate with a world proves nothing on how its parts are dropped.
impl<H: Host> Drop for World<H> {
    fn drop(self) {
        let World {
            alloc: _alloc,
            failed: _failed,
            actors: _actors,
        } = self;
    }
}

impl<H: Host> World<H> {
    /// All actors in their opening states, and nothing sent.
    pub fn new(alloc: Global, config: Config) -> Result<World<H>, NoMemory>
        ensures { IfOk result (λ w. w ≡ record { failed = false; state = opening config }) }
    {
        let actors = Actors::new(alloc, config, Network::new(alloc))?;
        Ok(World {
            alloc,
            failed: false,
            actors,
        })
    }

    /// As `new`. `find` then takes no longer the more datagrams were sent; the index holds each
    /// datagram once more.
    pub fn with_index(alloc: Global, config: Config) -> Result<World<H>, NoMemory>
        ensures { IfOk result (λ w. w ≡ record { failed = false; state = opening config }) }
    {
        let actors = Actors::new(alloc, config, Network::with_index(alloc))?;
        Ok(World {
            alloc,
            failed: false,
            actors,
        })
    }

    /// One event. A refused event changes nothing; after NoMemory each later step answers it again.
    pub fn step(&mut self, event: &Event) -> Result<Lines, StepError>
        ensures ok { IfOk result (Happens (step H.meaning self.old.state event.now)
            self.new.state) }
        ensures err { IfErr result (λ e. Refuses e (step H.meaning self.old.state event.now)
            (self.new ≡ self.old)) }
        ensures fits { EventFits event.now }
        ensures well { OnOk result ((self.old.failed ≡ false) × (self.new.failed ≡ false)) }
        ensures failed { IsErrOf result StepError.NoMemory → self.new.failed ≡ true }
        ensures for_good { self.old.failed ≡ true → IsErrOf result StepError.NoMemory }
    {
        limits(event);
        if self.failed {
            return Err(StepError::NoMemory);
        }
        let done = self.actors.step(self.alloc, event);
        if matches!(&done, Err(StepError::NoMemory)) {
            self.failed = true;
        }
        done
    }

    /// One event as in `step`, with what its actor gave as values, None where it had crashed before. Entries that were trimmed are in
    /// the archive, and not among it.
    pub fn step_outs(&mut self, event: &Event) -> Result<Option<Outbox>, StepError>
        ensures ok { IfOk result (Gives (step H.meaning self.old.state event.now)
            (actor_of event.now) self.old.state self.new.state) }
        ensures err { IfErr result (λ e. Refuses e (step H.meaning self.old.state event.now)
            (self.new ≡ self.old)) }
        ensures fits { EventFits event.now }
        ensures well { OnOk result ((self.old.failed ≡ false) × (self.new.failed ≡ false)) }
        ensures failed { IsErrOf result StepError.NoMemory → self.new.failed ≡ true }
        ensures for_good { self.old.failed ≡ true → IsErrOf result StepError.NoMemory }
    {
        limits(event);
        if self.failed {
            return Err(StepError::NoMemory);
        }
        let given = self.actors.step_outs(self.alloc, event);
        if matches!(&given, Err(StepError::NoMemory)) {
            self.failed = true;
        }
        given
    }

    pub fn config(&self) -> Config
        ensures { result ≡ self.now.state.config }
    {
        self.actors.config
    }

    /// The datagram with this index, copied, None where it was not sent yet.
    pub fn sent(&self, i: u64) -> Result<Option<Bytes>, NoMemory>
        ensures { IfOk result (λ o. o
            ≡ option_map (λ s. s.bytes) (slice_get self.now.state.sent i)) }
    {
        self.actors.network.get(i)
    }

    pub fn sent_count(&self) -> u64
        ensures { result ≡ length self.now.state.sent }
    {
        self.actors.network.len()
    }

    /// The replica with this number.
    pub fn replica(&self, i: u8) -> Option<&Replica<H>>
        ensures some { IsSome result ↔ (i < self.now.state.config.replicas) }
        ensures state { option_map (λ r. r.now.state) result
            ≡ option_map (λ p. p.state) (slice_get self.now.state.replicas i) }
    {
        core_at(&self.actors.replicas, i as usize)
    }

    /// The observer with this number.
    pub fn observer(&self, i: u8) -> Option<&Observer<H>>
        ensures some { IsSome result ↔ (i < self.now.state.config.observers) }
        ensures state { option_map (λ o. o.now.state) result
            ≡ option_map (λ p. p.state) (slice_get self.now.state.observers i) }
    {
        core_at(&self.actors.observers, i as usize)
    }

    /// Whether an actor crashed, false for an actor that is not of the configuration.
    pub fn crashed(&self, actor: Actor) -> bool
        ensures { result ≡ has_crashed self.now.state actor }
    {
        self.actors.crashed(actor)
    }

    /// Appends a line for each replica, and one for each slot of it up to its sync point.
    pub fn replica_lines(&self, to: &mut Vec<u8>) -> Result<(), NoMemory>
        ensures ok { OnOk result (to.new.items ≡ to.old.items
            ++ replicas_text self.now.state.archive 0 self.now.state.replicas) }
        ensures err { OnErr result (to.new.items ≡ to.old.items) }
    {
        // at most seven
        let _count = self.actors.config.replicas();
        let mut lines = Vec::new(self.alloc);
        put_replicas(
            self.actors.archive.entries(),
            &self.actors.replicas,
            &mut lines,
        )?;
        to.extend_from_slice(&lines)?;
        Ok(())
    }

    /// Appends a line for each observer.
    pub fn observer_lines(&self, to: &mut Vec<u8>) -> Result<(), NoMemory>
        ensures ok { OnOk result (to.new.items ≡ to.old.items
            ++ observers_text 0 self.now.state.observers) }
        ensures err { OnErr result (to.new.items ≡ to.old.items) }
    {
        // at most four
        let _count = self.actors.config.observers();
        let mut lines = Vec::new(self.alloc);
        put_observers(&self.actors.observers, &mut lines)?;
        to.extend_from_slice(&lines)?;
        Ok(())
    }

    /// The history: the requests of one log that are executed, in order. It is the log of the leader of the greatest last normal view, by session and then by
    /// leader number, among all replicas, crashed ones too.
    pub fn history(&self) -> Result<Vec<Request>, NoMemory>
        ensures { IfOk result (λ v. v.items ≡ history self.now.state) }
    {
        history_of(self.alloc, main_log(&self.actors))
    }
}
