ghost use Rattle.std.specs.Prelude.{◌≡◌, ◌++◌, ◌∷◌, [], take, OnOk, OnErr};
ghost use Rattle.nop_types.specs.Actors.{number_of, same_actor};

use crate::{Bytes, Key, Log, NoMemory, Request};
use std::alloc::Global;
use std::marker::Model;

/// One of the machines, by kind and number.
#[derive(Clone, Copy, Debug, PartialEq, Eq)]
pub enum Actor {
    Replica(u8),
    Sequencer(u8),
    Client(u32),
    Controller(u8),
    Observer(u8),
}

/// Whether both are one.
pub fn same_actor(a: Actor, b: Actor) -> bool
    ensures { result ≡ same_actor a b }
{
    match (a, b) {
        (Actor::Replica(i), Actor::Replica(j)) => i == j,
        (Actor::Sequencer(i), Actor::Sequencer(j)) => i == j,
        (Actor::Client(i), Actor::Client(j)) => i == j,
        (Actor::Controller(i), Actor::Controller(j)) => i == j,
        (Actor::Observer(i), Actor::Observer(j)) => i == j,
        _ => false,
    }
}

/// The number of an actor among those of its kind.
pub fn number_of(actor: Actor) -> u32
    ensures { result ≡ number_of actor }
{
    match actor {
        Actor::Replica(i) | Actor::Sequencer(i) | Actor::Controller(i) | Actor::Observer(i) => {
            u32::from(i)
        }
        Actor::Client(i) => i,
    }
}

/// Where a datagram is sent: to all replicas, to all sequencers, or to one actor.
#[derive(Clone, Copy, Debug, PartialEq, Eq)]
pub enum Dest {
    Replicas,
    Sequencers,
    One(Actor),
}

/// A request that a client had accepted: its id, the slot of its leader's reply, and the result.
#[derive(Drop)]
pub struct Accept {
    pub id: u64,
    pub slot: u32,
    pub result: Bytes,
}

/// What a core gives in one step.
#[derive(Debug, Drop)]
pub enum Out {
    Send(Dest, Bytes),
    Submitted(Request),
    Accepted {
        client: u32,
        id: u64,
        result: Bytes,
    },
    Busy(u32),
    /// A client asks the observer with this number for a key.
    Reading {
        client: u32,
        id: u64,
        observer: u8,
        key: Key,
    },
    /// The answer to a read, from the state after the first `position` slots.
    Answered {
        client: u32,
        id: u64,
        observer: u8,
        position: u32,
        result: Bytes,
    },
    /// The sync point of a replica rose: these entries, from the slot `first` on, moved out of its log. The log has no checkpoint and
    /// sync point 0.
    Trimmed {
        first: u32,
        entries: Log,
    },
}

/// What a step gave, in order.
#[derive(Debug, Drop)]
pub struct Outbox {
    outs: Vec<Out>,
}

impl Model for Outbox {
    ghost use Rattle.std.specs.Prelude.{List};
    ghost use Rattle.nop_types.specs.declared.output.Out.{Out};

    ghost Value = { List Out };

    ghost view = { λ o. o.outs.items };
}

impl Outbox {
    pub fn new(alloc: Global) -> Outbox
        ensures { result ≡ [] }
    {
        Outbox {
            outs: Vec::new(alloc),
        }
    }

    pub fn as_slice(&self) -> &[Out]
        ensures { result.now ≡ self.now }
    {
        &self.outs
    }

    pub fn push(&mut self, out: Out) -> Result<(), NoMemory>
        ensures ok { OnOk result (self.new ≡ self.old ++ out ∷ []) }
        ensures err { OnErr result (self.new ≡ self.old) }
    {
        self.outs.push(out)?;
        Ok(())
    }

    /// Puts the outputs of the other behind these; where there are none yet, they move without a copy.
    pub fn append(&mut self, other: Outbox) -> Result<(), NoMemory>
        ensures ok { OnOk result (self.new ≡ self.old ++ other) }
        ensures err { OnErr result (self.new ≡ self.old) }
    {
        let Outbox { mut outs } = other;
        if self.outs.is_empty() {
            self.outs = outs;
            return Ok(());
        }
        self.outs.append(&mut outs)?;
        Ok(())
    }

    /// The outputs as a vector, without a copy.
    pub fn into_vec(self) -> Vec<Out>
        ensures { result.items ≡ self }
    {
        let Outbox { outs } = self;
        outs
    }

    /// Keeps the first `len` outputs, and the capacity.
    pub fn truncate(&mut self, len: usize)
        ensures { self.new ≡ take len self.old }
    {
        self.outs.truncate(len);
    }
}
