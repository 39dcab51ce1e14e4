//! Whether the own process may have its number, and what is answered to others that ask so.

ghost use Rattle.std.specs.Prelude.{◌≡◌, IfOk, IsTrue, IsFalse, OnErr};
ghost use Rattle.admission.specs.Registries.{answer_to, answered};
ghost use Rattle.admission.specs.Rounds.{heard};
ghost use Rattle.udp_ports.specs.Guards.{GoesOn, Greets, IsAdmitted, IsNoGreeting, Ran, actors_at};
ghost use Rattle.udp_ports.specs.Guards.{question};

use crate::places::{Place, Source};
use crate::socket::{Patience, Socket};
use admission::{Admission, Greeting, Own, Registry, Standing, Word};
use nop_types::{Actor, MAX_SERVED, NoMemory, number_of};
use outside::AttachError;
use std::alloc::Global;
use std::time::Clock;

/// Where a process is: the places of all actors, and the port of its own. With `claims` it claims a number there, as the process that
/// it is; else its link only listens.
#[derive(Clone, Copy)]
pub struct Home<'a> {
    pub places: &'a [Place],
    pub port: u16,
    pub claims: Option<Own>,
}

/// Who has which number, as far as this link was told, and how the own process stands.
#[derive(Drop)]
pub(crate) struct Guard {
    own: Own,
    registry: Registry,
    admission: Admission,
    now: u64,
}

fn question(own: Own, word: Word) -> Greeting
    ensures { result ≡ question own word }
{
    Greeting {
        word,
        digest: own.digest,
        number: number_of(own.actor),
        process: own.process,
    }
}

fn actors_of(alloc: Global, places: &[Place]) -> Result<Vec<Actor>, NoMemory>
    ensures { IfOk result (λ actors. actors.items ≡ actors_at places.now) }
{
    let mut actors = Vec::new(alloc);
    for place in places {
        actors.push(place.actor)?;
    }
    Ok(actors)
}

/// The port of an actor that is asked.
fn port_of(places: &[Place], actor: Actor) -> Option<u16> {
    let place = places.iter().find(|p| p.actor == actor)?;
    Some(place.port)
}

impl Guard {
    /// Nothing is noted, and nothing asked.
    fn new(alloc: Global, places: &[Place], own: Own, now: u64) -> Result<Guard, NoMemory>
        ensures { IfOk result (Ran own (actors_at places.now)) }
    {
        let nodes = actors_of(alloc, places)?;
        Ok(Guard {
            own,
            registry: Registry::new(alloc, own.digest, MAX_SERVED),
            admission: Admission::new(alloc, own, &nodes, now)?,
            now,
        })
    }

    /// Takes a greeting from the address of an actor, and answers it.
    fn hear(&mut self, from: Actor, greeting: Greeting) -> Result<Option<Greeting>, NoMemory>
        ensures ok { IfOk result (λ answer. let after = answered self.old.registry from greeting in
            (self.new.registry ≡ after.0) × (answer ≡ answer_to greeting after.1)) }
        ensures err { OnErr result (self.new.registry ≡ self.old.registry) }
        ensures heard { self.new.admission ≡ heard self.old.admission from greeting }
        ensures own { self.new.own ≡ self.old.own }
    {
        self.admission.hear(from, greeting);
        self.registry.answer(from, greeting)
    }

    /// Goes on by the clock, and asks all that have not answered, where it is time to.
    fn ask<R: Clock>(&mut self, socket: &Socket<'_, R>, places: &[Place])
        ensures { GoesOn self.old self.new }
    {
        self.now = socket.micros().unwrap_or(0).max(self.now);
        let Some(word) = self.admission.turn(self.now) else {
            return;
        };
        let greeting = question(self.own, word).to_bytes();
        for other in self.admission.others() {
            if !other.has_answered {
                if let Some(port) = port_of(places, other.actor) {
                    let _sent = socket.has_sent(port, &greeting);
                }
            }
        }
    }

    /// Claims again at those that have not noted it, where it is time to.
    pub(crate) fn remind<R: Clock>(&mut self, socket: &Socket<'_, R>, places: &[Place])
        ensures { GoesOn self.old self.new }
    {
        if !self.admission.others().iter().all(|o| o.has_answered) {
            self.ask(socket, places);
        }
    }

    /// Takes a greeting from someone whose place is known, and sends the answer. Whether the bytes are a greeting.
    pub(crate) fn greet<R: Clock>(
        &mut self,
        socket: &Socket<'_, R>,
        from: Place,
        bytes: &[u8],
    ) -> bool
        ensures greeting { IsTrue result → Greets from.actor bytes.now self.old self.new }
        ensures own { self.new.own ≡ self.old.own }
        ensures other { IsFalse result → IsNoGreeting bytes.now × (self.new ≡ self.old) }
    {
        let Ok(greeting) = Greeting::read(bytes) else {
            return false;
        };
        if let Ok(Some(answer)) = self.hear(from.actor, greeting) {
            let _sent = socket.has_sent(from.port, &answer.to_bytes());
        }
        true
    }

    /// Waits for a greeting. Any other datagram is dropped.
    fn wait<R: Clock>(&mut self, socket: &mut Socket<'_, R>) -> Result<(), AttachError>
        ensures { GoesOn self.old self.new }
    {
        if let Some(received) = socket.receive(Patience::Waits)? {
            if let Source::Known(from) = received.source {
                self.greet(socket, from, received.bytes.as_slice());
            }
        }
        Ok(())
    }
}

/// Asks the others whether the process may have its number, until it is told. `Failed` where it may not, or too few answer.
pub(crate) fn admit<R: Clock>(
    alloc: Global,
    socket: &mut Socket<'_, R>,
    places: &[Place],
    own: Own,
) -> Result<Guard, AttachError>
    ensures { IfOk result (IsAdmitted own (actors_at places.now)) }
{
    let now = socket.micros().unwrap_or(0);
    let mut guard = Guard::new(alloc, places, own, now)?;
    for _ in 0..u64::MAX {
        guard.ask(socket, places);
        match guard.admission.standing() {
            Standing::Going => guard.wait(socket)?,
            Standing::Admitted => return Ok(guard),
            Standing::Refused | Standing::Late => break,
        }
    }
    Err(AttachError::Failed)
}
