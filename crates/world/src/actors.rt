ghost use Rattle.std.specs.Prelude.{◌≡◌, [], IfOk, IfErr, OnOk, Ok, length, map, option_map};
ghost use Rattle.replica_core.specs.ReplicaSteps as replica;
ghost use Rattle.sequencer.specs.SequencerSteps as sequencer;
ghost use Rattle.session_control.specs.ControllerSteps as controller;
ghost use Rattle.observer.specs.ObserverSteps as observer;
ghost use Rattle.world.specs.Actors.{world_of, moved_out, Gives, Happens};
ghost use Rattle.network.specs.Network.{did_of};
ghost use Rattle.world.specs.Others.{who};
ghost use Rattle.world.specs.SeatOutcomes.{seated_of, Refuses};
ghost use Rattle.world.specs.Untrimmed.{untrimmed};
ghost use Rattle.world.specs.WorldSteps.{
  actor_of,
  carried,
  numbered_seats,
  has_crashed,
  opening,
  opening_client,
  step,
  step_of,
  stimulus_of,
};

use crate::archive::Archive;
use crate::seat::{Seat, is_crashed, take_at};
use crate::step_error::StepError;
use crate::stimulus::actor_of;
use client_quorum::Client;
use network::{Lines, Network, carry_out, send_all};
use nop_types::{Actor, Config, Host, NoMemory, Outbox};
use observer::Observer;
use replica_core::Replica;
use schedule_text::Event;
use sequencer::Sequencer;
use session_control::Controller;
use std::alloc::Global;

/// All actors, the network between them, and what moved out of logs.
#[derive(Drop)]
pub struct Actors<H: Host> {
    pub config: Config,
    pub replicas: Vec<Seat<Replica<H>>>,
    pub sequencers: Vec<Seat<Sequencer>>,
    pub clients: Vec<Seat<Client>>,
    pub controllers: Vec<Seat<Controller>>,
    pub observers: Vec<Seat<Observer<H>>>,
    pub network: Network,
    pub archive: Archive,
}

fn replicas<H: Host>(alloc: Global, config: Config) -> Result<Vec<Seat<Replica<H>>>, NoMemory>
    ensures seats { IfOk result (λ v. map (seated_of (λ r. r.state)) v.items
        ≡ numbered_seats (replica.opening config) config.replicas) }
    ensures count { IfOk result (λ v. length v.items ≡ config.replicas) }
{
    let mut seats = Vec::new(alloc);
    for number in 0..config.replicas() {
        seats.push(Seat::new(Replica::new(alloc, config, number)?))?;
    }
    Ok(seats)
}

fn sequencers(alloc: Global, config: Config) -> Result<Vec<Seat<Sequencer>>, NoMemory>
    ensures { IfOk result (λ v. map (seated_of (λ s. s.state)) v.items
        ≡ numbered_seats sequencer.opening config.sequencers) }
{
    let mut seats = Vec::new(alloc);
    for number in 0..config.sequencers() {
        seats.push(Seat::new(Sequencer::new(alloc, number)?))?;
    }
    Ok(seats)
}

/// Clients without ops of their own: events submit theirs.
fn clients(alloc: Global, config: Config) -> Result<Vec<Seat<Client>>, NoMemory>
    ensures { IfOk result (λ v. map (seated_of (λ c. c.state)) v.items
        ≡ numbered_seats (opening_client config) config.clients) }
{
    let mut seats = Vec::new(alloc);
    for number in 0..config.clients() {
        let ops = Vec::new(alloc);
        seats.push(Seat::new(Client::new(alloc, config, u32::from(number), ops)?))?;
    }
    Ok(seats)
}

fn controllers(alloc: Global, config: Config) -> Result<Vec<Seat<Controller>>, NoMemory>
    ensures { IfOk result (λ v. map (seated_of (λ c. c.state)) v.items
        ≡ numbered_seats (controller.opening config) config.controllers) }
{
    let mut seats = Vec::new(alloc);
    for number in 0..config.controllers() {
        seats.push(Seat::new(Controller::new(alloc, config, number)?))?;
    }
    Ok(seats)
}

fn observers<H: Host>(alloc: Global, config: Config) -> Result<Vec<Seat<Observer<H>>>, NoMemory>
    ensures seats { IfOk result (λ v. map (seated_of (λ o. o.state)) v.items
        ≡ numbered_seats (observer.opening config) config.observers) }
    ensures count { IfOk result (λ v. length v.items ≡ config.observers) }
{
    let mut seats = Vec::new(alloc);
    for number in 0..config.observers() {
        seats.push(Seat::new(Observer::new(alloc, config, number)?))?;
    }
    Ok(seats)
}

impl<H: Host> Actors<H> {
    /// All actors in their opening states, around a network in which nothing is sent yet.
    pub fn new(alloc: Global, config: Config, network: Network) -> Result<Actors<H>, NoMemory>
        requires { network ≡ [] }
        ensures opening { IfOk result (λ a. world_of a ≡ opening config) }
        ensures count { IfOk result (λ a. length a.replicas.items ≡ a.config.replicas) }
        ensures observers { IfOk result (λ a. length a.observers.items ≡ a.config.observers) }
    {
        Ok(Actors {
            config,
            replicas: replicas(alloc, config)?,
            sequencers: sequencers(alloc, config)?,
            clients: clients(alloc, config)?,
            controllers: controllers(alloc, config)?,
            observers: observers(alloc, config)?,
            network,
            archive: Archive::new(alloc),
        })
    }

    /// The step that an event of this actor is, before what the actor did is carried out.
    fn take(
        &mut self,
        alloc: Global,
        actor: Actor,
        event: &Event,
    ) -> Result<Option<Outbox>, StepError>
        ensures config { self.new.config ≡ self.old.config }
        ensures count { length self.new.replicas.items ≡ length self.old.replicas.items }
        ensures observers { length self.new.observers.items ≡ length self.old.observers.items }
        ensures network { self.new.network ≡ self.old.network }
        ensures archive { self.new.archive ≡ self.old.archive }
        ensures ok { IfOk result (λ outs. step_of H.meaning (world_of self.old) (who actor)
            (stimulus_of self.old.config self.old.network event.now)
            ≡ Ok (carried (world_of self.old) actor (did_of outs)
            (moved_out actor (did_of outs) (world_of self.new)))) }
        ensures err { IfErr result (λ e. Refuses e
            (step_of H.meaning (world_of self.old) (who actor)
            (stimulus_of self.old.config self.old.network event.now))
            (world_of self.new ≡ world_of self.old)) }
    {
        let config = self.config;
        let network = &self.network;
        match actor {
            Actor::Replica(i) => {
                take_at(
                    alloc,
                    config,
                    network,
                    &mut self.replicas,
                    i as usize,
                    event,
                )
            }
            Actor::Sequencer(i) => {
                take_at(
                    alloc,
                    config,
                    network,
                    &mut self.sequencers,
                    i as usize,
                    event,
                )
            }
            Actor::Client(i) => {
                take_at(alloc, config, network, &mut self.clients, i as usize, event)
            }
            Actor::Controller(i) => {
                take_at(
                    alloc,
                    config,
                    network,
                    &mut self.controllers,
                    i as usize,
                    event,
                )
            }
            Actor::Observer(i) => {
                take_at(
                    alloc,
                    config,
                    network,
                    &mut self.observers,
                    i as usize,
                    event,
                )
            }
        }
    }

    /// One event is one step of one actor.
    #[tactic(auto, unfolding(crate::specs::WorldSteps::step))]
    pub fn step(&mut self, alloc: Global, event: &Event) -> Result<Lines, StepError>
        ensures config { self.new.config ≡ self.old.config }
        ensures count { length self.new.replicas.items ≡ length self.old.replicas.items }
        ensures observers { length self.new.observers.items ≡ length self.old.observers.items }
        ensures ok { IfOk result (Happens (step H.meaning (world_of self.old) event.now)
            (world_of self.new)) }
        ensures err { IfErr result (λ e. Refuses e (step H.meaning (world_of self.old) event.now)
            (world_of self.new ≡ world_of self.old)) }
    {
        let actor = actor_of(event);
        let did = self.take(alloc, actor, event)?;
        let lines = carry_out(alloc, &mut self.network, actor, &did)?;
        if let Actor::Replica(_) = actor {
            self.archive.keep(did)?;
        }
        Ok(lines)
    }

    /// What an actor gave, without entries that moved out of a log: those of a replica are in the archive then.
    fn put_away(
        &mut self,
        alloc: Global,
        actor: Actor,
        did: Option<Outbox>,
    ) -> Result<Option<Outbox>, NoMemory>
        ensures config { self.new.config ≡ self.old.config }
        ensures count { length self.new.replicas.items ≡ length self.old.replicas.items }
        ensures observers { length self.new.observers.items ≡ length self.old.observers.items }
        ensures archive { OnOk result (world_of self.new
            ≡ moved_out actor (did_of did) (world_of self.old)) }
        ensures rest { IfOk result (λ rest. rest ≡ option_map untrimmed did) }
    {
        let Some(outs) = did else {
            return Ok(None);
        };
        if let Actor::Replica(_) = actor {
            return Ok(Some(self.archive.take_trimmed(alloc, outs)?));
        }
        // no other actor has a log
        let mut unread = Archive::new(alloc);
        Ok(Some(unread.take_trimmed(alloc, outs)?))
    }

    /// One event as in `step`, with what its actor gave, None where it had crashed before. No line is written.
    #[tactic(auto, unfolding(crate::specs::WorldSteps::step))]
    pub fn step_outs(&mut self, alloc: Global, event: &Event) -> Result<Option<Outbox>, StepError>
        ensures config { self.new.config ≡ self.old.config }
        ensures count { length self.new.replicas.items ≡ length self.old.replicas.items }
        ensures observers { length self.new.observers.items ≡ length self.old.observers.items }
        ensures ok { IfOk result (Gives (step H.meaning (world_of self.old) event.now)
            (actor_of event.now) (world_of self.old) (world_of self.new)) }
        ensures err { IfErr result (λ e. Refuses e (step H.meaning (world_of self.old) event.now)
            (world_of self.new ≡ world_of self.old)) }
    {
        let actor = actor_of(event);
        let did = self.take(alloc, actor, event)?;
        send_all(&mut self.network, actor, &did)?;
        Ok(self.put_away(alloc, actor, did)?)
    }

    /// Whether an actor crashed, false for an actor that is not of the configuration.
    pub fn crashed(&self, actor: Actor) -> bool
        ensures { result ≡ has_crashed (world_of self.now) actor }
    {
        match actor {
            Actor::Replica(i) => is_crashed(&self.replicas, i as usize),
            Actor::Sequencer(i) => is_crashed(&self.sequencers, i as usize),
            Actor::Client(i) => is_crashed(&self.clients, i as usize),
            Actor::Controller(i) => is_crashed(&self.controllers, i as usize),
            Actor::Observer(i) => is_crashed(&self.observers, i as usize),
        }
    }
}
