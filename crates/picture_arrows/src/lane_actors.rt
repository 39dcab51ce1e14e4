//! Which actors there are, and which of them have a lane.

ghost use Rattle.std.specs.Prelude.{◌≡◌, ◌++◌, OnOk, IfOk, filter};
ghost use Rattle.std.specs.List.{list_any};
ghost use Rattle.nop_types.specs.declared.output.Actor.TheVariants as kinds;
ghost use Rattle.picture_arrows.specs.Actors.{
  actors_of,
  numbered,
  has,
  has_lane,
  is_replica,
  is_sequencer,
  lacks,
  takes_step,
};

use nop_types::{Actor, Config, NoMemory};
use picture::{Loss, Row, same};
use std::alloc::Global;

pub fn has(actors: &[Actor], actor: Actor) -> bool
    ensures { result ≡ has actors.now actor }
{
    actors.iter().any(|one| same(*one, actor))
}

pub fn is_replica(actor: Actor) -> bool
    ensures { result ≡ is_replica actor }
{
    match actor {
        Actor::Replica(_) => true,
        _ => false,
    }
}

pub fn is_sequencer(actor: Actor) -> bool
    ensures { result ≡ is_sequencer actor }
{
    match actor {
        Actor::Sequencer(_) => true,
        _ => false,
    }
}

fn put_controllers(count: u8, actors: &mut Vec<Actor>) -> Result<(), NoMemory>
    ensures { OnOk result (actors.new.items
        ≡ actors.old.items ++ numbered kinds.Controller count) }
{
    for i in 0..count {
        actors.push(Actor::Controller(i))?;
    }
    Ok(())
}

fn put_clients(count: u8, actors: &mut Vec<Actor>) -> Result<(), NoMemory>
    ensures { OnOk result (actors.new.items ≡ actors.old.items ++ numbered kinds.Client count) }
{
    for i in 0..count {
        actors.push(Actor::Client(u32::from(i)))?;
    }
    Ok(())
}

fn put_sequencers(count: u8, actors: &mut Vec<Actor>) -> Result<(), NoMemory>
    ensures { OnOk result (actors.new.items ≡ actors.old.items ++ numbered kinds.Sequencer count) }
{
    for i in 0..count {
        actors.push(Actor::Sequencer(i))?;
    }
    Ok(())
}

fn put_replicas(count: u8, actors: &mut Vec<Actor>) -> Result<(), NoMemory>
    ensures { OnOk result (actors.new.items ≡ actors.old.items ++ numbered kinds.Replica count) }
{
    for i in 0..count {
        actors.push(Actor::Replica(i))?;
    }
    Ok(())
}

fn put_observers(count: u8, actors: &mut Vec<Actor>) -> Result<(), NoMemory>
    ensures { OnOk result (actors.new.items ≡ actors.old.items ++ numbered kinds.Observer count) }
{
    for i in 0..count {
        actors.push(Actor::Observer(i))?;
    }
    Ok(())
}

/// All actors of a configuration, from left to right: controllers, clients, sequencers, replicas, observers.
pub fn actors(alloc: Global, config: Config) -> Result<Vec<Actor>, NoMemory>
    ensures { IfOk result (λ v. v.items ≡ actors_of config) }
{
    let mut actors = Vec::new(alloc);
    put_controllers(config.controllers(), &mut actors)?;
    put_clients(config.clients(), &mut actors)?;
    put_sequencers(config.sequencers(), &mut actors)?;
    put_replicas(config.replicas(), &mut actors)?;
    put_observers(config.observers(), &mut actors)?;
    Ok(actors)
}

fn takes_step(rows: &[Row], actor: Actor) -> bool
    ensures { result ≡ takes_step rows.now actor }
{
    rows.iter().any(|row| same(row.actor, actor))
}

fn lacks(losses: &[Loss], actor: Actor) -> bool
    ensures { result ≡ lacks losses.now actor }
{
    losses.iter().any(|loss| same(loss.to, actor))
}

/// Whether an actor has a lane: a replica, or one that takes a step or should have got a datagram.
fn has_lane(rows: &[Row], losses: &[Loss], actor: Actor) -> bool
    ensures { result ≡ has_lane rows.now losses.now actor }
{
    is_replica(actor) || takes_step(rows, actor) || lacks(losses, actor)
}

/// The lanes from left to right.
pub fn lanes(
    alloc: Global,
    actors: &[Actor],
    rows: &[Row],
    losses: &[Loss],
) -> Result<Vec<Actor>, NoMemory>
    ensures { IfOk result (λ v. v.items ≡ filter (has_lane rows.now losses.now) actors.now) }
{
    let mut lanes = Vec::new(alloc);
    for actor in actors {
        if has_lane(rows, losses, *actor) {
            lanes.push(*actor)?;
        }
    }
    Ok(lanes)
}
