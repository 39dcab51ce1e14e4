//! What was never delivered.

ghost use Rattle.std.specs.Prelude.{◌≡◌, ◌++◌, OnOk, IfOk};
ghost use Rattle.picture_arrows.specs.Missed.{
  had_crashed,
  is_for,
  missed_at,
  missed_from,
  misses,
};

use crate::flight::Flight;
use crate::lane_actors::{has, is_replica, is_sequencer};
use nop_types::{
    Actor, Dest, MAX_CLIENTS, MAX_CONTROLLERS, MAX_OBSERVERS, MAX_REPLICAS, MAX_SEQUENCERS,
    NoMemory,
};
use picture::{Loss, Text, same};
use std::alloc::Global;

/// The most actors of a run.
const MAX_ACTORS: usize = MAX_REPLICAS as usize
    + MAX_SEQUENCERS as usize
    + MAX_CLIENTS as usize
    + MAX_CONTROLLERS as usize
    + MAX_OBSERVERS as usize;

/// An actor that crashed in a row.
#[derive(Clone, Copy)]
pub struct Crash {
    pub actor: Actor,
    pub row: usize,
}

/// A datagram by its index, the row that sent it, and an actor that never got it.
#[derive(Clone, Copy)]
struct Miss {
    index: usize,
    row: usize,
    to: Actor,
}

/// The first of the datagrams of a row that an actor never got, and how many more there are.
#[derive(Clone, Copy)]
struct Cross {
    first: Miss,
    more: u64,
}

fn is_for(dest: Dest, actor: Actor) -> bool
    ensures { result ≡ is_for dest actor }
{
    match dest {
        Dest::One(one) => same(one, actor),
        Dest::Replicas => is_replica(actor),
        Dest::Sequencers => is_sequencer(actor),
    }
}

fn had_crashed(crashes: &[Crash], row: usize, actor: Actor) -> bool
    ensures { result ≡ had_crashed crashes.now row actor }
{
    crashes
        .iter()
        .any(|crash| same(crash.actor, actor) && crash.row <= row)
}

/// Whether an actor should have got the datagram and did not. An actor that had crashed misses nothing.
fn misses(crashes: &[Crash], flight: &Flight, actor: Actor) -> bool
    ensures { result ≡ misses crashes.now flight.now actor }
{
    is_for(flight.leg.dest, actor)
        && !same(flight.leg.from, actor)
        && !has(&flight.reached, actor)
        && !had_crashed(crashes, flight.leg.sent, actor)
}

fn put_missed(
    actors: &[Actor],
    crashes: &[Crash],
    index: usize,
    flight: &Flight,
    missed: &mut Vec<Miss>,
) -> Result<(), NoMemory>
    ensures { OnOk result (missed.new.items ≡ missed.old.items
        ++ missed_at actors.now crashes.now index flight.now) }
{
    for actor in actors {
        if misses(crashes, flight, *actor) {
            missed.push(Miss {
                index,
                row: flight.leg.sent,
                to: *actor,
            })?;
        }
    }
    Ok(())
}

/// What was never delivered, in the order of sending.
#[tactic(auto, using(crate::proofs::MissedLemmas::missed_from_more))]
fn missed(
    alloc: Global,
    actors: &[Actor],
    flights: &[Flight],
    crashes: &[Crash],
) -> Result<Vec<Miss>, NoMemory>
    ensures { IfOk result (λ v. v.items ≡ missed_from actors.now crashes.now 0 flights.now) }
{
    let mut missed = Vec::new(alloc);
    for (i, flight) in flights.iter().enumerate() {
        put_missed(actors, crashes, i, flight, &mut missed)?;
    }
    Ok(missed)
}

fn is_further(miss: Miss, other: Miss) -> bool {
    other.row == miss.row && same(other.to, miss.to)
}

/// Whether the miss stands behind one of the last crosses, where it is counted.
fn is_counted(miss: Miss, crosses: &mut Vec<Cross>) -> bool {
    let first = crosses.len().saturating_sub(MAX_ACTORS);
    for cross in crosses.iter_mut().skip(first) {
        if is_further(cross.first, miss) {
            cross.more = cross.more.saturating_add(1);
            return true;
        }
    }
    false
}

/// A cross for each row and actor, in the order of sending.
fn crosses(alloc: Global, missed: &[Miss]) -> Result<Vec<Cross>, NoMemory> {
    let mut crosses = Vec::new(alloc);
    for miss in missed {
        if !is_counted(*miss, &mut crosses) {
            crosses.push(Cross {
                first: *miss,
                more: 0,
            })?;
        }
    }
    Ok(crosses)
}

fn label(alloc: Global, brief: &str, more: u64) -> Result<String, NoMemory> {
    let mut text = Text::new(alloc);
    text.put(brief);
    if more > 0 {
        text.numbered(" +", more);
    }
    text.finish()
}

fn loss_of(alloc: Global, flight: &Flight, cross: Cross) -> Result<Loss, NoMemory> {
    Ok(Loss {
        purpose: flight.leg.purpose,
        from: flight.leg.from,
        sent: cross.first.row,
        to: cross.first.to,
        text: label(alloc, flight.brief.as_str(), cross.more)?,
    })
}

fn put_loss(
    alloc: Global,
    flights: &[Flight],
    cross: Cross,
    losses: &mut Vec<Loss>,
) -> Result<(), NoMemory> {
    if let Some(flight) = flights.get(cross.first.index) {
        losses.push(loss_of(alloc, flight, cross)?)?;
    }
    Ok(())
}

fn losses_at(alloc: Global, flights: &[Flight], crosses: &[Cross]) -> Result<Vec<Loss>, NoMemory> {
    let mut losses = Vec::new(alloc);
    for cross in crosses {
        put_loss(alloc, flights, *cross, &mut losses)?;
    }
    Ok(losses)
}

/// One cross for all datagrams of a row that an actor never got.
pub fn losses(
    alloc: Global,
    actors: &[Actor],
    flights: &[Flight],
    crashes: &[Crash],
) -> Result<Vec<Loss>, NoMemory> {
    let missed = missed(alloc, actors, flights, crashes)?;
    let crosses = crosses(alloc, &missed)?;
    losses_at(alloc, flights, &crosses)
}
