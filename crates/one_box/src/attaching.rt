ghost use Rattle.std.specs.Prelude.{◌≡◌, ◌≤◌, ◌<◌, ◌++◌, ◌∷◌, [], map, length, slice_get};
ghost use Rattle.std.specs.Prelude.{Some, IfOk, OnOk};
ghost use Rattle.nop_types.specs.declared.output.Actor.TheVariants as kinds;
ghost use Rattle.outside.specs.Causes.{CountsFor};
ghost use Rattle.outside.specs.declared.errors.DeviceError.TheVariants as devices;
ghost use Rattle.outside.specs.Observed.{Stays};
ghost use Rattle.udp_node.specs.Timing.{armed};
ghost use Rattle.world.specs.Lookups.{timers_of};
ghost use Rattle.world.specs.WorldSteps.{opening};
ghost use Rattle.one_box.specs.Actors.{actors_of, first_op, numbered};
ghost use Rattle.one_box.specs.Attaching.{
  AllAttached,
  Attaches,
  HasRoom,
  Holds,
  lost_by,
  ports_side,
};
ghost use Rattle.one_box.specs.Counting.{part_in, part_of};
ghost use Rattle.one_box.specs.Showing.{links_of};

use crate::node::BoxActor;
use nop_types::{Actor, Config, Host, NoMemory, Tick};
use outside::{AttachError, Ports};
use std::alloc::{AllocFailed, Global};
use udp_node::{Address, BasePort, Timer};
use world::World;

fn add_replicas(actors: &mut Vec<Actor>, count: u8) -> Result<(), NoMemory>
    ensures { OnOk result (actors.new.items
        ≡ actors.old.items ++ numbered kinds.Replica count) }
{
    for i in 0..count {
        actors.push(Actor::Replica(i))?;
    }
    Ok(())
}

fn add_sequencers(actors: &mut Vec<Actor>, count: u8) -> Result<(), NoMemory>
    ensures { OnOk result (actors.new.items
        ≡ actors.old.items ++ numbered kinds.Sequencer count) }
{
    for i in 0..count {
        actors.push(Actor::Sequencer(i))?;
    }
    Ok(())
}

fn add_controllers(actors: &mut Vec<Actor>, count: u8) -> Result<(), NoMemory>
    ensures { OnOk result (actors.new.items
        ≡ actors.old.items ++ numbered kinds.Controller count) }
{
    for i in 0..count {
        actors.push(Actor::Controller(i))?;
    }
    Ok(())
}

fn add_clients(actors: &mut Vec<Actor>, count: u8) -> Result<(), NoMemory>
    ensures { OnOk result (actors.new.items
        ≡ actors.old.items ++ numbered kinds.Client count) }
{
    for i in 0..count {
        actors.push(Actor::Client(u32::from(i)))?;
    }
    Ok(())
}

/// The actors of a configuration, in the order in which they take their turns.
pub(crate) fn actors_of(alloc: Global, config: Config) -> Result<Vec<Actor>, NoMemory>
    ensures { IfOk result (λ v. v.items ≡ actors_of config) }
{
    let mut actors = Vec::new(alloc);
    add_replicas(&mut actors, config.replicas())?;
    add_sequencers(&mut actors, config.sequencers())?;
    add_controllers(&mut actors, config.controllers())?;
    add_clients(&mut actors, config.clients())?;
    Ok(actors)
}

fn armed(tick: Tick, period: u64, now: u64) -> Timer
    ensures { result ≡ armed now (tick, period) }
{
    Timer {
        tick,
        period,
        due: now.saturating_add(period),
    }
}

/// The timers of an actor, each due a period after now.
fn first_timers<H: Host>(
    alloc: Global,
    world: &World<H>,
    actor: Actor,
    now: u64,
) -> Result<Vec<Timer>, NoMemory>
    requires { length (timers_of world.now.state actor) ≤ 255 }
    ensures { IfOk result (λ timers. timers.items
        ≡ map (armed now) (timers_of world.now.state actor)) }
{
    let mut timers = Vec::new(alloc);
    let mut i = 0;
    while let Some((tick, period)) = world.timer(actor, i) {
        timers.push(armed(tick, period, now))?;
        i += 1;
    }
    Ok(timers)
}

/// Gives a link back.
fn detach_one<P: Ports>(ports: &mut P, node: BoxActor<P::L>)
    requires { length (P.detached ports.old) < P.attached ports.old }
    ensures detached { P.detached ports.new ≡ P.detached ports.old ++ node.link ∷ [] }
    ensures attached { P.attached ports.new ≡ P.attached ports.old }
    ensures kept { Stays (P.to_come ports.old) (P.to_come ports.new) }
    ensures faults { P.fault_count ports.new ≡ P.fault_count ports.old }
{
    let BoxActor {
        at: _,
        timers: _,
        next_op: _,
        link,
        lost: _,
    } = node;
    ports.detach(link);
}

/// The number of the first op of an actor.
fn first_op(actor: Actor) -> usize
    ensures { result ≡ first_op actor }
{
    match actor {
        Actor::Client(i) => i as usize,
        _ => 0,
    }
}

/// Attaches a link for an actor, behind the others.
fn attach_one<P: Ports>(
    ports: &mut P,
    at: Address,
    timers: Vec<Timer>,
    nodes: &mut Vec<BoxActor<P::L>>,
) -> Result<(), AttachError>
    ensures attaches { Attaches (links_of P.L.Link) at timers.items result
        (ports_side (P.to_come ports.old) (P.attached ports.old) (P.detached ports.old))
        (ports_side (P.to_come ports.new) (P.attached ports.new) (P.detached ports.new))
        nodes.old.items nodes.new.items }
    ensures count { CountsFor (P.fault_count ports.old) (P.fault_count ports.new)
        devices.Failed result }
{
    let port = at.port_of(at.own);
    match ports.attach(port) {
        Ok(link) => {
            let next_op = first_op(at.own);
            let node = BoxActor {
                at,
                timers,
                next_op,
                link,
                lost: 0,
            };
            match nodes.push(node) {
                Ok(()) => Ok(()),
                Err(failed) => {
                    let AllocFailed { value } = failed;
                    detach_one(ports, value);
                    Err(AttachError::NoMemory)
                }
            }
        }
        Err(e) => Err(e),
    }
}

/// Attaches a link for an actor with its timers, behind the others.
fn attach_actor<H: Host, P: Ports>(
    alloc: Global,
    world: &World<H>,
    at: Address,
    now: u64,
    ports: &mut P,
    nodes: &mut Vec<BoxActor<P::L>>,
) -> Result<(), AttachError>
    ensures attaches { Attaches (links_of P.L.Link)
        at (map (armed now) (timers_of world.now.state at.own)) result
        (ports_side (P.to_come ports.old) (P.attached ports.old) (P.detached ports.old))
        (ports_side (P.to_come ports.new) (P.attached ports.new) (P.detached ports.new))
        nodes.old.items nodes.new.items }
    ensures count { CountsFor (P.fault_count ports.old) (P.fault_count ports.new)
        devices.Failed result }
{
    match first_timers(alloc, world, at.own, now) {
        Ok(timers) => attach_one(ports, at, timers, nodes),
        Err(NoMemory) => Err(AttachError::NoMemory),
    }
}

fn actor_at(actors: &[Actor], i: usize) -> Actor
    requires { i < length actors.now }
    ensures { slice_get actors.now i ≡ Some result }
{
    actors[i]
}

/// Attaches a link for each actor, in order.
pub(crate) fn attach_all<H: Host, P: Ports>(
    alloc: Global,
    world: &World<H>,
    base: BasePort,
    config: Config,
    actors: &[Actor],
    now: u64,
    ports: &mut P,
    nodes: &mut Vec<BoxActor<P::L>>,
) -> Result<(), AttachError>
    requires empty { nodes.old.items ≡ [] }
    requires world { world.now.state ≡ opening config }
    ensures attaches { OnOk result (AllAttached (links_of P.L.Link) base config now actors.now
        (ports_side (P.to_come ports.old) (P.attached ports.old) (P.detached ports.old))
        (ports_side (P.to_come ports.new) (P.attached ports.new) (P.detached ports.new))
        nodes.new.items) }
    ensures parts { OnOk result (map part_of nodes.new.items
        ≡ map (part_in world.now.state) actors.now) }
    ensures holds { Holds (P.attached ports.old) (P.detached ports.old) (P.attached ports.new)
        (P.detached ports.new) nodes.new.items }
    ensures room { HasRoom (P.attached ports.new) (P.detached ports.new) nodes.new.items }
    ensures count { CountsFor (P.fault_count ports.old) (P.fault_count ports.new)
        devices.Failed result }
{
    for i in 0..actors.len() {
        let own = actor_at(actors, i);
        let at = Address { base, own, config };
        if let Err(e) = attach_actor(alloc, world, at, now, ports, nodes) {
            return Err(e);
        }
    }
    Ok(())
}

/// Gives all links back, in order.
pub(crate) fn detach_all<P: Ports>(ports: &mut P, nodes: Vec<BoxActor<P::L>>)
    requires { HasRoom (P.attached ports.old) (P.detached ports.old) nodes.items }
    ensures detached { P.detached ports.new
        ≡ P.detached ports.old ++ map (λ x. x.link) nodes.items }
    ensures attached { P.attached ports.new ≡ P.attached ports.old }
    ensures faults { P.fault_count ports.new ≡ P.fault_count ports.old }
{
    let mut rest = nodes.into_iter();
    while let Some(node) = rest.next() {
        detach_one(ports, node);
    }
    rest.destroy_empty();
}

/// How many sends failed over all links, up to the greatest number of 64 bits.
pub(crate) fn lost_by<L>(nodes: &[BoxActor<L>]) -> u64
    ensures { result ≡ lost_by nodes.now }
{
    let mut lost = 0u64;
    for node in nodes {
        lost = lost.saturating_add(node.lost);
    }
    lost
}
