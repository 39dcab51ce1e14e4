//! The table of places that a list of hosts gives, and the address of an actor among its actors.

ghost use Rattle.std.specs.Prelude.{◌≡◌, ◌++◌, IfOk, OnOk, Some};
ghost use Rattle.host_places.specs.Tables.{address_in, place_of, places_of};

use host_list::HostList;
use nop_types::{
    Actor, MAX_CLIENTS, MAX_CONTROLLERS, MAX_OBSERVERS, MAX_REPLICAS, MAX_SEQUENCERS, NoMemory,
};
use std::alloc::Global;
use udp_node::{Address, BasePort};
use udp_ports::Place;

/// The port of replica 0. With a list of hosts ports are only the names of actors.
pub const HOSTS_BASE: u16 = 41000;

const _: () = prove!(HOSTS_BASE == 41000);

/// The address of an actor among the actors of a list.
pub fn address_in(list: &HostList, actor: Actor) -> Option<Address>
    ensures { result ≡ Some (address_in list.now actor) }
{
    let base = BasePort::new(HOSTS_BASE)?;
    Some(Address {
        base,
        own: actor,
        config: list.config(),
    })
}

/// Adds the place of an actor, if the list has it.
fn add(places: &mut Vec<Place>, list: &HostList, at: &Address, actor: Actor) -> Result<(), NoMemory>
    ensures { OnOk result (places.new.items
        ≡ places.old.items ++ place_of at.now.base list.now actor) }
{
    if let Some(address) = list.address_of(actor) {
        places.push(Place {
            port: at.port_of(actor),
            actor,
            address,
        })?;
    }
    Ok(())
}

/// The places of all actors of a list, under the ports that nodes send to.
pub fn places_of(alloc: Global, list: &HostList, at: &Address) -> Result<Vec<Place>, NoMemory>
    ensures { IfOk result (λ places. places.items ≡ places_of at.now.base list.now) }
{
    let mut places = Vec::new(alloc);
    for replica in 0..MAX_REPLICAS {
        add(&mut places, list, at, Actor::Replica(replica))?;
    }
    for sequencer in 0..MAX_SEQUENCERS {
        add(&mut places, list, at, Actor::Sequencer(sequencer))?;
    }
    for controller in 0..MAX_CONTROLLERS {
        add(&mut places, list, at, Actor::Controller(controller))?;
    }
    for client in 0..MAX_CLIENTS {
        add(&mut places, list, at, Actor::Client(u32::from(client)))?;
    }
    for observer in 0..MAX_OBSERVERS {
        add(&mut places, list, at, Actor::Observer(observer))?;
    }
    Ok(places)
}
