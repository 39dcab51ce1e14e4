//! A watch at the place of an observer of a list of hosts, for programs: `watch`, `status` of the
//! tools in words, and a gateway.
//!
//! `watch_at` makes the watch of `watching::watch_cluster` over the sockets, the clock and the
//! standard output of the system. It asks each second every node of the list but clients and itself
//! whether its own number is free (`roll_call`), which claims no number: those of `roll_of`, at
//! `listening_home`.
//!
//! Proved: who is asked, in whose name, and that nobody was yet (`roll_of`, by `specs/Asked`); that
//! no number is claimed at a listening home; of the watch what `watch_cluster` promises, since it is
//! called as it is; and that the calls are safe and end. That sockets are what they should be is
//! tested only, by `checks/watch.sh` and `checks/tool.sh`.
//!
//! Calls: `watch_at`; `roll_of` and `listening_home`. It is all in this file. Definitions:
//! `specs/Asked`.
#![tactic(auto)]

ghost use Rattle.std.specs.Prelude.{◌≡◌, ◌++◌, IfOk, None, OnOk};
ghost use Rattle.host_list.specs.Digests.{digest_of};
ghost use Rattle.roll_call.specs.Rolls.{opening};
ghost use Rattle.host_watch.specs.Asked.{is_asked, node_at, nodes_of};

use host_list::HostList;
use host_places::{address_in, places_of};
use nop_types::{Actor, NoMemory};
use roll_call::{Node, Roll};
use standard_io::StandardOut;
use std::alloc::Global;
use udp_ports::{Home, Place, SystemClock, UdpPorts};
use watching::{Asked, WatchError, watch_cluster};

/// Whether an actor is asked by the observer with this number: clients are not, nor is itself.
fn is_asked(own: u8, actor: Actor) -> bool
    ensures { result ≡ is_asked own actor }
{
    match actor {
        Actor::Client(_) => false,
        Actor::Observer(i) => i != own,
        _ => true,
    }
}

fn add(nodes: &mut Vec<Node>, own: u8, place: &Place) -> Result<(), NoMemory>
    ensures { OnOk result (nodes.new.items ≡ nodes.old.items ++ node_at own place.now) }
{
    if is_asked(own, place.actor) {
        nodes.push(Node {
            actor: place.actor,
            port: place.port,
        })?;
    }
    Ok(())
}

/// Those who are asked.
fn nodes_of(alloc: Global, own: u8, places: &[Place]) -> Result<Vec<Node>, NoMemory>
    ensures { IfOk result (λ nodes. nodes.items ≡ nodes_of own places.now) }
{
    let mut nodes = Vec::new(alloc);
    for place in places {
        add(&mut nodes, own, place)?;
    }
    Ok(nodes)
}

/// Those who are asked at these places, each second, by the observer of a list with this number.
pub fn roll_of(alloc: Global, list: &HostList, places: &[Place], own: u8) -> Result<Roll, NoMemory>
    ensures { IfOk result (λ roll. roll ≡ opening
        (record { digest = digest_of list.now; number = own }) (nodes_of own places.now)) }
{
    let nodes = nodes_of(alloc, own, places)?;
    Roll::new(alloc, list.digest(), u32::from(own), &nodes)
}

/// The place of an observer, where no number is claimed.
pub fn listening_home<'a>(places: &'a [Place], port: u16) -> Home<'a>
    ensures places { result.places.now ≡ places.now }
    ensures port { result.port ≡ port }
    ensures claims { result.claims ≡ None }
{
    Home {
        places,
        port,
        claims: None,
    }
}

/// Watches at the place of an observer, which is one of the list, and writes to standard output.
/// Says whether a state was shown.
pub fn watch_at(
    rt: &HostRuntime,
    list: &HostList,
    own: Actor,
    asked: Asked,
) -> Result<bool, WatchError> {
    let (Some(at), Actor::Observer(observer)) = (address_in(list, own), own) else {
        return Err(WatchError::PortFault);
    };
    let places = places_of(rt.alloc(), list, &at)?;
    let roll = roll_of(rt.alloc(), list, &places, observer)?;
    let port = at.port_of(own);
    let homes = [listening_home(&places, port)];
    let mut ports = UdpPorts::at_hosts(rt, rt.alloc(), &homes);
    let mut clock = SystemClock::new(rt);
    let mut sink = StandardOut::new(std::io::writer(rt));
    watch_cluster(
        rt.alloc(),
        at.config,
        port,
        asked,
        roll,
        &mut ports,
        &mut clock,
        &mut sink,
    )
}
