//! Clients of one process, whose numbers are one above the other.

ghost use Rattle.std.specs.Prelude.{◌≡◌, ◌+◌, ◌≤◌, ◌^◌, IfOk, MatchBool, Some, map};
ghost use Rattle.host_places.specs.Clients.{HasAll, LacksOne, clients_from};
ghost use Rattle.udp_node.specs.Ports.{port_of};

use admission::Own;
use host_list::HostList;
use nop_types::{Actor, NoMemory};
use std::alloc::Global;
use udp_node::Address;
use udp_ports::{Home, Place};

/// Whether a list has a place for each of so many clients from this number on.
pub fn has_clients(list: &HostList, first: u32, count: u32) -> bool
    requires { first + count ≤ 2 ^ 32 }
    ensures { MatchBool result (HasAll list.now first count) (LacksOne list.now first count) }
{
    for i in 0..count {
        if list.address_of(Actor::Client(first + i)).is_none() {
            return false;
        }
    }
    true
}

/// Where each of so many clients from this number on is, by which the process claims its number; `own` is that of one of them.
pub fn homes_of<'a>(
    alloc: Global,
    places: &'a [Place],
    at: &Address,
    own: Own,
    first: u32,
    count: u32,
) -> Result<Vec<Home<'a>>, NoMemory>
    requires { first + count ≤ 2 ^ 32 }
    ensures claims { IfOk result (λ homes. map (λ h. h.claims) homes.items
        ≡ map (λ a. Some (record own { actor = a })) (clients_from first count)) }
    ensures ports { IfOk result (λ homes.
        map (λ h. h.port) homes.items ≡ map (port_of at.now.base) (clients_from first count)) }
{
    let mut homes = Vec::new(alloc);
    for i in 0..count {
        let actor = Actor::Client(first + i);
        homes.push(Home {
            places,
            port: at.port_of(actor),
            claims: Some(Own { actor, ..own }),
        })?;
    }
    Ok(homes)
}
