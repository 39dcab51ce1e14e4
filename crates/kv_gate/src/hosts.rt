//! A gateway at the places that a list of hosts has for its clients.

ghost use Rattle.site_words.specs.Tasks.{AreBelow};

use crate::running::serve_over;
use crate::status::Status;
use crate::texts::{write_refusal, write_usage};
use client_call::Service;
use host_list::HostList;
use host_places::{address_in, has_clients, homes_of, is_marked, own_of, places_of};
use host_watch::{listening_home, roll_of};
use nop_types::{Actor, NoMemory};
use roll_call::Roll;
use site_words::Numbers;
use std::alloc::Global;
use std::fs;
use std::io::ErrorKind;
use std::net::SocketAddr;
use udp_node::Address;
use udp_ports::{Home, Place, UdpPorts};

/// Makes the marks of the numbers. Whether each was made.
fn have_marked(rt: &HostRuntime, folder: &str, cluster: u64, numbers: Numbers) -> bool {
    for i in 0..numbers.count {
        let number = numbers.first.saturating_add(i);
        let Ok(name) = format!(in rt.alloc(); "c{number}") else {
            return false;
        };
        if !is_marked(rt, folder, cluster, name.as_str()) {
            return false;
        }
    }
    true
}

/// The place of the observer at which the gateway watches, behind the others, and those whom it asks there; nobody where there is none.
fn add_watch<'a>(
    alloc: Global,
    list: &HostList,
    places: &'a [Place],
    at: &Address,
    observer: Option<u8>,
    homes: &mut Vec<Home<'a>>,
) -> Result<Roll, NoMemory> {
    let Some(observer) = observer else {
        return Ok(Roll::none(alloc));
    };
    let own = Actor::Observer(observer);
    homes.push(listening_home(places, at.port_of(own)))?;
    roll_of(alloc, list, places, observer)
}

/// Runs a gateway by a list that was read, once the marks of its numbers are made, where there are to be some.
fn run_at(
    rt: &HostRuntime,
    listen: SocketAddr,
    numbers: Numbers,
    list: &HostList,
    marks: Option<&str>,
    observer: Option<u8>,
) -> Status
    requires { AreBelow numbers }
{
    let first = Actor::Client(numbers.first);
    let (Some(at), Some(own)) = (address_in(list, first), own_of(rt, list, first)) else {
        return Status::LinkFault;
    };
    let Ok(places) = places_of(rt.alloc(), list, &at) else {
        return Status::NoMemory;
    };
    let homes = homes_of(rt.alloc(), &places, &at, own, numbers.first, numbers.count);
    let Ok(mut homes) = homes else {
        return Status::NoMemory;
    };
    let Ok(roll) = add_watch(rt.alloc(), list, &places, &at, observer, &mut homes) else {
        return Status::NoMemory;
    };
    if let Some(folder) = marks {
        if !have_marked(rt, folder, list.cluster(), numbers) {
            return Status::LinkFault;
        }
    }
    let service = Service {
        base: at.base,
        config: at.config,
    };
    let ports = UdpPorts::at_hosts(rt, rt.alloc(), &homes);
    serve_over(rt, listen, numbers, observer, roll, &service, ports)
}

/// Whether the list has the observer at whose place the gateway is to watch, if it is to.
fn has_observer(list: &HostList, observer: Option<u8>) -> bool {
    match observer {
        Some(observer) => list.address_of(Actor::Observer(observer)).is_some(),
        None => true,
    }
}

/// Runs a gateway by the list in a file.
pub(crate) fn run_at_hosts(
    rt: &HostRuntime,
    listen: SocketAddr,
    numbers: Numbers,
    list: &str,
    marks: Option<&str>,
    observer: Option<u8>,
) -> Status
    requires { AreBelow numbers }
{
    let mut writer = std::io::writer(rt);
    let text = match fs::read(rt, list) {
        Ok(text) => text,
        Err(e) if e.kind() == ErrorKind::OutOfMemory => return Status::NoMemory,
        Err(_) => return Status::ReadFault,
    };
    match host_list::read(&text) {
        Err(refusal) => write_refusal(rt.alloc(), &mut writer, refusal),
        Ok(list) if !has_clients(&list, numbers.first, numbers.count) => write_usage(&mut writer),
        Ok(list) if !has_observer(&list, observer) => write_usage(&mut writer),
        Ok(list) => run_at(rt, listen, numbers, &list, marks, observer),
    }
}
