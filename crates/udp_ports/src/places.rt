//! Where datagrams to a port go, and from whom one came.

ghost use Rattle.std.specs.Prelude.{◌≡◌, find};
ghost use Rattle.std.specs.Option.{option_copied};
ghost use Rattle.udp_ports.specs.Places.{address_of, at_address, at_port, loopback, same_address};
ghost use Rattle.udp_ports.specs.Places.{greets, is_heard, may_send, sender, source_of};

use admission::{Greeting, comes_from};
use nop_types::Actor;
use std::net::{Ipv4Addr, SocketAddr, SocketAddrV4};

/// Where an actor is: the port by which the others know it, and its address. A place of clients has the actor with the least number.
#[derive(Clone, Copy)]
pub struct Place {
    pub port: u16,
    pub actor: Actor,
    pub address: SocketAddr,
}

/// From whom a datagram came.
#[derive(Clone, Copy)]
pub(crate) enum Source {
    /// A port of the loopback address.
    Port(u16),
    /// An actor whose place is known.
    Known(Place),
    /// Nobody whose place is known.
    Unknown,
}

fn loopback(port: u16) -> SocketAddr
    ensures { result ≡ loopback port }
{
    SocketAddr::V4(SocketAddrV4::new(Ipv4Addr::LOCALHOST, port))
}

fn same_address(a: SocketAddr, b: SocketAddr) -> bool
    ensures { result ≡ same_address a b }
{
    a == b
}

fn at_port(port: u16, places: &[Place]) -> Option<&Place>
    ensures { option_copied result ≡ at_port port places.now }
{
    places.iter().find(|p| p.port == port)
}

fn at_address(from: SocketAddr, places: &[Place]) -> Option<&Place>
    ensures { option_copied result ≡ at_address from places.now }
{
    places.iter().find(|p| same_address(p.address, from))
}

/// The address of a port. With no table of places it is that of the loopback address.
pub(crate) fn address_of(places: Option<&[Place]>, port: u16) -> Option<SocketAddr>
    ensures { result ≡ address_of (option_copied places.entry) port }
{
    let Some(places) = places else {
        return Some(loopback(port));
    };
    match at_port(port, places) {
        Some(place) => Some(place.address),
        None => None,
    }
}

/// From whom a datagram came that has this address. With no table of places the address is taken for the loopback address.
pub(crate) fn source_of(places: Option<&[Place]>, from: SocketAddr) -> Source
    ensures { result ≡ source_of (option_copied places.entry) from }
{
    let Some(places) = places else {
        return Source::Port(from.port());
    };
    match at_address(from, places) {
        Some(place) => Source::Known(*place),
        None => Source::Unknown,
    }
}

/// The port by which the sender is known.
pub(crate) fn sender(source: Source) -> Option<u16>
    ensures { result ≡ sender source }
{
    match source {
        Source::Port(port) => Some(port),
        Source::Known(place) => Some(place.port),
        Source::Unknown => None,
    }
}

/// Whether the sender may send these bytes. With no table of places anyone may.
fn may_send(source: Source, bytes: &[u8]) -> bool
    ensures { result ≡ may_send source bytes.now }
{
    match source {
        Source::Port(_) => true,
        Source::Known(place) => comes_from(bytes, place.actor),
        Source::Unknown => false,
    }
}

/// Whether someone whose place is known greets by these bytes.
fn greets(source: Source, bytes: &[u8]) -> bool
    ensures { result ≡ greets source bytes.now }
{
    match source {
        Source::Known(_) => Greeting::read(bytes).is_ok(),
        _ => false,
    }
}

/// Whether a link hears these bytes. One without a guard, which asks nobody itself, hears greetings too.
pub(crate) fn is_heard(guarded: bool, source: Source, bytes: &[u8]) -> bool
    ensures { result ≡ is_heard guarded source bytes.now }
{
    may_send(source, bytes) || (!guarded && greets(source, bytes))
}
