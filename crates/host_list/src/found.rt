//! What the lines of a text say so far.

ghost use Rattle.std.specs.Prelude.{◌≡◌, slice_set};
ghost use Rattle.host_list.specs.Places.{address_at};
ghost use Rattle.host_list.specs.Reading.{nothing, with_cluster, with_entry, with_host, with_line};

use crate::addresses::has_address;
use crate::entry::{Entry, entry_of};
use crate::places::PLACES;
use crate::rule::Rule;
use std::net::SocketAddr;

/// The cluster number and the addresses by their places, as far as lines were read.
#[derive(Clone, Copy)]
pub struct Found {
    pub(crate) cluster: Option<u64>,
    pub(crate) addresses: [Option<SocketAddr>; PLACES],
}

/// The address at a place.
#[tactic(auto, using(std::proofs::lemmas::List::get_or_default, crate::proofs::Tables::none_past))]
pub(crate) fn address_at(
    addresses: &[Option<SocketAddr>; PLACES],
    place: usize,
) -> Option<SocketAddr>
    ensures { result ≡ address_at addresses.now place }
{
    if place < PLACES {
        addresses[place]
    } else {
        None
    }
}

/// Writes an address at its place.
#[tactic(auto, using(crate::proofs::Tables::written_past))]
fn put(addresses: &mut [Option<SocketAddr>; PLACES], place: usize, address: SocketAddr)
    ensures { addresses.new ≡ slice_set addresses.old place (Some address) }
{
    if place < PLACES {
        addresses[place] = Some(address);
    }
}

impl Found {
    pub(crate) fn nothing() -> Found
        ensures { result ≡ nothing }
    {
        Found {
            cluster: None,
            addresses: [None; PLACES],
        }
    }

    fn with_cluster(self, n: u64) -> Result<Found, Rule>
        ensures { result ≡ with_cluster self n }
    {
        if self.cluster.is_some() {
            return Err(Rule::NameTwice);
        }
        Ok(Found {
            cluster: Some(n),
            addresses: self.addresses,
        })
    }

    fn with_host(mut self, place: usize, address: SocketAddr) -> Result<Found, Rule>
        ensures { result ≡ with_host self place address }
    {
        if address_at(&self.addresses, place).is_some() {
            return Err(Rule::NameTwice);
        }
        if has_address(&self.addresses, address) {
            return Err(Rule::AddressTwice);
        }
        put(&mut self.addresses, place, address);
        Ok(self)
    }

    fn with_entry(self, entry: Entry) -> Result<Found, Rule>
        ensures { result ≡ with_entry self entry }
    {
        match entry {
            Entry::Blank => Ok(self),
            Entry::Cluster(n) => self.with_cluster(n),
            Entry::Host(place, address) => self.with_host(place, address),
        }
    }

    /// With one line more.
    pub(crate) fn with_line(self, line: &[u8]) -> Result<Found, Rule>
        ensures { result ≡ with_line self line.now }
    {
        match entry_of(line) {
            Ok(entry) => self.with_entry(entry),
            Err(rule) => Err(rule),
        }
    }
}
