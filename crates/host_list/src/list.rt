ghost use Rattle.std.specs.Prelude.{◌≡◌, position};
ghost use Rattle.host_list.specs.Lists.{actor_with, address_with};
ghost use Rattle.host_list.specs.Places.{is_address};
ghost use Rattle.host_list.specs.Digests.{digest_of};

use crate::addresses::is_address;
use crate::digest::digest_of;
use crate::found::address_at;
use crate::places::{PLACES, actor_at, place_of};
use nop_types::{Actor, Config};
use std::net::SocketAddr;

/// Where the actors of a cluster are.
#[derive(Clone, Copy)]
pub struct HostList {
    pub(crate) cluster: u64,
    pub(crate) config: Config,
    pub(crate) addresses: [Option<SocketAddr>; PLACES],
}

fn place_with(addresses: &[Option<SocketAddr>], address: SocketAddr) -> Option<usize>
    ensures { result ≡ position (is_address address) addresses.now }
{
    addresses.iter().position(|a| is_address(address, *a))
}

impl HostList {
    /// Which cluster it is.
    pub fn cluster(&self) -> u64
        ensures { result ≡ self.now.cluster }
    {
        self.cluster
    }

    /// How many actors of each kind there are; of clients one more than the greatest number of a place.
    pub fn config(&self) -> Config
        ensures { result ≡ self.now.config }
    {
        self.config
    }

    /// The address of an actor, of a client that of its place.
    pub fn address_of(&self, actor: Actor) -> Option<SocketAddr>
        ensures { result ≡ address_with self.now actor }
    {
        address_at(&self.addresses, place_of(actor)?)
    }

    /// The actor with an address, of a place of clients the client with the least number.
    pub fn actor_of(&self, address: SocketAddr) -> Option<Actor>
        ensures { result ≡ actor_with self.now address }
    {
        actor_at(place_with(&self.addresses, address)?)
    }

    /// A number that tells this list from others, whatever the order of its lines, their comments and blanks.
    pub fn digest(&self) -> u64
        ensures { result ≡ digest_of self.now }
    {
        digest_of(self)
    }
}
