//! A link that is attached, and what is kept with it.

ghost use Rattle.std.specs.Prelude.{◌≡◌};
ghost use Rattle.outside.specs.Causes.{CountsFor};
ghost use Rattle.outside.specs.Links.{Polls};
ghost use Rattle.outside.specs.Observed.{Stays};
ghost use Rattle.outside.specs.declared.errors.DeviceError.TheVariants as devices;

use nop_types::{Bytes, Dest, NoMemory};
use outside::{Link, LinkError};
use udp_node::{Address, poll_link, send_to};

/// Where a link is to be attached, and what its holder keeps with it.
#[derive(Drop)]
pub struct Seat<S> {
    pub at: Address,
    pub state: S,
}

/// A link, where it is, how many datagrams could not be sent, and what its holder keeps with it.
pub struct AttachedLink<L, S> {
    pub link: L,
    pub at: Address,
    pub lost: u64,
    pub state: S,
}

impl<L: Link, S> AttachedLink<L, S> {
    /// Sends the bytes to each port of their destination. A send that fails is counted as lost.
    pub fn send(&mut self, dest: Dest, bytes: &[u8]) -> Result<(), NoMemory>
        ensures answers { Stays (L.answers self.old.link) (L.answers self.new.link) }
        ensures faults { L.fault_count self.new.link ≡ L.fault_count self.old.link }
    {
        send_to(&self.at, dest, bytes, &mut self.link, &mut self.lost)
    }

    /// The next datagram that came.
    pub fn poll(&mut self) -> Result<Option<Bytes>, LinkError>
        ensures answer { Polls (L.answers self.old.link) (L.answers self.new.link) result }
        ensures count { CountsFor (L.fault_count self.old.link) (L.fault_count self.new.link)
            devices.Failed result }
    {
        poll_link(&mut self.link, &mut self.lost)
    }
}
