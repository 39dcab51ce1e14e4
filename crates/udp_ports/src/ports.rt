//! UDP links at ports of the loopback address or at places of hosts, attached and given back.
ghost use Rattle.std.specs.Prelude.{◌≡◌, ◌≤◌, [], true, false, Some, None, IfOk, vec_len, vec_capacity};
ghost use Rattle.std.specs.Option.{option_copied};
ghost use Rattle.udp_ports.specs.Guards.{MayAttach, home_at};

use crate::UdpLink;
use crate::guard::{Guard, Home, admit};
use crate::places::Place;
use crate::socket::Socket;
use outside::{AttachError, Ports};
use std::alloc::Global;
use std::net::Net;
use std::time::Clock;

/// The ports of the loopback address, or those of a table of places, with a count of the attaches that failed. Of the links that are
/// attached together only the first waits when it is polled, so a turn of a cluster waits once and not for each of its actors; and none
/// where something else waits for what comes at them (`without_waits`).
#[derive(Drop)]
pub struct UdpPorts<'a, R: Net + Clock> {
    net: &'a R,
    alloc: Global,
    homes: Option<&'a [Home<'a>]>,
    may_wait: bool,
    attached: usize,
    detached: Vec<UdpLink<'a, R>>,
    faults: u64,
    ghost within: { vec_len detached ≤ attached },
    ghost room: { attached ≤ vec_capacity detached },
}

/// The home whose port this is.
fn home_at<'b, 'a>(homes: &'b [Home<'a>], port: u16) -> Option<&'b Home<'a>>
    ensures { option_copied result ≡ home_at port homes.now }
{
    homes.iter().find(|home| home.port == port)
}

impl<'a, R: Net + Clock> UdpPorts<'a, R> {
    /// Nothing is attached.
    pub fn new(net: &'a R, alloc: Global) -> UdpPorts<'a, R>
        ensures homes { result.homes ≡ None }
        ensures attached { result.attached ≡ 0 }
        ensures detached { result.detached.items ≡ [] }
        ensures faults { result.faults ≡ 0 }
    {
        UdpPorts {
            net,
            alloc,
            homes: None,
            may_wait: true,
            attached: 0,
            detached: Vec::new(alloc),
            faults: 0,
        }
    }

    /// Nothing is attached. Only the ports of the own homes can be, each at the address that its table of places has for it, and where
    /// a number is claimed, only if the others say that the process may have it. The link takes only what comes from an address of the
    /// table.
    pub fn at_hosts(net: &'a R, alloc: Global, homes: &'a [Home<'a>]) -> UdpPorts<'a, R>
        ensures homes { option_copied result.homes ≡ Some homes.entry.now }
        ensures attached { result.attached ≡ 0 }
        ensures detached { result.detached.items ≡ [] }
        ensures faults { result.faults ≡ 0 }
    {
        UdpPorts {
            net,
            alloc,
            homes: Some(homes),
            may_wait: true,
            attached: 0,
            detached: Vec::new(alloc),
            faults: 0,
        }
    }

    /// The same ports, of which no link waits when it is polled.
    pub fn without_waits(self) -> UdpPorts<'a, R>
        ensures waits { result.may_wait ≡ false }
        ensures homes { result.homes ≡ self.entry.homes }
        ensures attached { result.attached ≡ self.entry.attached }
        ensures detached { result.detached.items ≡ self.entry.detached.items }
        ensures faults { result.faults ≡ self.entry.faults }
    {
        let mut ports = self;
        ports.may_wait = false;
        ports
    }

    fn socket_at(
        &self,
        places: Option<&'a [Place]>,
        port: u16,
    ) -> Result<Socket<'a, R>, AttachError> {
        match Socket::open(self.net, self.net, places, self.alloc, port) {
            Ok(socket) => Ok(socket),
            Err(_) => Err(AttachError::Failed),
        }
    }

    /// A socket at a port; at that of a home, where the process may have its number, or only listens.
    fn open(&self, port: u16) -> Result<(Socket<'a, R>, Option<Guard>), AttachError>
        ensures { IfOk result (λ opened. MayAttach (option_copied self.now.homes) port opened.1) }
    {
        let Some(homes) = self.homes else {
            return Ok((self.socket_at(None, port)?, None));
        };
        let Some(home) = home_at(homes, port) else {
            return Err(AttachError::Failed);
        };
        let mut socket = self.socket_at(Some(home.places), port)?;
        let Some(own) = home.claims else {
            return Ok((socket, None));
        };
        let guard = admit(self.alloc, &mut socket, home.places, own)?;
        Ok((socket, Some(guard)))
    }

    /// A link at a port; at that of a home, one of a process that was admitted, or one that only listens.
    fn link_at(&self, port: u16, waits: bool) -> Result<UdpLink<'a, R>, AttachError>
        ensures guard { IfOk result (λ link. MayAttach (option_copied self.now.homes) port
            link.guard) }
        ensures port { IfOk result (λ link. link.port ≡ port) }
        ensures faults { IfOk result (λ link. link.faults ≡ 0) }
        ensures losses { IfOk result (λ link. link.losses ≡ 0) }
    {
        let (socket, guard) = self.open(port)?;
        Ok(UdpLink::new(self.alloc, socket, port, waits, guard))
    }
}

impl<'a, R: Net + Clock> Ports for UdpPorts<'a, R> {
    type L = UdpLink<'a, R>;

    ghost use Rattle.std.specs.Prelude.{None};

    ghost to_come = { λ _. None };

    ghost attached = { λ s. s.attached };

    ghost detached = { λ s. s.detached.items };

    ghost fault_count = { λ s. s.faults };

    fn attach(&mut self, port: u16) -> Result<UdpLink<'a, R>, AttachError> {
        let others = self.attached - self.detached.len();
        self.detached.reserve(others + 1)?;
        let link = match self.link_at(port, self.may_wait && others == 0) {
            Ok(link) => link,
            Err(AttachError::NoMemory) => return Err(AttachError::NoMemory),
            Err(AttachError::Failed) => {
                self.faults = self.faults.saturating_add(1);
                return Err(AttachError::Failed);
            }
        };
        self.attached += 1;
        Ok(link)
    }

    /// What still waits at the link is sent.
    fn detach(&mut self, link: UdpLink<'a, R>) {
        link.send_rest();
        self.detached.push(link).unwrap();
    }

    fn faults(&self) -> u64 {
        self.faults
    }
}
