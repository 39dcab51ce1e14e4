//! Ports at whose links a wait for users ends.

use mio::unix::SourceFd;
use mio::{Interest, Registry};
use outside::{AttachError, Ports};
use std::net::Net;
use std::os::fd::AsRawFd;
use std::time::Clock;
use tcp_users::OTHERS;
use udp_ports::{UdpLink, UdpPorts};

/// Ports, and where a wait for users is told of what comes at them.
#[derive(Drop)]
pub(crate) struct WakingPorts<'a, R: Net + Clock> {
    ports: UdpPorts<'a, R>,
    registry: Registry,
}

impl<'a, R: Net + Clock> WakingPorts<'a, R> {
    pub(crate) fn new(ports: UdpPorts<'a, R>, registry: Registry) -> WakingPorts<'a, R> {
        WakingPorts { ports, registry }
    }
}

impl<'a, R: Net + Clock> Ports for WakingPorts<'a, R> {
    type L = UdpLink<'a, R>;

    ghost to_come = { λ s. ⟦<UdpPorts<'a, R> as Ports>⟧.to_come s.ports };

    ghost attached = { λ s. ⟦<UdpPorts<'a, R> as Ports>⟧.attached s.ports };

    ghost detached = { λ s. ⟦<UdpPorts<'a, R> as Ports>⟧.detached s.ports };

    ghost fault_count = { λ s. ⟦<UdpPorts<'a, R> as Ports>⟧.fault_count s.ports };

    /// A link of which the system tells nothing is polled all the same, once a wait has ended.
    fn attach(&mut self, port: u16) -> Result<UdpLink<'a, R>, AttachError> {
        let link = self.ports.attach(port)?;
        let fd = link.as_raw_fd();
        let _told = self
            .registry
            .register(&mut SourceFd(&fd), OTHERS, Interest::READABLE);
        Ok(link)
    }

    fn detach(&mut self, link: UdpLink<'a, R>) {
        let fd = link.as_raw_fd();
        let _told = self.registry.deregister(&mut SourceFd(&fd));
        self.ports.detach(link);
    }

    fn faults(&self) -> u64 {
        self.ports.faults()
    }
}
