//! A UDP socket at a port or a place: what is sent and received, and how long a receive waits.
ghost use Rattle.std.specs.Prelude.{◌≡◌, ◌<◌, ◌≤◌, ◌/◌, ◌^◌, length, IfOk, IfSome, SomeIff};
ghost use Rattle.std.specs.Duration.{as_nanos};
ghost use Rattle.udp_ports.specs.Silence.{is_silence};
ghost use Rattle.std.specs.Option.{option_copied};
ghost use Rattle.std.specs.declared.net.socket_addr.SocketAddr.{SocketAddr};
ghost use Rattle.udp_ports.specs.Places.{source_of};
ghost use Rattle.nop_types.specs.declared.limits.TheConstants.{MAX_DATAGRAM_BYTES};

use crate::places::{Place, Source, address_of, source_of};
use nop_types::{Bytes, MAX_DATAGRAM_BYTES, NoMemory};
use outside::LinkError;
use std::alloc::Global;
use std::io::ErrorKind;
use std::net::{Net, UdpSocket};
use std::os::fd::{AsRawFd, RawFd};
use std::time::{Clock, Duration};
use std::{io, mem, thread};

/// How long a receive waits at most, in milliseconds. The system rounds it up to its own ticks, of some milliseconds.
const WAIT_MILLIS: u64 = 1;

const _: () = prove!(WAIT_MILLIS == 1);

/// How long a receive sleeps in place of a wait that would be too long, in microseconds.
const NAP_MICROS: u64 = 200;

/// How long a receive may take where nothing comes.
#[derive(Clone, Copy, PartialEq, Eq)]
pub(crate) enum Patience {
    Waits,
    Naps,
    Returns,
}

/// A datagram that came, and from whom.
#[derive(Drop)]
pub(crate) struct Received {
    pub(crate) source: Source,
    pub(crate) bytes: Bytes,
}

/// A datagram socket at a port of the loopback address, or at the place that a table has for the port.
#[derive(Drop)]
pub(crate) struct Socket<'a, R: Clock> {
    clock: &'a R,
    places: Option<&'a [Place]>,
    alloc: Global,
    socket: UdpSocket,
    // Whether the system lets a receive wait.
    is_waiting: bool,
    // Space for the next datagram, so that none is received without.
    space: Vec<u8>,
}

/// Whether a receive ended for want of a datagram, or by a signal, and nothing is wrong.
fn is_silence(kind: ErrorKind) -> bool
    ensures { result ≡ is_silence kind }
{
    matches!(
        kind,
        ErrorKind::WouldBlock | ErrorKind::TimedOut | ErrorKind::Interrupted
    )
}

/// A time in microseconds, where 64 bits reach that far.
fn in_micros(time: Duration) -> Option<u64>
    ensures { SomeIff result (as_nanos time / 1_000 < 2 ^ 64) (as_nanos time / 1_000) }
{
    u64::try_from(time.as_micros()).ok()
}

impl<'a, R: Clock> AsRawFd for Socket<'a, R> {
    fn as_raw_fd(&self) -> RawFd {
        self.socket.as_raw_fd()
    }
}

impl<'a, R: Clock> Socket<'a, R> {
    pub(crate) fn open<N: Net>(
        net: &N,
        clock: &'a R,
        places: Option<&'a [Place]>,
        alloc: Global,
        port: u16,
    ) -> io::Result<Socket<'a, R>> {
        let Some(address) = address_of(places, port) else {
            return Err(io::Error::from(ErrorKind::AddrNotAvailable));
        };
        let socket = UdpSocket::bind(net, address)?;
        socket.set_read_timeout(Some(Duration::from_millis(WAIT_MILLIS)))?;
        Ok(Socket {
            clock,
            places,
            alloc,
            socket,
            is_waiting: true,
            space: Vec::new(alloc),
        })
    }

    /// Whether the system took the datagram, which goes to the address of a port.
    pub(crate) fn has_sent(&self, port: u16, bytes: &[u8]) -> bool {
        match address_of(self.places, port) {
            Some(address) => self.socket.send_to(bytes, address).is_ok(),
            None => false,
        }
    }

    /// Lets a receive wait, or not. Where the system refuses, it stays as it was.
    fn set_waiting(&mut self, is_waiting: bool)
        ensures { self.new.places ≡ self.old.places }
    {
        if is_waiting != self.is_waiting && self.socket.set_nonblocking(!is_waiting).is_ok() {
            self.is_waiting = is_waiting;
        }
    }

    /// What was received, in the space that was made for it.
    fn take_space(&mut self, received: &[u8]) -> Result<Bytes, NoMemory>
        ensures bytes { IfOk result (λ datagram. datagram ≡ received.now) }
        ensures places { self.new.places ≡ self.old.places }
    {
        let mut bytes = mem::replace(&mut self.space, Vec::new(self.alloc));
        bytes.clear();
        bytes.extend_from_slice(received)?;
        Ok(Bytes::from_vec(bytes))
    }

    /// The next datagram, if one comes; of a longer one its first `MAX_DATAGRAM_BYTES` bytes. `NoMemory` where there is no space
    /// for one, before any is received.
    pub(crate) fn receive(&mut self, patience: Patience) -> Result<Option<Received>, LinkError>
        ensures short { IfOk result (λ r. IfSome r (λ it. length it.bytes
            ≤ MAX_DATAGRAM_BYTES)) }
        ensures source { IfOk result (λ r. IfSome r (λ it. (from : SocketAddr)
            × (it.source ≡ source_of (option_copied self.old.places) from))) }
        ensures places { self.new.places ≡ self.old.places }
    {
        self.space.reserve(MAX_DATAGRAM_BYTES)?;
        self.set_waiting(patience == Patience::Waits);
        let mut buf = [0u8; MAX_DATAGRAM_BYTES];
        match self.socket.recv_from(&mut buf) {
            Ok((count, from)) => Ok(Some(Received {
                source: source_of(self.places, from),
                bytes: self.take_space(&buf[..count])?,
            })),
            Err(e) => {
                if !is_silence(e.kind()) {
                    return Err(LinkError::Failed);
                }
                if patience == Patience::Naps {
                    thread::sleep(self.clock, Duration::from_micros(NAP_MICROS));
                }
                Ok(None)
            }
        }
    }

    /// The table of places, if there is one.
    pub(crate) fn places(&self) -> Option<&'a [Place]> {
        self.places
    }

    /// The time in microseconds from a start of the clock's own, where it can be read.
    pub(crate) fn micros(&self) -> Option<u64> {
        in_micros(self.clock.monotonic().ok()?)
    }
}
