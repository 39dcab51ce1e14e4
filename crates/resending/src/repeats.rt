ghost use Rattle.std.specs.Prelude.{◌≡◌, ◌≤◌, ◌<◌, ◌↔◌, IsTrue, OnOk, OnErr};
ghost use Rattle.resending.specs.Repeating.{IsRequest, has_port, is_due, no_request, noted, repeated};

use nop_types::kinds::{COUNT_PLACE, FRAGMENT, FRAGMENT_HEADER_BYTES, KIND_PLACE, VIEW_CHANGE_REQ};
use nop_types::{Bytes, MAX_REPLICAS, NoMemory};
use std::alloc::Global;
use std::marker::Model;

/// To how many ports a request is repeated at most: those of all other replicas, which come first.
pub const MOST_PORTS: usize = MAX_REPLICAS as usize - 1;

/// After how many microseconds a request is repeated.
pub const REPEAT_MICROS: u64 = 500_000;

const _: () = prove!(MOST_PORTS == 6 && REPEAT_MICROS == 500_000);

/// The request for a view change that a replica sent last, and to whom.
#[derive(Drop)]
pub struct Repeats {
    alloc: Global,
    request: Bytes,
    ports: Vec<u16>,
    // When it was sent, in microseconds of the clock.
    at: u64,
}

impl Model for Repeats {
    ghost use Rattle.std.specs.Prelude.{length, ◌≤◌};
    ghost use Rattle.resending.specs.declared.repeats.TheConstants.{MOST_PORTS};
    ghost use Rattle.resending.specs.Repeating.{Repeated};

    ghost Value = { Repeated };

    ghost view = { λ r. record { request = r.request; ports = r.ports.items; at = r.at } };

    ghost invariant = { λ r. length r.ports.items ≤ MOST_PORTS };
}

/// Whether a datagram is such a request: the one fragment of its message.
pub fn is_request(bytes: &[u8]) -> bool
    ensures { IsTrue result ↔ IsRequest bytes.now }
{
    bytes.len() > FRAGMENT_HEADER_BYTES
        && bytes[KIND_PLACE] == FRAGMENT
        && bytes[COUNT_PLACE..COUNT_PLACE + 2] == [0, 1]
        && bytes[FRAGMENT_HEADER_BYTES] == VIEW_CHANGE_REQ
}

fn has_port(ports: &[u16], port: u16) -> bool
    ensures { result ≡ has_port ports.now port }
{
    ports.iter().any(|p| *p == port)
}

impl Repeats {
    pub fn new(alloc: Global) -> Repeats
        ensures { result ≡ no_request }
    {
        Repeats {
            alloc,
            request: Bytes::from_vec(Vec::new(alloc)),
            ports: Vec::new(alloc),
            at: 0,
        }
    }

    /// Keeps a request that is sent to a port at this time, in place of another one.
    pub fn note(&mut self, port: u16, bytes: &[u8], now: u64) -> Result<(), NoMemory>
        ensures ok { OnOk result (self.new ≡ noted port bytes.now now self.old) }
    {
        if self.request.as_slice() != bytes {
            self.ports.clear();
            self.request = Bytes::new(self.alloc, bytes)?;
        }
        self.at = now;
        if self.ports.len() < MOST_PORTS && !has_port(&self.ports, port) {
            self.ports.push(port)?;
        }
        Ok(())
    }

    /// Whether the request is to be repeated at this time. It counts as sent then.
    pub fn is_due(&mut self, now: u64) -> bool
        ensures is { result ≡ is_due now self.old }
        ensures repeated { self.new ≡ repeated now self.old }
    {
        let is_due = self.ports.len() > 0 && now.saturating_sub(self.at) >= REPEAT_MICROS;
        if is_due {
            self.at = now;
        }
        is_due
    }

    /// The request, if there is one.
    pub fn request(&self) -> &[u8]
        ensures { result.now ≡ self.now.request }
    {
        self.request.as_slice()
    }

    /// To whom it went.
    pub fn ports(&self) -> &[u16]
        ensures { result.now ≡ self.now.ports }
    {
        &self.ports
    }
}
