//! What a gateway does.

use client_call::Service;
use std::net::SocketAddr;

/// The most numbers of a gateway: as many as there are places of clients.
pub const MAX_NUMBERS: u32 = 16;

const _: () = prove!(MAX_NUMBERS == 16);

/// Where a service is.
#[derive(Clone, Copy)]
pub enum Site<'a> {
    /// On this machine. With an observer, the gateway watches it at the place of that one, which no
    /// observer has then.
    Near {
        service: Service,
        observer: Option<u8>,
    },
    /// Where the list of hosts in a file says. With a folder, marks of the numbers are made there.
    /// With an observer, the gateway watches the service at that one's place.
    Listed {
        list: &'a str,
        marks: Option<&'a str>,
        observer: Option<u8>,
    },
}

/// The numbers of clients from the first one on, `count` of them: none is over 2^32 - 1.
#[derive(Clone, Copy, PartialEq, Eq)]
pub struct Numbers {
    pub first: u32,
    pub count: u32,
}

/// The address for users, the service, and the gateway's numbers.
#[derive(Clone, Copy)]
pub struct Task<'a> {
    pub listen: SocketAddr,
    pub site: Site<'a>,
    pub numbers: Numbers,
}
