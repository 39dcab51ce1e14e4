//! The addresses of hosts.

ghost use Rattle.std.specs.Prelude.{◌≡◌, ◌==◌};
ghost use Rattle.std.specs.List.{list_all};
ghost use Rattle.host_list.specs.Addresses.{address_of, ip_of, is_of_a_host};
ghost use Rattle.host_list.specs.Addresses.{same_address, spelled_address};
ghost use Rattle.host_list.specs.Places.{has_address, is_address};

use std::net::SocketAddr;

/// The address that a word spells, as `IPV4:PORT` or `[IPV6]:PORT`.
pub fn spelled_address(word: &[u8]) -> Option<SocketAddr>
    ensures { result ≡ spelled_address word.now }
{
    match SocketAddr::parse_ascii(word) {
        Ok(address) => Some(address),
        Err(_) => None,
    }
}

fn is_zero(address: SocketAddr) -> bool
    ensures { result ≡ list_all (λ n. n == 0) (ip_of address) }
{
    match address {
        SocketAddr::V4(a) => a.ip().octets().iter().all(|n| *n == 0),
        SocketAddr::V6(a) => a.ip().segments().iter().all(|n| *n == 0),
    }
}

/// Whether one host can send to it, and from it.
fn is_of_a_host(address: SocketAddr) -> bool
    ensures { result ≡ is_of_a_host address }
{
    address.port() != 0 && !is_zero(address)
}

/// The address of a host that a word spells.
pub(crate) fn address_of(word: &[u8]) -> Option<SocketAddr>
    ensures { result ≡ address_of word.now }
{
    let address = spelled_address(word)?;
    if is_of_a_host(address) {
        Some(address)
    } else {
        None
    }
}

/// Whether both are one.
pub(crate) fn same_address(a: SocketAddr, b: SocketAddr) -> bool
    ensures { result ≡ same_address a b }
{
    a == b
}

/// Whether this is the address of a place.
pub(crate) fn is_address(address: SocketAddr, of_place: Option<SocketAddr>) -> bool
    ensures { result ≡ is_address address of_place }
{
    match of_place {
        Some(other) => same_address(other, address),
        None => false,
    }
}

/// Whether a place has this address.
pub(crate) fn has_address(addresses: &[Option<SocketAddr>], address: SocketAddr) -> bool
    ensures { result ≡ has_address addresses.now address }
{
    addresses.iter().any(|a| is_address(address, *a))
}
