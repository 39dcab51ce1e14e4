//! How many actors of each kind there are.

ghost use Rattle.std.specs.Prelude.{◌≡◌, ◌≤◌, ◌<◌, length};
ghost use Rattle.std.specs.Prelude.{MatchOption, false, true};
ghost use Rattle.nop_types.specs.Configuration.{is_configuration};
ghost use Rattle.host_list.specs.Places.{counts_of, has_hole, reach};
ghost use Rattle.host_list.specs.Reading.{any_hole};

use crate::places::PLACES;
use nop_types::Config;
use std::net::SocketAddr;

/// One more than the greatest index that has an address.
fn reach(addresses: &[Option<SocketAddr>]) -> usize
    ensures value { result ≡ reach addresses.now }
    ensures most { result ≤ length addresses.now }
{
    let mut so_far = 0;
    for (i, address) in addresses.iter().enumerate() {
        if address.is_some() {
            so_far = i + 1;
        }
    }
    so_far
}

fn has_hole(addresses: &[Option<SocketAddr>]) -> bool
    ensures { result ≡ has_hole addresses.now }
{
    addresses.iter().filter(|a| a.is_some()).count() < reach(addresses)
}

/// Whether replicas, sequencers, controllers or observers have a hole.
pub(crate) fn any_hole(addresses: &[Option<SocketAddr>; PLACES]) -> bool
    ensures { result ≡ any_hole addresses.now }
{
    has_hole(&addresses[0..8])
        || has_hole(&addresses[8..12])
        || has_hole(&addresses[12..16])
        || has_hole(&addresses[32..36])
}

fn count(addresses: &[Option<SocketAddr>]) -> u8
    requires { length addresses.now < 256 }
    ensures { result ≡ reach addresses.now }
{
    reach(addresses) as u8
}

/// How many actors there are; None outside the limits.
pub(crate) fn counts_of(addresses: &[Option<SocketAddr>; PLACES]) -> Option<Config>
    ensures { let counts = counts_of addresses.now in
        MatchOption result (is_configuration counts ≡ false)
        (λ c. (is_configuration counts ≡ true) × (c ≡ counts)) }
{
    Config::new(
        count(&addresses[0..8]),
        count(&addresses[8..12]),
        count(&addresses[16..32]),
        count(&addresses[12..16]),
        count(&addresses[32..36]),
    )
}
