//! The service on this machine that words name, and numbers of a range.

ghost use Rattle.std.specs.Prelude.{◌≡◌, ◌≤◌, IfSome};
ghost use Rattle.site_words.specs.Services.{number_in, service_of};

use client_call::Service;
use line_fields::{number, small_number};
use nop_types::{Config, MAX_CONTROLLERS};
use udp_node::BasePort;

/// A number from `least` to `most`.
pub fn number_in(least: u64, most: u64, word: &[u8]) -> Option<u64>
    ensures number { result ≡ number_in least most word.now }
    ensures least { IfSome result (λ n. least ≤ n) }
    ensures most { IfSome result (λ n. n ≤ most) }
{
    let n = number(word)?;
    if least <= n && n <= most {
        Some(n)
    } else {
        None
    }
}

/// The service at these ports. Its configuration is that of a node: one client and the most
/// controllers, numbers that no client reads.
pub fn service_of(port: &[u8], replicas: &[u8], sequencers: &[u8]) -> Option<Service>
    ensures { result ≡ service_of port.now replicas.now sequencers.now }
{
    let base = BasePort::new(number_in(1024, 65000, port)? as u16)?;
    let replicas = small_number(256, replicas)?;
    let sequencers = small_number(256, sequencers)?;
    match Config::new(replicas, sequencers, 1, MAX_CONTROLLERS, 0) {
        Some(config) => Some(Service { base, config }),
        None => None,
    }
}
