//! The address for users, and the gateway's numbers.

ghost use Rattle.std.specs.Prelude.{◌≡◌, IfSome};
ghost use Rattle.site_words.specs.Tasks.{AreBelow, ends_of, numbers_of};

use crate::services::number_in;
use crate::task::{MAX_NUMBERS, Numbers};
use host_list::spelled_address;
use std::net::SocketAddr;

fn numbers_of(first: &[u8], count: &[u8]) -> Option<Numbers>
    ensures numbers { result ≡ numbers_of first.now count.now }
    ensures below { IfSome result AreBelow }
{
    let count = number_in(1, u64::from(MAX_NUMBERS), count)?;
    let first = number_in(0, 4_294_967_296 - count, first)?;
    Some(Numbers {
        first: first as u32,
        count: count as u32,
    })
}

/// The address for users, and the gateway's numbers.
pub(crate) fn ends_of(listen: &str, first: &str, count: &str) -> Option<(SocketAddr, Numbers)>
    ensures ends { result ≡ ends_of listen.now first.now count.now }
    ensures below { IfSome result (λ ends. AreBelow ends.1) }
{
    let address = spelled_address(listen.as_bytes())?;
    let numbers = numbers_of(first.as_bytes(), count.as_bytes())?;
    Some((address, numbers))
}
