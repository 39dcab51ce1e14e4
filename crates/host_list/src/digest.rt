ghost use Rattle.std.specs.Prelude.{◌≡◌, ◌∷◌, ◌≤◌, [], length};
ghost use Rattle.host_list.specs.Addresses.{address_bytes};
ghost use Rattle.host_list.specs.Digests.{digest_of, digest_on, hosts_bytes, place_bytes};

use crate::list::HostList;
use std::net::SocketAddr;

/// The digest of no bytes.
pub const FNV_OFFSET: u64 = 0xcbf2_9ce4_8422_2325;

/// By which it is multiplied with each byte.
pub const FNV_PRIME: u64 = 0x100_0000_01b3;

const _: () = prove!(FNV_OFFSET == 14_695_981_039_346_656_037 && FNV_PRIME == 1_099_511_628_211);

/// With one byte more.
fn with_byte(digest: u64, byte: u8) -> u64
    ensures { result ≡ digest_on digest (byte ∷ []) }
{
    (digest ^ u64::from(byte)).wrapping_mul(FNV_PRIME)
}

fn with_bytes(digest: u64, bytes: &[u8]) -> u64
    ensures { result ≡ digest_on digest bytes.now }
{
    let mut mixed = digest;
    for byte in bytes {
        mixed = with_byte(mixed, *byte);
    }
    mixed
}

fn with_address(digest: u64, address: SocketAddr) -> u64
    ensures { result ≡ digest_on digest (address_bytes address) }
{
    match address {
        SocketAddr::V4(a) => {
            let digest = with_bytes(with_byte(digest, 4), &a.ip().octets());
            with_bytes(digest, &a.port().to_be_bytes())
        }
        SocketAddr::V6(a) => {
            let digest = with_bytes(with_byte(digest, 6), &a.ip().octets());
            let digest = with_bytes(digest, &a.port().to_be_bytes());
            with_bytes(digest, &a.scope_id().to_be_bytes())
        }
    }
}

/// With a place, if it has an address.
fn with_place(digest: u64, place: u8, address: Option<SocketAddr>) -> u64
    ensures { result ≡ digest_on digest (place_bytes place address) }
{
    match address {
        Some(address) => with_address(with_byte(digest, place), address),
        None => digest,
    }
}

fn with_addresses(digest: u64, addresses: &[Option<SocketAddr>]) -> u64
    requires { length addresses.now ≤ 36 }
    ensures { result ≡ digest_on digest (hosts_bytes 0 addresses.now) }
{
    let mut mixed = digest;
    let mut place = 0u8;
    for address in addresses {
        mixed = with_place(mixed, place, *address);
        place += 1;
    }
    mixed
}

#[tactic(auto, using(crate::proofs::Digesting::list_parts), unfolding(crate::specs::Digests::digest_of))]
pub(crate) fn digest_of(list: &HostList) -> u64
    ensures { result ≡ digest_of list.now }
{
    let digest = with_bytes(FNV_OFFSET, &list.cluster.to_be_bytes());
    with_addresses(digest, &list.addresses)
}
