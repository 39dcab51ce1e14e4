//! Which watch arguments name.

ghost use Rattle.std.specs.Prelude.{◌≡◌, ◌≤◌, IfSome};
ghost use Rattle.watch.specs.Arguments.{call_of, config_of, names_a_list, number_in, place_of};

use line_fields::{actor, number, small_number};
use nop_types::{Actor, Bytes, Config, MAX_CONTROLLERS, MAX_OBSERVERS};
use udp_node::{Address, BasePort};
use watching::{Asked, asked_of};

/// A watch: at the place of an observer, which is `own`, and what is asked of it.
#[derive(Clone, Copy, PartialEq, Eq)]
pub struct Call {
    pub at: Address,
    pub asked: Asked,
}

/// A number from `least` to `most`.
fn number_in(least: u64, most: u64, word: &[u8]) -> Option<u64>
    ensures number { result ≡ number_in least most word.now }
    ensures limit { IfSome result (λ n. n ≤ most) }
{
    let n = number(word)?;
    if least <= n && n <= most {
        Some(n)
    } else {
        None
    }
}

/// A configuration of so many replicas, with all observers. Its other numbers no watch reads.
fn config_of(replicas: &[u8]) -> Option<Config>
    ensures { result ≡ config_of replicas.now }
{
    let replicas = small_number(256, replicas)?;
    Config::new(replicas, 1, 1, MAX_CONTROLLERS, MAX_OBSERVERS)
}

/// The place of an observer.
fn place_of(port: &[u8], replicas: &[u8], observer: &[u8]) -> Option<Address>
    ensures { result ≡ place_of port.now replicas.now observer.now }
{
    let base = BasePort::new(number_in(1024, 65000, port)? as u16)?;
    let config = config_of(replicas)?;
    match actor(config, observer) {
        Some(Actor::Observer(i)) => Some(Address {
            base,
            own: Actor::Observer(i),
            config,
        }),
        _ => None,
    }
}

/// Whether arguments begin with the file of a list of hosts: behind it no number stands.
pub fn names_a_list(arguments: &[Bytes]) -> bool
    ensures { result ≡ names_a_list arguments.now }
{
    let [_list, word, ..] = arguments else {
        return false;
    };
    number(word.as_slice()).is_none()
}

/// The watch that arguments name.
pub fn call_of(arguments: &[Bytes]) -> Option<Call>
    ensures { result ≡ call_of arguments.now }
{
    let [port, replicas, observer, words @ ..] = arguments else {
        return None;
    };
    let at = place_of(port.as_slice(), replicas.as_slice(), observer.as_slice())?;
    let asked = asked_of(words)?;
    Some(Call { at, asked })
}
