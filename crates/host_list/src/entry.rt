//! What a line says by itself.

ghost use Rattle.std.specs.Prelude.{◌≡◌};
ghost use Rattle.host_list.specs.Reading.{cluster_entry, entry_of, entry_of_two, host_entry};

use crate::addresses::address_of;
use crate::places::named;
use crate::rule::Rule;
use crate::words::{Words, words_of};
use line_fields::{is_word, number};
use std::net::SocketAddr;

/// What a line says.
#[derive(Clone, Copy)]
pub enum Entry {
    Blank,
    Cluster(u64),
    /// The address of the actor at a place.
    Host(usize, SocketAddr),
}

fn cluster_entry(value: &[u8]) -> Result<Entry, Rule>
    ensures { result ≡ cluster_entry value.now }
{
    match number(value) {
        Some(n) => Ok(Entry::Cluster(n)),
        None => Err(Rule::WrongNumber),
    }
}

fn host_entry(place: usize, value: &[u8]) -> Result<Entry, Rule>
    ensures { result ≡ host_entry place value.now }
{
    match address_of(value) {
        Some(address) => Ok(Entry::Host(place, address)),
        None => Err(Rule::WrongAddress),
    }
}

fn entry_of_two(name: &[u8], value: &[u8]) -> Result<Entry, Rule>
    ensures { result ≡ entry_of_two name.now value.now }
{
    if is_word(name, "cluster") {
        return cluster_entry(value);
    }
    match named(name) {
        Some(place) => host_entry(place, value),
        None => Err(Rule::WrongName),
    }
}

/// What a line says, or the first rule that it breaks by itself.
#[tactic(auto, unfolding(crate::specs::Reading::entry_of))]
pub(crate) fn entry_of(line: &[u8]) -> Result<Entry, Rule>
    ensures { result ≡ entry_of line.now }
{
    match words_of(line) {
        Words::None => Ok(Entry::Blank),
        Words::Two(name, value) => entry_of_two(name, value),
        Words::Others => Err(Rule::WrongWords),
    }
}
