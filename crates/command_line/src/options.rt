//! The values of options.

ghost use Rattle.std.specs.Prelude.{◌≡◌, ◌≤◌, IfSome, IsTrue, Some, codes};
ghost use Rattle.clap.specs.Words.{all_of, found_of, rows_of, first_of};
ghost use Rattle.nop_types.specs.Headers.{gives};
ghost use Rattle.command_line.specs.Commands.{value_of, choice_of, flag_of, is_set, text_in, texts_in};
ghost use Rattle.command_line.specs.Commands.{site_by, site_of};
ghost use Rattle.command_line.specs.Commands.{replica_site_of, cluster_site_of};
ghost use Rattle.command_line.specs.declared.options.TheConstants.{MAX_CLUSTER_TURNS};

use crate::command::Site;
use crate::number::number;
use clap::ArgMatches;
use nop_types::{Config, MAX_CONTROLLERS};
use udp_node::BasePort;

/// The most turns of a cluster, which keeps each event.
pub const MAX_CLUSTER_TURNS: u64 = 10_000;

// A number that both code and definitions name would be proved whatever it was; so here it stands once more.
const _: () = prove!(MAX_CLUSTER_TURNS == 10_000);

/// The number that an option has, from a least to a greatest one. Where it is left out, what stands for it.
fn value(
    matches: &ArgMatches<'_>,
    name: &str,
    default: Option<u64>,
    least: u64,
    most: u64,
) -> Option<u64>
    requires least { IfSome default (λ n. least ≤ n) }
    requires limit { IfSome default (λ n. n ≤ most) }
    ensures value { result ≡ value_of (rows_of (found_of matches.now)) name.now
        default least most }
    ensures least { IfSome result (λ n. least ≤ n) }
    ensures limit { IfSome result (λ n. n ≤ most) }
{
    match matches.get_str(name) {
        Some(text) => number(text, least, most),
        None => default,
    }
}

/// A number of 8 bits.
pub(crate) fn small(matches: &ArgMatches<'_>, name: &str) -> Option<u8>
    ensures { result ≡ value_of (rows_of (found_of matches.now)) name.now None 0 255 }
{
    match value(matches, name, None, 0, 255) {
        Some(n) => Some(n as u8),
        None => None,
    }
}

/// A number of 32 bits.
pub(crate) fn medium(matches: &ArgMatches<'_>, name: &str) -> Option<u32>
    ensures { result ≡ value_of (rows_of (found_of matches.now)) name.now None 0 4294967295 }
{
    match value(matches, name, None, 0, 4_294_967_295) {
        Some(n) => Some(n as u32),
        None => None,
    }
}

/// How many observers there are, none where the option is left out.
fn observers(matches: &ArgMatches<'_>) -> Option<u8>
    ensures { result ≡ value_of (rows_of (found_of matches.now)) (codes "observers")
        (Some 0) 0 255 }
{
    match value(matches, "observers", Some(0), 0, 255) {
        Some(n) => Some(n as u8),
        None => None,
    }
}

/// The least position of an answer, 0 where the option is left out.
pub(crate) fn position(matches: &ArgMatches<'_>) -> Option<u32>
    ensures { result ≡ value_of (rows_of (found_of matches.now)) (codes "position")
        (Some 0) 0 4294967295 }
{
    match value(matches, "position", Some(0), 0, 4_294_967_295) {
        Some(n) => Some(n as u32),
        None => None,
    }
}

/// The number of a drawn schedule.
pub(crate) fn number_drawn(matches: &ArgMatches<'_>) -> Option<u64>
    ensures { result ≡ value_of (rows_of (found_of matches.now)) (codes "number")
        None 0 18446744073709551615 }
{
    value(matches, "number", None, 0, u64::MAX)
}

/// How many events a drawn schedule has.
pub(crate) fn count_drawn(matches: &ArgMatches<'_>) -> Option<u32>
    ensures value { result ≡ value_of (rows_of (found_of matches.now)) (codes "count")
        None 1 100000 }
    ensures least { IfSome result (λ n. 1 ≤ n) }
    ensures limit { IfSome result (λ n. n ≤ 100000) }
{
    match value(matches, "count", None, 1, 100_000) {
        Some(n) => Some(n as u32),
        None => None,
    }
}

fn base(matches: &ArgMatches<'_>) -> Option<BasePort>
    ensures { result ≡ value_of (rows_of (found_of matches.now)) (codes "base")
        (Some 41000) 1024 65000 }
{
    match value(matches, "base", Some(41000), 1024, 65000) {
        Some(n) => BasePort::new(n as u16),
        None => None,
    }
}

/// The most turns, which are as many as can be where the option is left out.
fn turns(matches: &ArgMatches<'_>, most: u64) -> Option<u64>
    requires { 1 ≤ most }
    ensures value { result ≡ value_of (rows_of (found_of matches.now)) (codes "turns")
        (Some most) 1 most }
    ensures limit { IfSome result (λ n. n ≤ most) }
{
    value(matches, "turns", Some(most), 1, most)
}

/// A number of 8 bits that may be left out. None where it is no such number.
pub(crate) fn choice(matches: &ArgMatches<'_>, name: &str) -> Option<Option<u8>>
    ensures { result ≡ choice_of (first_of name.now (rows_of (found_of matches.now))) }
{
    match matches.get_str(name) {
        Some(text) => {
            let n = number(text, 0, 255)?;
            Some(Some(n as u8))
        }
        None => Some(None),
    }
}

/// Whether a flag stands among the words: its text is `true` then, and else `false`.
fn is_set(text: Option<&str>) -> bool
    ensures { result ≡ is_set (text_in text.entry) }
{
    match text {
        Some(text) => text == "true",
        None => false,
    }
}

/// Whether an option without a value stands among the words.
fn flag(matches: &ArgMatches<'_>, name: &str) -> bool
    ensures { result ≡ flag_of (rows_of (found_of matches.now)) name.now }
{
    is_set(matches.get_str(name))
}

/// The texts of ops.
pub(crate) fn ops<'m>(matches: &'m ArgMatches<'_>) -> Option<&'m [&'m str]>
    ensures { texts_in result ≡ all_of (codes "ops") (rows_of (found_of matches.now)) }
{
    matches.get_strs("ops")
}

/// The text of a key.
pub(crate) fn key_text<'m>(matches: &'m ArgMatches<'_>) -> Option<&'m str>
    ensures { text_in result ≡ first_of (codes "key") (rows_of (found_of matches.now)) }
{
    matches.get_str("key")
}

fn site_by(
    replicas: Option<u8>,
    sequencers: Option<u8>,
    clients: Option<u8>,
    controllers: u8,
    observers: u8,
    base: Option<BasePort>,
    turns: Option<u64>,
    trace: bool,
) -> Option<Site>
    ensures value { result ≡ site_by replicas sequencers clients controllers observers base turns
        trace }
    ensures controllers { IfSome result (λ s. s.config.controllers ≡ controllers) }
    ensures observers { IfSome result (λ s. s.config.observers ≡ observers) }
    ensures turns { IfSome result (λ s. turns ≡ Some s.turns) }
{
    let (Some(replicas), Some(sequencers), Some(clients), Some(base), Some(turns)) = (
        replicas, sequencers, clients, base, turns,
    ) else {
        return None;
    };
    match Config::new(replicas, sequencers, clients, controllers, observers) {
        Some(config) => Some(Site {
            config,
            base,
            turns,
            trace,
        }),
        None => None,
    }
}

/// Where a node is that knows of so many observers.
pub(crate) fn site(observers: u8, matches: &ArgMatches<'_>) -> Option<Site>
    ensures { result ≡ site_of observers (rows_of (found_of matches.now)) }
{
    site_by(
        small(matches, "replicas"),
        small(matches, "sequencers"),
        Some(1),
        MAX_CONTROLLERS,
        observers,
        base(matches),
        turns(matches, u64::MAX),
        flag(matches, "trace"),
    )
}

/// Where a replica is.
pub(crate) fn replica_site(matches: &ArgMatches<'_>) -> Option<Site>
    ensures { result ≡ replica_site_of (rows_of (found_of matches.now)) }
{
    match observers(matches) {
        Some(count) => site(count, matches),
        None => None,
    }
}

/// Where the cluster is.
pub(crate) fn cluster_site(matches: &ArgMatches<'_>) -> Option<Site>
    ensures value { result ≡ cluster_site_of (rows_of (found_of matches.now)) }
    ensures form { IfSome result (λ s. IsTrue (gives 1 s.config)) }
    ensures turns { IfSome result (λ s. s.turns ≤ MAX_CLUSTER_TURNS) }
{
    site_by(
        small(matches, "replicas"),
        small(matches, "sequencers"),
        small(matches, "clients"),
        1,
        0,
        base(matches),
        turns(matches, MAX_CLUSTER_TURNS),
        false,
    )
}
