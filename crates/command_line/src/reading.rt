ghost use Rattle.std.specs.Prelude.{◌≡◌, ◌<◌, ◌≤◌, IfOk, IfSome, IsTrue, MatchOption};
ghost use Rattle.nop_types.specs.Headers.{gives};
ghost use Rattle.nop_types.specs.declared.limits.TheConstants.{MAX_CONTROLLERS, MAX_OBSERVERS};
ghost use Rattle.clap.specs.Words.{app_of, found_of, rows_of, subcommand_rows_of};
ghost use Rattle.command_line.specs.Program.{program_app};
ghost use Rattle.command_line.specs.Commands.{IsFit, gen_by, gen_in, node_by, node_in, sequencer_by, sequencer_in};
ghost use Rattle.command_line.specs.Commands.{install_by, controller_by, controller_in, client_by, client_in};
ghost use Rattle.command_line.specs.Commands.{cluster_by, cluster_in, ops_of, texts_in, served_by, command_by};
ghost use Rattle.command_line.specs.Commands.{observer_by, observer_in, asking_by, read_by, read_in, key_in, text_in};
ghost use Rattle.command_line.specs.Commands.{command_from, command_of, texts_of, IsRefused, HasFound};
ghost use Rattle.command_line.specs.declared.options.TheConstants.{MAX_CLUSTER_TURNS};

use crate::command::{Command, Site};
use crate::key::read_key;
use crate::ops::read_ops;
use crate::options::{
    choice, cluster_site, count_drawn, key_text, medium, number_drawn, ops, position, replica_site,
    site, small,
};
use crate::program::program;
use clap::ArgMatches;
use clap::error::ErrorKind;
use nop_types::{Key, MAX_OBSERVERS, NoMemory};
use std::alloc::Global;

fn gen_by(number: Option<u64>, count: Option<u32>) -> Option<Command>
    requires least { IfSome count (λ n. 1 ≤ n) }
    requires limit { IfSome count (λ n. n ≤ 100000) }
    ensures value { result ≡ gen_by number count }
    ensures fits { IfSome result IsFit }
{
    match (number, count) {
        (Some(number), Some(count)) => Some(Command::Gen(number, count)),
        _ => None,
    }
}

fn generate(matches: &ArgMatches<'_>) -> Option<Command>
    ensures value { result ≡ gen_in (rows_of (found_of matches.now)) }
    ensures fits { IfSome result IsFit }
{
    gen_by(number_drawn(matches), count_drawn(matches))
}

fn node_by(id: Option<u8>, site: Option<Site>) -> Option<Command>
    ensures value { result ≡ node_by id site }
    ensures fits { IfSome result IsFit }
{
    match (id, site) {
        (Some(id), Some(site)) if id < site.config.replicas() => Some(Command::Node(id, site)),
        _ => None,
    }
}

fn node(matches: &ArgMatches<'_>) -> Option<Command>
    ensures value { result ≡ node_in (rows_of (found_of matches.now)) }
    ensures fits { IfSome result IsFit }
{
    node_by(small(matches, "id"), replica_site(matches))
}

fn sequencer_by(id: Option<u8>, site: Option<Site>) -> Option<Command>
    ensures value { result ≡ sequencer_by id site }
    ensures fits { IfSome result IsFit }
{
    match (id, site) {
        (Some(id), Some(site)) if id < site.config.sequencers() => {
            Some(Command::Sequencer(id, site))
        }
        _ => None,
    }
}

fn sequencer(matches: &ArgMatches<'_>) -> Option<Command>
    ensures value { result ≡ sequencer_in (rows_of (found_of matches.now)) }
    ensures fits { IfSome result IsFit }
{
    sequencer_by(small(matches, "id"), site(0, matches))
}

fn install_by(site: Site, id: u8, install: Option<u8>) -> Option<Command>
    requires { id < MAX_CONTROLLERS }
    ensures value { result ≡ install_by site id install }
    ensures fits { IfSome result IsFit }
{
    match install {
        Some(j) if j >= site.config.sequencers() => None,
        _ => Some(Command::Controller(site, id, install)),
    }
}

fn controller_by(site: Option<Site>, id: Option<u8>, install: Option<Option<u8>>) -> Option<Command>
    ensures value { result ≡ controller_by site id install }
    ensures fits { IfSome result IsFit }
{
    match (site, id, install) {
        (Some(site), Some(id), Some(install)) if id < site.config.controllers() => {
            install_by(site, id, install)
        }
        _ => None,
    }
}

fn controller(matches: &ArgMatches<'_>) -> Option<Command>
    ensures value { result ≡ controller_in (rows_of (found_of matches.now)) }
    ensures fits { IfSome result IsFit }
{
    controller_by(
        site(0, matches),
        small(matches, "id"),
        choice(matches, "install"),
    )
}

fn client_by(
    alloc: Global,
    id: u32,
    site: Site,
    ops: Option<&[&str]>,
) -> Result<Option<Command>, NoMemory>
    ensures value { IfOk result (λ c.
        c ≡ client_by (Some id) (Some site) (ops_of (texts_in ops.entry))) }
    ensures fits { IfOk result (λ c. IfSome c IsFit) }
{
    match read_ops(alloc, ops) {
        Ok(Some(ops)) => Ok(Some(Command::Client(id, site, ops))),
        Ok(None) => Ok(None),
        Err(e) => Err(e),
    }
}

fn client(alloc: Global, matches: &ArgMatches<'_>) -> Result<Option<Command>, NoMemory>
    ensures value { IfOk result (λ c. c ≡ client_in (rows_of (found_of matches.now))) }
    ensures fits { IfOk result (λ c. IfSome c IsFit) }
{
    match (medium(matches, "id"), site(0, matches)) {
        (Some(id), Some(site)) => client_by(alloc, id, site, ops(matches)),
        _ => Ok(None),
    }
}

fn cluster_by(alloc: Global, site: Site, ops: Option<&[&str]>) -> Result<Option<Command>, NoMemory>
    requires form { IsTrue (gives 1 site.config) }
    requires turns { site.turns ≤ MAX_CLUSTER_TURNS }
    ensures value { IfOk result (λ c. c ≡ cluster_by (Some site) (ops_of (texts_in ops.entry))) }
    ensures fits { IfOk result (λ c. IfSome c IsFit) }
{
    match read_ops(alloc, ops) {
        Ok(Some(ops)) => Ok(Some(Command::Cluster(site, ops))),
        Ok(None) => Ok(None),
        Err(e) => Err(e),
    }
}

fn cluster(alloc: Global, matches: &ArgMatches<'_>) -> Result<Option<Command>, NoMemory>
    ensures value { IfOk result (λ c. c ≡ cluster_in (rows_of (found_of matches.now))) }
    ensures fits { IfOk result (λ c. IfSome c IsFit) }
{
    match cluster_site(matches) {
        Some(site) => cluster_by(alloc, site, ops(matches)),
        None => Ok(None),
    }
}

fn observer_by(id: Option<u8>, site: Option<Site>) -> Option<Command>
    ensures value { result ≡ observer_by id site }
    ensures fits { IfSome result IsFit }
{
    match (id, site) {
        (Some(id), Some(site)) if id < site.config.observers() => Some(Command::Observer(id, site)),
        _ => None,
    }
}

fn observer(matches: &ArgMatches<'_>) -> Option<Command>
    ensures value { result ≡ observer_in (rows_of (found_of matches.now)) }
    ensures fits { IfSome result IsFit }
{
    observer_by(small(matches, "id"), site(MAX_OBSERVERS, matches))
}

fn asking_by(id: u32, site: Site, observer: u8, least: u32, key: Option<Key>) -> Option<Command>
    requires { observer < MAX_OBSERVERS }
    ensures value { result ≡ asking_by id site observer least key }
    ensures fits { IfSome result IsFit }
{
    match key {
        Some(key) => Some(Command::Read(id, site, observer, key, least)),
        None => None,
    }
}

fn read_by(
    alloc: Global,
    id: u32,
    site: Site,
    observer: u8,
    least: u32,
    text: Option<&str>,
) -> Result<Option<Command>, NoMemory>
    ensures value { IfOk result (λ c. c ≡ read_by (Some id) (Some site) (Some observer)
        (Some least) (key_in (text_in text.entry))) }
    ensures fits { IfOk result (λ c. IfSome c IsFit) }
{
    if observer >= site.config.observers() {
        return Ok(None);
    }
    match read_key(alloc, text) {
        Ok(key) => Ok(asking_by(id, site, observer, least, key)),
        Err(e) => Err(e),
    }
}

fn read(alloc: Global, matches: &ArgMatches<'_>) -> Result<Option<Command>, NoMemory>
    ensures value { IfOk result (λ c. c ≡ read_in (rows_of (found_of matches.now))) }
    ensures fits { IfOk result (λ c. IfSome c IsFit) }
{
    let asked = small(matches, "observer");
    let least = position(matches);
    match (
        medium(matches, "id"),
        site(MAX_OBSERVERS, matches),
        asked,
        least,
    ) {
        (Some(id), Some(site), Some(observer), Some(least)) => {
            read_by(alloc, id, site, observer, least, key_text(matches))
        }
        _ => Ok(None),
    }
}

/// The command of a node's or the cluster's name and its matches.
fn served(alloc: Global, name: &str, matches: &ArgMatches<'_>) -> Result<Option<Command>, NoMemory>
    ensures value { IfOk result (λ c. c ≡ served_by name.now (rows_of (found_of matches.now))) }
    ensures fits { IfOk result (λ c. IfSome c IsFit) }
{
    match name {
        "sequencer" => Ok(sequencer(matches)),
        "controller" => Ok(controller(matches)),
        "client" => client(alloc, matches),
        "cluster" => cluster(alloc, matches),
        "observer" => Ok(observer(matches)),
        "read" => read(alloc, matches),
        _ => Ok(None),
    }
}

/// The command of a subcommand's name and its matches.
fn command(alloc: Global, name: &str, matches: &ArgMatches<'_>) -> Result<Option<Command>, NoMemory>
    ensures value { IfOk result (λ c. c ≡ command_by name.now (rows_of (found_of matches.now))) }
    ensures fits { IfOk result (λ c. IfSome c IsFit) }
{
    match name {
        "replay" => Ok(Some(Command::Replay)),
        "check" => Ok(Some(Command::Check)),
        "audit" => Ok(Some(Command::Audit)),
        "gen" => Ok(generate(matches)),
        "node" => Ok(node(matches)),
        _ => served(alloc, name, matches),
    }
}

/// What clap finds in the words for the program. None where it finds something wrong.
fn parse<'a>(
    program: clap::Command<'a>,
    words: &'a [String],
) -> Result<Option<ArgMatches<'a>>, NoMemory>
    requires { app_of program ≡ program_app }
    ensures { IfOk result (λ o. MatchOption o (IsRefused (texts_of words.entry.now))
        (λ m. HasFound (texts_of words.entry.now) (subcommand_rows_of m))) }
{
    match program.try_get_matches_from(words) {
        Ok(matches) => Ok(Some(matches)),
        Err(e) => {
            if e.kind() == ErrorKind::OutOfMemory {
                Err(NoMemory)
            } else {
                Ok(None)
            }
        }
    }
}

/// What clap finds in the words. None where it finds something wrong.
fn matches_of<'a>(alloc: Global, words: &'a [String]) -> Result<Option<ArgMatches<'a>>, NoMemory>
    ensures { IfOk result (λ o. MatchOption o (IsRefused (texts_of words.entry.now))
        (λ m. HasFound (texts_of words.entry.now) (subcommand_rows_of m))) }
{
    match program(alloc) {
        Ok(program) => parse(program, words),
        Err(_) => Err(NoMemory),
    }
}

/// The command of matches.
fn command_found(alloc: Global, matches: &ArgMatches<'_>) -> Result<Option<Command>, NoMemory>
    ensures value { IfOk result (λ c. c ≡ command_from (subcommand_rows_of matches.now)) }
    ensures fits { IfOk result (λ c. IfSome c IsFit) }
{
    match matches.subcommand() {
        Some((name, found)) => command(alloc, name, found),
        None => Ok(None),
    }
}

/// The command that the words ask for; the first word is the program's name. None where they are not taken.
pub fn read_words(alloc: Global, words: &[String]) -> Result<Option<Command>, NoMemory>
    ensures value { IfOk result (λ c. c ≡ command_of (texts_of words.now)) }
    ensures fits { IfOk result (λ c. IfSome c IsFit) }
{
    match matches_of(alloc, words) {
        Ok(Some(matches)) => command_found(alloc, &matches),
        Ok(None) => Ok(None),
        Err(e) => Err(e),
    }
}
