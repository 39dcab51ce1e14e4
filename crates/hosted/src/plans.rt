//! Who is to run, by the text of a list of hosts and what the program is asked for.

ghost use Rattle.std.specs.Prelude.{◌≡◌, IfOk};
ghost use Rattle.command_line.specs.Commands.{command_of, texts_of};
ghost use Rattle.hosted.specs.Arguments.{asked_of};
ghost use Rattle.hosted.specs.Plans.{PlanIs, is_own, is_site, listed, runs_own};

use crate::actors::named;
use crate::arguments::{Task, words_of};
use crate::unfit::Unfit;
use command_line::{Command, Site, read_words};
use host_list::HostList;
use host_places::address_in;
use nop_types::{Actor, NoMemory};
use std::alloc::Global;
use udp_node::Address;

/// Who is to run: the list, the actor in it, and the words by which `commands` runs it.
#[derive(Drop)]
pub(crate) struct Plan {
    pub(crate) list: HostList,
    pub(crate) at: Address,
    pub(crate) words: Vec<String>,
}

/// The actor with this name, if it is in the list.
fn listed(list: &HostList, name: &[u8]) -> Option<Actor>
    ensures { result ≡ listed list.now name.now }
{
    let actor = named(list.config(), name)?;
    if list.address_of(actor).is_some() {
        Some(actor)
    } else {
        None
    }
}

/// Whether a site has the base port of an address, and as many replicas and sequencers.
fn is_site(at: &Address, site: &Site) -> bool
    ensures { result ≡ is_site at.now site.now }
{
    site.base.get() == at.base.get()
        && site.config.replicas() == at.config.replicas()
        && site.config.sequencers() == at.config.sequencers()
}

/// Whether a command runs the own actor of an address.
fn is_own(at: &Address, command: &Command) -> bool
    ensures { result ≡ is_own at.now at.now.own command.now }
{
    match (at.own, command) {
        (Actor::Replica(i), Command::Node(id, site)) => {
            *id == i && is_site(at, site) && site.config.observers() == at.config.observers()
        }
        (Actor::Sequencer(i), Command::Sequencer(id, site)) => *id == i && is_site(at, site),
        (Actor::Controller(i), Command::Controller(site, id, _)) => *id == i && is_site(at, site),
        (Actor::Client(i), Command::Client(id, site, _)) => *id == i && is_site(at, site),
        (Actor::Observer(i), Command::Observer(id, site)) => *id == i && is_site(at, site),
        _ => false,
    }
}

/// Whether `commands` takes these words, as a command that runs the own actor of an address.
fn runs_own(alloc: Global, at: &Address, words: &[String]) -> Result<bool, NoMemory>
    ensures { IfOk result (λ it. it ≡ runs_own at.now (command_of (texts_of words.now))) }
{
    match read_words(alloc, words)? {
        Some(command) => Ok(is_own(at, &command)),
        None => Ok(false),
    }
}

/// Who is to run, or why nothing is.
pub(crate) fn plan_of(alloc: Global, text: &[u8], task: &Task<'_>) -> Result<Plan, Unfit>
    ensures { PlanIs text.now (asked_of task.now) result }
{
    let list = match host_list::read(text) {
        Ok(list) => list,
        Err(refusal) => return Err(Unfit::List(refusal)),
    };
    let Some(actor) = listed(&list, task.actor.as_bytes()) else {
        return Err(Unfit::Usage);
    };
    let Some(at) = address_in(&list, actor) else {
        return Err(Unfit::Usage);
    };
    let words = words_of(alloc, &at, task.rest)?;
    if !runs_own(alloc, &at, &words)? {
        return Err(Unfit::Usage);
    }
    Ok(Plan { list, at, words })
}
