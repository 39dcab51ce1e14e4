//! The commands that run a node.

ghost use Rattle.std.specs.Prelude.{◌≡◌, ◌<◌, false, option_map, true, IfOk};
ghost use Rattle.fresh_reads.specs.FreshReads.{opening};
ghost use Rattle.nop_types.specs.Given.{given};
ghost use Rattle.nop_types.specs.declared.limits.TheConstants.{MAX_SEQUENCERS, MAX_CONTROLLERS, MAX_OBSERVERS};
ghost use Rattle.commands.specs.Nodes.{NodeEndsOver};
ghost use Rattle.commands.specs.Tasks.{install_order, replica_task, sequencer_task, controller_task, client_task};
ghost use Rattle.commands.specs.Tasks.{observer_task, read_task};

use crate::node::{Task, run_core};
use crate::status::Status;
use client_quorum::Client;
use command_line::{Ops, Site};
use fresh_reads::FreshRead;
use nop_types::{Actor, Host, Input, Key, NoMemory, Tick};
use observer::Observer;
use outside::{Clock, Ports, Sink};
use replica_core::Replica;
use sequencer::Sequencer;
use session_control::Controller;
use std::alloc::Global;
use udp_node::Address;

/// The address of an actor.
fn address(site: &Site, own: Actor) -> Address
    ensures { result ≡ record { base = site.now.base; own = own; config = site.now.config } }
{
    Address {
        base: site.base,
        own,
        config: site.config,
    }
}

/// What a node runs that ends with its turns.
fn endless<'a>(site: &Site, first: Option<Input<'a>>) -> Task<'a>
    ensures { result ≡ record {
      first = first.entry;
      turns = site.now.turns;
      waits = false;
      trace = site.now.trace;
    } }
{
    Task {
        first,
        turns: site.turns,
        waits: false,
        trace: site.trace,
    }
}

/// What a node runs that waits for its core to be done.
fn waiting<'a>(site: &Site, first: Option<Input<'a>>) -> Task<'a>
    ensures { result ≡ record {
      first = first.entry;
      turns = site.now.turns;
      waits = true;
      trace = site.now.trace;
    } }
{
    Task {
        first,
        turns: site.turns,
        waits: true,
        trace: site.trace,
    }
}

#[tactic(auto, using(crate::proofs::NodeLemmas::not_run))]
pub(crate) fn run_replica<H: Host, P: Ports, T: Clock, K: Sink>(
    alloc: Global,
    id: u8,
    site: &Site,
    ports: &mut P,
    clock: &mut T,
    sink: &mut K,
) -> Status
    requires id { id < site.now.config.replicas }
    ensures { NodeEndsOver P.L.Link P.Ports T.Clock K.Sink (replica_task H.meaning id site.now)
        ports.old ports.new clock.old sink.old sink.new result }
{
    match Replica::<H>::new(alloc, site.config, id) {
        Ok(core) => {
            let mut core = core;
            let at = address(site, Actor::Replica(id));
            let task = endless(site, None);
            run_core(alloc, &mut core, &at, &task, ports, clock, sink)
        }
        Err(NoMemory) => Status::NoMemory,
    }
}

#[tactic(auto, using(crate::proofs::NodeLemmas::not_run))]
pub(crate) fn run_sequencer<P: Ports, T: Clock, K: Sink>(
    alloc: Global,
    id: u8,
    site: &Site,
    ports: &mut P,
    clock: &mut T,
    sink: &mut K,
) -> Status
    requires id { id < MAX_SEQUENCERS }
    ensures { NodeEndsOver P.L.Link P.Ports T.Clock K.Sink (sequencer_task id site.now)
        ports.old ports.new clock.old sink.old sink.new result }
{
    match Sequencer::new(alloc, id) {
        Ok(core) => {
            let mut core = core;
            let at = address(site, Actor::Sequencer(id));
            let task = endless(site, None);
            run_core(alloc, &mut core, &at, &task, ports, clock, sink)
        }
        Err(NoMemory) => Status::NoMemory,
    }
}

/// The order to install a sequencer.
fn install(j: Option<u8>) -> Option<Input<'static>>
    ensures { option_map given result ≡ install_order j }
{
    match j {
        Some(j) => Some(Input::Tick(Tick::Install(j))),
        None => None,
    }
}

#[tactic(auto, using(crate::proofs::NodeLemmas::not_run))]
pub(crate) fn run_controller<P: Ports, T: Clock, K: Sink>(
    alloc: Global,
    site: &Site,
    number: u8,
    j: Option<u8>,
    ports: &mut P,
    clock: &mut T,
    sink: &mut K,
) -> Status
    requires number { number < MAX_CONTROLLERS }
    ensures { NodeEndsOver P.L.Link P.Ports T.Clock K.Sink (controller_task site.now number j)
        ports.old ports.new clock.old sink.old sink.new result }
{
    match Controller::new(alloc, site.config, number) {
        Ok(core) => {
            let mut core = core;
            let at = address(site, Actor::Controller(number));
            let task = endless(site, install(j));
            run_core(alloc, &mut core, &at, &task, ports, clock, sink)
        }
        Err(NoMemory) => Status::NoMemory,
    }
}

#[tactic(auto, using(crate::proofs::NodeLemmas::not_run))]
pub(crate) fn run_client<P: Ports, T: Clock, K: Sink>(
    alloc: Global,
    id: u32,
    site: &Site,
    ops: Ops,
    ports: &mut P,
    clock: &mut T,
    sink: &mut K,
) -> Status
    ensures { NodeEndsOver P.L.Link P.Ports T.Clock K.Sink (client_task id site.now ops)
        ports.old ports.new clock.old sink.old sink.new result }
{
    match Client::new(alloc, site.config, id, ops.into_vec()) {
        Ok(core) => {
            let mut core = core;
            let at = address(site, Actor::Client(id));
            let task = waiting(site, None);
            run_core(alloc, &mut core, &at, &task, ports, clock, sink)
        }
        Err(NoMemory) => Status::NoMemory,
    }
}

#[tactic(auto, using(crate::proofs::NodeLemmas::not_run))]
pub(crate) fn run_observer<H: Host, P: Ports, T: Clock, K: Sink>(
    alloc: Global,
    id: u8,
    site: &Site,
    ports: &mut P,
    clock: &mut T,
    sink: &mut K,
) -> Status
    requires id { id < MAX_OBSERVERS }
    ensures { NodeEndsOver P.L.Link P.Ports T.Clock K.Sink (observer_task H.meaning id site.now)
        ports.old ports.new clock.old sink.old sink.new result }
{
    match Observer::<H>::new(alloc, site.config, id) {
        Ok(core) => {
            let mut core = core;
            let at = address(site, Actor::Observer(id));
            let task = endless(site, None);
            run_core(alloc, &mut core, &at, &task, ports, clock, sink)
        }
        Err(NoMemory) => Status::NoMemory,
    }
}

/// A client that asks an observer for a key until an answer's position is not below `least`.
fn reader(
    alloc: Global,
    id: u32,
    site: &Site,
    observer: u8,
    key: &Key,
    least: u32,
) -> Result<FreshRead, NoMemory>
    ensures { IfOk result (λ c. c ≡ record {
      failed = false;
      state = opening site.now.config id observer key.now least;
    }) }
{
    FreshRead::new(alloc, site.config, id, observer, key.try_clone()?, least)
}

/// A client asks an observer for a key, and waits for an answer whose position is not below `least`.
#[tactic(auto, using(crate::proofs::NodeLemmas::not_run))]
pub(crate) fn run_read<P: Ports, T: Clock, K: Sink>(
    alloc: Global,
    id: u32,
    site: &Site,
    observer: u8,
    key: Key,
    least: u32,
    ports: &mut P,
    clock: &mut T,
    sink: &mut K,
) -> Status
    ensures { NodeEndsOver P.L.Link P.Ports T.Clock K.Sink
        (read_task id site.now observer key least)
        ports.old ports.new clock.old sink.old sink.new result }
{
    match reader(alloc, id, site, observer, &key, least) {
        Ok(core) => {
            let mut core = core;
            let at = address(site, Actor::Client(id));
            let task = waiting(site, Some(Input::Read(observer, &key)));
            run_core(alloc, &mut core, &at, &task, ports, clock, sink)
        }
        Err(NoMemory) => Status::NoMemory,
    }
}
