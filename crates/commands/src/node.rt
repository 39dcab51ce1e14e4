//! A run of a core over the ports, and its last line.

ghost use Rattle.std.specs.Prelude.{◌≡◌, ◌≤◌, ◌++◌, length, option_map, OnOk};
ghost use Rattle.nop_types.specs.Given.{given};
ghost use Rattle.outside.specs.Causes.{CountsFor, CountsWhere};
ghost use Rattle.udp_node.specs.Effects.{Writes};
ghost use Rattle.udp_node.specs.NodeRun.{first_inputs};
ghost use Rattle.udp_node.specs.Sends.{side};
ghost use Rattle.commands.specs.Nodes.{served_line, last_text, end_status, task_of, EndsInLine};
ghost use Rattle.commands.specs.Nodes.{IsNodeStatus, NodeEndsOver, RunObserved};
ghost use Rattle.outside.specs.declared.errors.DeviceError.TheVariants as devices;

use crate::status::Status;
use nop_types::{Core, Input, NoMemory};
use outside::{AttachError, Clock, Link, Ports, Sink, WriteError, write_all};
use std::alloc::Global;
use transcript_text::put_number;
use udp_node::{Address, ServeError, Served, serve};

/// What a node runs: the input before its first turn, the most turns, whether it waits for its core to be done, and whether it
/// writes a trace.
#[derive(Clone, Copy)]
pub(crate) struct Task<'a> {
    pub(crate) first: Option<Input<'a>>,
    pub(crate) turns: u64,
    pub(crate) waits: bool,
    pub(crate) trace: bool,
}

fn put_served(served: Served, to: &mut Vec<u8>) -> Result<(), NoMemory>
    ensures { OnOk result (to.new.items ≡ to.old.items ++ served_line served.turns served.lost) }
{
    to.extend_from_slice(b"served ")?;
    put_number(served.turns, to)?;
    to.extend_from_slice(b" lost ")?;
    put_number(served.lost, to)?;
    to.push(b'\n')?;
    Ok(())
}

fn write_served<K: Sink>(alloc: Global, served: Served, sink: &mut K) -> Result<(), WriteError>
    ensures line { Writes (served_line served.turns served.lost) result (K.held sink.old)
        (K.held sink.new) }
    ensures count { CountsFor (K.fault_count sink.old) (K.fault_count sink.new)
        devices.Failed result }
{
    let mut line = Vec::new(alloc);
    put_served(served, &mut line)?;
    write_all(sink, &line)
}

/// Writes the last line. A trace has none.
#[tactic(auto, using(udp_node::proofs::EffectLemmas::Appends_none))]
fn write_last<K: Sink>(
    alloc: Global,
    trace: bool,
    served: Served,
    sink: &mut K,
) -> Result<(), WriteError>
    ensures line { Writes (last_text trace served.turns served.lost) result (K.held sink.old)
        (K.held sink.new) }
    ensures count { CountsFor (K.fault_count sink.old) (K.fault_count sink.new)
        devices.Failed result }
{
    if trace {
        return Ok(());
    }
    write_served(alloc, served, sink)
}

fn end_status(waits: bool, done: bool) -> Status
    ensures { result ≡ end_status waits done }
{
    if waits && !done {
        Status::Unanswered
    } else {
        Status::Done
    }
}

fn copied(at: &Address) -> Address
    ensures { result ≡ at.now }
{
    Address {
        base: at.base,
        own: at.own,
        config: at.config,
    }
}

/// Runs a core over a link, and writes the last line.
fn run_link<C: Core, L: Link, T: Clock, K: Sink>(
    alloc: Global,
    core: &mut C,
    at: &Address,
    task: &Task<'_>,
    link: &mut L,
    clock: &mut T,
    sink: &mut K,
) -> Status
    requires timers { length C.timers ≤ 255 }
    ensures run { RunObserved (task_of C.next C.is_done C.timers (C.state core.old) at.now
        (first_inputs (option_map given task.now.first)) task.now.turns task.now.waits
        task.now.trace)
        (L.answers link.old) (T.values clock.old) result
        (side (L.trace link.old) 0 (L.loss_count link.old))
        (side (L.trace link.new) 0 (L.loss_count link.new)) (K.held sink.old) (K.held sink.new) }
    ensures status { IsNodeStatus task.now.waits result }
    ensures last { EndsInLine (task_of C.next C.is_done C.timers (C.state core.old) at.now
        (first_inputs (option_map given task.now.first)) task.now.turns task.now.waits
        task.now.trace)
        (L.loss_count link.old) (L.loss_count link.new) result
        (K.held sink.old) (K.held sink.new) }
    ensures port { L.own_port link.new ≡ L.own_port link.old }
    ensures polls { CountsWhere (L.fault_count link.old) (L.fault_count link.new)
        (result ≡ Status.LinkFault) }
    ensures writes { CountsWhere (K.fault_count sink.old) (K.fault_count sink.new)
        (result ≡ Status.WriteFault) }
{
    let place = copied(at);
    let first = task.first;
    let turns = task.turns;
    let trace = task.trace;
    match serve(alloc, core, place, first, link, clock, turns, sink, trace) {
        Ok(served) => match write_last(alloc, trace, served, sink) {
            Ok(()) => end_status(task.waits, served.done),
            Err(WriteError::Failed) => Status::WriteFault,
            Err(WriteError::NoMemory) => Status::NoMemory,
        },
        Err(ServeError::LinkFault) => Status::LinkFault,
        Err(ServeError::WriteFault) => Status::WriteFault,
        Err(ServeError::NoMemory) => Status::NoMemory,
    }
}

/// Runs a core over a link at its own port.
pub(crate) fn run_core<C: Core, P: Ports, T: Clock, K: Sink>(
    alloc: Global,
    core: &mut C,
    at: &Address,
    task: &Task<'_>,
    ports: &mut P,
    clock: &mut T,
    sink: &mut K,
) -> Status
    requires timers { length C.timers ≤ 255 }
    ensures { NodeEndsOver P.L.Link P.Ports T.Clock K.Sink
        (task_of C.next C.is_done C.timers (C.state core.old) at.now
        (first_inputs (option_map given task.now.first)) task.now.turns task.now.waits
        task.now.trace)
        ports.old ports.new clock.old sink.old sink.new result }
{
    match ports.attach(at.port_of(at.own)) {
        Ok(link) => {
            let mut link = link;
            let status = run_link(alloc, core, at, task, &mut link, clock, sink);
            ports.detach(link);
            status
        }
        Err(AttachError::Failed) => Status::LinkFault,
        Err(AttachError::NoMemory) => Status::NoMemory,
    }
}
