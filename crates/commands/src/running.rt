ghost use Rattle.std.specs.Prelude.{◌≡◌, ◌≤◌, false, IfOk};
ghost use Rattle.outside.specs.Causes.{CountsWhere};
ghost use Rattle.replay.specs.Safety.{RunsSafelyOf};
ghost use Rattle.command_line.specs.Commands.{IsFit};
ghost use Rattle.commands.specs.Words.{asked, reads, usage_line, Taken};
ghost use Rattle.commands.specs.Audits.{AuditEnds, PassesTrace};
ghost use Rattle.commands.specs.Checks.{CheckEnds};
ghost use Rattle.commands.specs.Clusters.{uses_ports};
ghost use Rattle.commands.specs.Ending.{ReplayEnds, GenEnds, UsageEnds};
ghost use Rattle.one_box.specs.Showing.{links_of};
ghost use Rattle.commands.specs.Nodes.{ports_of, ReadsTo};
ghost use Rattle.commands.specs.Runs.{Runs, Completes, devices, sink_of, source_of};

use crate::auditing::run_audit;
use crate::check::run_check;
use crate::cluster::run_cluster;
use crate::node_commands::{
    run_client, run_controller, run_observer, run_read, run_replica, run_sequencer,
};
use crate::status::Status;
use command_line::{Command, read_words};
use nop_types::{Host, NoMemory};
use outside::{Clock, Ports, Sink, Source, WriteError, write_all};
use replay::{GenError, ReplayError, generate, replay};
use std::alloc::Global;

/// What stands after the program's name in the usage line.
const COMMANDS: &str = " replay | gen | node | sequencer | controller | client | cluster | check \
    | observer | read | audit\n";

fn run_replay<H: Host, S: Source, K: Sink>(alloc: Global, source: &mut S, sink: &mut K) -> Status
    ensures ends { ReplayEnds H.meaning (S.left source.old) (S.left source.new) (K.held sink.old)
        (K.held sink.new) result }
    ensures safe { result ≡ Status.Done → RunsSafelyOf H.meaning (S.left source.old) }
    ensures reads { ReadsTo (S.fault_count source.old) (S.fault_count source.new) result }
    ensures writes { CountsWhere (K.fault_count sink.old) (K.fault_count sink.new)
        (result ≡ Status.WriteFault) }
{
    match replay::<H, S, K>(alloc, source, sink) {
        Ok(()) => Status::Done,
        Err(ReplayError::Malformed { .. }) => Status::Malformed,
        Err(ReplayError::ReadFault) => Status::ReadFault,
        Err(ReplayError::WriteFault) => Status::WriteFault,
        Err(ReplayError::NoMemory) => Status::NoMemory,
    }
}

fn run_gen<H: Host, K: Sink>(alloc: Global, number: u64, count: u32, sink: &mut K) -> Status
    requires least { 1 ≤ count }
    requires limit { count ≤ 100000 }
    ensures ends { GenEnds H.meaning number count (K.held sink.old) (K.held sink.new) result }
    ensures writes { CountsWhere (K.fault_count sink.old) (K.fault_count sink.new)
        (result ≡ Status.WriteFault) }
{
    match generate::<H, K>(alloc, number, count, sink) {
        Ok(()) => Status::Done,
        Err(GenError::WriteFault) => Status::WriteFault,
        Err(GenError::NoMemory) => Status::NoMemory,
    }
}

#[tactic(auto, unfolding(crate::specs::Words::usage_line))]
fn usage_line(alloc: Global, program: &str) -> Result<Vec<u8>, NoMemory>
    ensures { IfOk result (λ line. line.items ≡ usage_line program.now) }
{
    let mut line = Vec::from_slice(alloc, b"usage: ")?;
    line.extend_from_slice(program.as_bytes())?;
    line.extend_from_slice(COMMANDS.as_bytes())?;
    Ok(line)
}

#[tactic(auto, using(crate::proofs::CommandLemmas::no_usage))]
fn write_usage<K: Sink>(alloc: Global, program: &str, sink: &mut K) -> Status
    ensures ends { UsageEnds program.now (K.held sink.old) (K.held sink.new) result }
    ensures writes { CountsWhere (K.fault_count sink.old) (K.fault_count sink.new)
        (result ≡ Status.WriteFault) }
{
    let Ok(line) = usage_line(alloc, program) else {
        return Status::NoMemory;
    };
    match write_all(sink, &line) {
        Ok(()) => Status::Usage,
        Err(WriteError::Failed) => Status::WriteFault,
        Err(WriteError::NoMemory) => Status::NoMemory,
    }
}

/// Carries out a command.
#[tactic(auto, using(crate::proofs::RunLemmas::reads_none))]
fn carry_out<H: Host, S: Source, K: Sink, P: Ports, C: Clock>(
    alloc: Global,
    command: Command,
    source: &mut S,
    sink: &mut K,
    ports: &mut P,
    clock: &mut C,
) -> Status
    requires { IsFit command }
    ensures replay { command ≡ Command.Replay → ReplayEnds H.meaning (S.left source.old)
        (S.left source.new) (K.held sink.old) (K.held sink.new) result }
    ensures safe { command ≡ Command.Replay → result ≡ Status.Done →
        RunsSafelyOf H.meaning (S.left source.old) }
    ensures check { command ≡ Command.Check → CheckEnds H.meaning (S.left source.old)
        (S.left source.new) (K.held sink.old) (K.held sink.new) result }
    ensures audit { command ≡ Command.Audit → AuditEnds H.meaning (S.left source.old)
        (S.left source.new) (K.held sink.old) (K.held sink.new) result }
    ensures audited { command ≡ Command.Audit → PassesTrace H.meaning (S.left source.old) result }
    ensures ends { Runs H.meaning (Some command) (devices
        (source_of S.Source source.old source.new) (sink_of K.Sink sink.old sink.new)
        (ports_of P.Ports ports.old ports.new) (links_of P.L.Link) (C.values clock.old)) result }
    ensures unread { reads (Some command) ≡ false → source.new ≡ source.old }
    ensures ports { uses_ports (Some command) ≡ false → ports.new ≡ ports.old }
    ensures clock { uses_ports (Some command) ≡ false → clock.new ≡ clock.old }
{
    match command {
        Command::Replay => run_replay::<H, S, K>(alloc, source, sink),
        Command::Gen(number, count) => run_gen::<H, K>(alloc, number, count, sink),
        Command::Node(id, site) => run_replica::<H, P, C, K>(alloc, id, &site, ports, clock, sink),
        Command::Sequencer(id, site) => run_sequencer(alloc, id, &site, ports, clock, sink),
        Command::Controller(site, number, install) => {
            run_controller(alloc, &site, number, install, ports, clock, sink)
        }
        Command::Client(id, site, ops) => run_client(alloc, id, &site, ops, ports, clock, sink),
        Command::Cluster(site, ops) => {
            run_cluster::<H, P, C, K>(alloc, &site, ops, ports, clock, sink)
        }
        Command::Check => run_check::<H, S, K>(alloc, source, sink),
        Command::Audit => run_audit::<H, S, K>(alloc, source, sink),
        Command::Observer(id, site) => {
            run_observer::<H, P, C, K>(alloc, id, &site, ports, clock, sink)
        }
        Command::Read(id, site, observer, key, least) => {
            run_read(alloc, id, &site, observer, key, least, ports, clock, sink)
        }
    }
}

/// Carries out the command that the words name, over a service of this type; the first word is the
/// name by which the program was called. Words that are not taken are answered by the usage line of
/// a program with this name.
#[tactic(auto, using(crate::proofs::RunLemmas::reads_none))]
pub fn run<H: Host, S: Source, K: Sink, P: Ports, C: Clock>(
    alloc: Global,
    program: &str,
    words: &[String],
    source: &mut S,
    sink: &mut K,
    ports: &mut P,
    clock: &mut C,
) -> Status
    ensures replay { asked words.now ≡ Some Command.Replay →
        ReplayEnds H.meaning (S.left source.old) (S.left source.new) (K.held sink.old)
        (K.held sink.new) result }
    ensures safe { asked words.now ≡ Some Command.Replay → result ≡ Status.Done →
        RunsSafelyOf H.meaning (S.left source.old) }
    ensures check { asked words.now ≡ Some Command.Check → CheckEnds H.meaning (S.left source.old)
        (S.left source.new) (K.held sink.old) (K.held sink.new) result }
    ensures audit { asked words.now ≡ Some Command.Audit → AuditEnds H.meaning (S.left source.old)
        (S.left source.new) (K.held sink.old) (K.held sink.new) result }
    ensures audited { asked words.now ≡ Some Command.Audit → PassesTrace H.meaning
        (S.left source.old) result }
    ensures usage { ¬ Taken words.now → UsageEnds program.now (K.held sink.old) (K.held sink.new)
        result }
    ensures ends { Runs H.meaning (asked words.now) (devices
        (source_of S.Source source.old source.new) (sink_of K.Sink sink.old sink.new)
        (ports_of P.Ports ports.old ports.new) (links_of P.L.Link) (C.values clock.old)) result }
    ensures complete { Completes (asked words.now) (devices
        (source_of S.Source source.old source.new) (sink_of K.Sink sink.old sink.new)
        (ports_of P.Ports ports.old ports.new) (links_of P.L.Link) (C.values clock.old)) result }
    ensures unread { reads (asked words.now) ≡ false → source.new ≡ source.old }
    ensures ports { uses_ports (asked words.now) ≡ false → ports.new ≡ ports.old }
    ensures clock { uses_ports (asked words.now) ≡ false → clock.new ≡ clock.old }
{
    match read_words(alloc, words) {
        Ok(Some(command)) => carry_out::<H, S, K, P, C>(alloc, command, source, sink, ports, clock),
        Ok(None) => write_usage(alloc, program, sink),
        Err(NoMemory) => Status::NoMemory,
    }
}
