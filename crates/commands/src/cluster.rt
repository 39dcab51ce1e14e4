//! The command that runs all actors in one process.

ghost use Rattle.std.specs.Prelude.{◌≡◌, ◌≤◌, ◌+◌, length, IsTrue};
ghost use Rattle.command_line.specs.declared.options.TheConstants.{MAX_CLUSTER_TURNS};
ghost use Rattle.nop_types.specs.Headers.{gives};
ghost use Rattle.outside.specs.Causes.{CountsWhere};
ghost use Rattle.commands.specs.Clusters.{ClusterEnds};
ghost use Rattle.one_box.specs.Showing.{links_of};
ghost use Rattle.commands.specs.Nodes.{ports_of};

use crate::status::Status;
use command_line::{Ops, Site};
use nop_types::Host;
use one_box::{ClusterError, serve_all};
use outside::{Clock, Ports, Sink};
use std::alloc::Global;

pub(crate) fn run_cluster<H: Host, P: Ports, T: Clock, K: Sink>(
    alloc: Global,
    site: &Site,
    ops: Ops,
    ports: &mut P,
    clock: &mut T,
    sink: &mut K,
) -> Status
    requires form { IsTrue (gives 1 site.now.config) }
    requires turns { site.now.turns ≤ MAX_CLUSTER_TURNS }
    ensures ends { ClusterEnds H.meaning site.now ops
        (links_of P.L.Link) (ports_of P.Ports ports.old ports.new) (T.values clock.old)
        result (K.held sink.old) (K.held sink.new) }
    ensures back { P.attached ports.new + length (P.detached ports.old)
        ≡ P.attached ports.old + length (P.detached ports.new) }
    ensures attaches { ¬ (result ≡ Status.LinkFault)
        → P.fault_count ports.new ≡ P.fault_count ports.old }
    ensures writes { CountsWhere (K.fault_count sink.old) (K.fault_count sink.new)
        (result ≡ Status.WriteFault) }
{
    let ops = ops.into_vec();
    let base = site.base;
    match serve_all::<H, P, T, K>(
        alloc,
        site.config,
        &ops,
        base,
        site.turns,
        ports,
        clock,
        sink,
    ) {
        Ok(boxed) => {
            if boxed.done {
                Status::Done
            } else {
                Status::Unanswered
            }
        }
        Err(ClusterError::LinkFault) => Status::LinkFault,
        Err(ClusterError::WriteFault) => Status::WriteFault,
        Err(ClusterError::NoMemory) => Status::NoMemory,
    }
}
