ghost use Rattle.std.specs.Prelude.{◌≡◌, ◌≤◌, ◌+◌, ◌*◌, ◌⊎◌, [], length, IsTrue, IsErrOf, OnOk};
ghost use Rattle.nop_types.specs.Headers.{gives};
ghost use Rattle.outside.specs.Causes.{CountsFor, Rose};
ghost use Rattle.one_box.specs.Attaching.{HasRoom, Holds};
ghost use Rattle.one_box.specs.Boxing.{error_of, EndsWith, IsNoRun, PollFailed, RunsOr};
ghost use Rattle.one_box.specs.ClusterRun.{opening_course};
ghost use Rattle.one_box.specs.Counting.{turn_in};
ghost use Rattle.one_box.specs.Showing.{course_of, links_of};
ghost use Rattle.one_box.specs.declared.errors.ClusterError.TheVariants as errors;
ghost use Rattle.outside.specs.declared.errors.DeviceError.TheVariants as devices;

use crate::attaching::{actors_of, attach_all, detach_all, lost_by};
use crate::boxed::Boxed;
use crate::course::Course;
use crate::errors::ClusterError;
use crate::node::BoxActor;
use crate::serving::{Taken, take_turns};
use crate::writing::write_run;
use nop_types::{Config, Host, NoMemory, Op};
use outside::{Clock, LinkError, Ports, Sink};
use std::alloc::Global;
use udp_node::BasePort;

/// Attaches a link for each actor, and takes the turns.
fn run_turns<H: Host, P: Ports, C: Clock>(
    alloc: Global,
    config: Config,
    ops: &[Op],
    base: BasePort,
    turns: u64,
    course: &mut Course<H>,
    nodes: &mut Vec<BoxActor<P::L>>,
    ports: &mut P,
    clock: &mut C,
) -> Result<Taken, LinkError>
    requires empty { nodes.old.items ≡ [] }
    requires opens { course_of course.old ≡ opening_course config }
    ensures runs { RunsOr H.meaning (links_of P.L.Link)
        config ops.now base turns (P.to_come ports.old) (C.values clock.old)
        (P.fault_count ports.old) (P.fault_count ports.new)
        (P.detached ports.old) (P.detached ports.new) result (course_of course.new)
        nodes.new.items }
    ensures few { OnOk result (length course.new.events.items ≤ turns * turn_in config) }
    ensures holds { Holds (P.attached ports.old) (P.detached ports.old) (P.attached ports.new)
        (P.detached ports.new) nodes.new.items }
    ensures room { HasRoom (P.attached ports.new) (P.detached ports.new) nodes.new.items }
    ensures attaches { ¬ IsErrOf result devices.Failed
        → P.fault_count ports.new ≡ P.fault_count ports.old }
{
    let Ok(actors) = actors_of(alloc, config) else {
        return Err(LinkError::NoMemory);
    };
    let now = clock.now();
    let attached = attach_all(
        alloc,
        &course.world,
        base,
        config,
        &actors,
        now,
        ports,
        nodes,
    );
    match attached {
        Ok(()) => take_turns(course, nodes, ops, turns, now, clock),
        Err(e) => Err(e),
    }
}

/// A port that has no link and a poll that failed are told alike.
fn error_of(error: LinkError) -> ClusterError
    ensures { result ≡ error_of error }
{
    match error {
        LinkError::Failed => ClusterError::LinkFault,
        LinkError::NoMemory => ClusterError::NoMemory,
    }
}

/// Serves all actors of a configuration in one process, its replicas with hosts of this type, each
/// actor over a link of its own at its port, for at most `turns` turns and until all ops are
/// accepted; the ops go to the clients in turn. At the end it writes the schedule of the events that
/// happened, its transcript, and a last line; before that it writes nothing. The first lines of
/// schedule and transcript are of form 1, so there is one controller.
pub fn serve_all<H: Host, P: Ports, C: Clock, K: Sink>(
    alloc: Global,
    config: Config,
    ops: &[Op],
    base: BasePort,
    turns: u64,
    ports: &mut P,
    clock: &mut C,
    sink: &mut K,
) -> Result<Boxed, ClusterError>
    requires form { IsTrue (gives 1 config) }
    ensures ends { EndsWith H.meaning (links_of P.L.Link)
        config ops.now base turns (P.to_come ports.old) (C.values clock.old)
        (P.detached ports.old) (P.detached ports.new) result (K.held sink.old) (K.held sink.new) }
    ensures back { P.attached ports.new + length (P.detached ports.old)
        ≡ P.attached ports.old + length (P.detached ports.new) }
    ensures attaches { ¬ IsErrOf result errors.LinkFault
        → P.fault_count ports.new ≡ P.fault_count ports.old }
    ensures link { IsErrOf result errors.LinkFault
        → Rose (P.fault_count ports.old) (P.fault_count ports.new) ⊎ PollFailed (links_of P.L.Link)
        (P.detached ports.old) (P.detached ports.new) }
    ensures none { IsErrOf result errors.LinkFault
        → Rose (P.fault_count ports.old) (P.fault_count ports.new) ⊎ IsNoRun H.meaning config
        ops.now base turns (P.to_come ports.old) (C.values clock.old) }
    ensures writes { CountsFor (K.fault_count sink.old) (K.fault_count sink.new)
        errors.WriteFault result }
{
    // for the limits of a configuration
    let _ = config.replicas();
    let Ok(mut course) = Course::<H>::new(alloc, config) else {
        return Err(ClusterError::NoMemory);
    };
    let mut nodes = Vec::new(alloc);
    let ran = run_turns(
        alloc,
        config,
        ops,
        base,
        turns,
        &mut course,
        &mut nodes,
        ports,
        clock,
    );
    let lost = lost_by(&nodes);
    detach_all(ports, nodes);
    match ran {
        Ok(taken) => write_run(alloc, config, &course, taken, lost, sink),
        Err(e) => Err(error_of(e)),
    }
}
