ghost use Rattle.std.specs.Prelude.{◌≡◌, ◌≤◌, ◌+◌, ◌-◌, ◌^◌, min, length, false, option_map, IfOk, OnOk};
ghost use Rattle.nop_types.specs.Given.{given};
ghost use Rattle.outside.specs.Causes.{CountsFor};
ghost use Rattle.udp_node.specs.Effects.{step_effects, WroteText};
ghost use Rattle.udp_node.specs.NodeRun.{first_inputs, ServesAfter};
ghost use Rattle.udp_node.specs.Nodes.{CountsTurns, Faults, Same, TakesTurns};
ghost use Rattle.udp_node.specs.Folding.{TookSome};
ghost use Rattle.udp_node.specs.Sends.{side_of};
ghost use Rattle.udp_node.specs.declared.errors.ServeError.TheVariants as errors;

use crate::Address;
use crate::errors::ServeError;
use crate::firing::first_timers;
use crate::node::Node;
use crate::turn::error_of;
use nop_types::{Core, Input};
use outside::{Clock, Link, Sink};
use std::alloc::Global;

/// How a run ended: the turns taken, the datagrams that could not be sent (up to 2^64 - 1), and whether the core was done.
#[derive(Clone, Copy, PartialEq, Eq)]
pub struct Served {
    pub turns: u64,
    pub lost: u64,
    pub done: bool,
}

impl<C: Core, L: Link, W: Sink> Node<'_, '_, '_, C, L, W> {
    /// The turns of a run.
    fn take_turns<K: Clock>(&mut self, clock: &mut K, turns: u64) -> Result<Served, ServeError>
        requires { length C.timers ≤ 255 }
        ensures turns { TakesTurns C.Core L.Link W.Sink self.old self.new turns
            (K.values clock.old) result }
        ensures counts { CountsTurns C.Core self.new turns result }
        ensures faults { Faults L.Link W.Sink self.old self.new result }
        ensures same { Same L.Link self.old self.new }
    {
        let mut now = clock.now();
        let Ok(mut timers) = first_timers(self.alloc, self.core, now) else {
            return Err(ServeError::NoMemory);
        };
        let mut taken = 0;
        while taken < turns {
            if let Err(e) = self.take_turn(&mut timers, now) {
                return Err(e);
            }
            taken += 1;
            if self.core.done() {
                return Ok(Served {
                    turns: taken,
                    lost: self.lost,
                    done: true,
                });
            }
            now = now.max(clock.now());
        }
        Ok(Served {
            turns: taken,
            lost: self.lost,
            done: self.core.done(),
        })
    }
}

/// Serves a core for at most `turns` turns, and until it is done. Where a first input is given, the core takes it
/// before all turns, and its outputs come first. A poll or a write that fails ends it, a send that fails is
/// counted. With `trace` it writes what each step takes and gives in place of its other lines, all of a step
/// before its first send.
pub fn serve<C: Core, L: Link, K: Clock, W: Sink>(
    alloc: Global,
    core: &mut C,
    at: Address,
    first: Option<Input<'_>>,
    link: &mut L,
    clock: &mut K,
    turns: u64,
    sink: &mut W,
    trace: bool,
) -> Result<Served, ServeError>
    requires timers { length C.timers ≤ 255 }
    ensures run { ServesAfter C.next C.is_done
        (first_inputs (option_map given first.entry)) C.timers (step_effects trace at) turns
        (C.state core.old)
        (L.answers link.old) (K.values clock.old) result
        (side_of L.Link link.old 0) (side_of L.Link link.new 0)
        (W.held sink.old) (W.held sink.new) }
    ensures turns { IfOk result (λ served. served.turns ≤ turns) }
    ensures done { IfOk result (λ served. served.done ≡ C.is_done (C.state core.new)) }
    ensures spent { IfOk result (λ served. served.done ≡ false → served.turns ≡ turns) }
    ensures took { OnOk result (TookSome C.next (step_effects trace at)
        (first_inputs (option_map given first.entry))
        (C.state core.old) (C.state core.new) (W.held sink.old) (W.held sink.new)) }
    ensures wrote { WroteText (W.held sink.old) (W.held sink.new) }
    ensures lost { IfOk result (λ served.
        min (L.loss_count link.old + served.lost) (2 ^ 64 - 1) ≤ L.loss_count link.new) }
    ensures port { L.own_port link.new ≡ L.own_port link.old }
    ensures polls { CountsFor (L.fault_count link.old) (L.fault_count link.new)
        errors.LinkFault result }
    ensures writes { CountsFor (W.fault_count sink.old) (W.fault_count sink.new)
        errors.WriteFault result }
{
    let mut node = Node {
        alloc,
        core,
        at,
        trace,
        link,
        sink,
        lost: 0,
    };
    match node.take_first(first) {
        Ok(()) => node.take_turns(clock, turns),
        Err(e) => Err(error_of(e)),
    }
}
