//! One op of a session, over its link.

ghost use Rattle.std.specs.Prelude.{◌≡◌, OnOk};
ghost use Rattle.outside.specs.Causes.{CountsFor};
ghost use Rattle.udp_node.specs.Sends.{side};
ghost use Rattle.client_call.specs.Sessions.{AnswersOp, GoesOn, HasNoneOpen, TakesTurns};
ghost use Rattle.client_call.specs.Sessions.{address_in};
ghost use Rattle.client_call.specs.declared.errors.CallError.TheVariants as errors;

use crate::CallError;
use crate::call::error_of;
use crate::session_core::SessionCore;
use nop_types::{Accept, Actor, Op};
use outside::{Clock, Link, WriteMem};
use std::alloc::Global;
use udp_node::{Address, BasePort, serve};

/// Where the client of a session is.
pub(crate) fn address_in(base: BasePort, core: &SessionCore) -> Address
    ensures { result ≡ address_in base core.now.state }
{
    Address {
        base,
        own: Actor::Client(core.number()),
        config: core.config(),
    }
}

/// Submits the op, where there is room for its request, and takes at most `turns` turns, until it
/// is accepted.
pub(crate) fn submit_over<L: Link, C: Clock>(
    alloc: Global,
    core: &mut SessionCore,
    base: BasePort,
    op: &Op,
    turns: u64,
    link: &mut L,
    clock: &mut C,
) -> Result<Accept, CallError>
    ensures answers { AnswersOp core.old.state op.now result }
    ensures goes_on { GoesOn core.old.state core.new.state op.now result }
    ensures none_open { OnOk result (HasNoneOpen core.old.state → HasNoneOpen core.new.state) }
    ensures over { TakesTurns (address_in base core.old.state) core.old.state op.now turns
        (L.answers link.old) (C.values clock.old) result
        (side (L.trace link.old) 0 (L.loss_count link.old))
        (side (L.trace link.new) 0 (L.loss_count link.new)) }
    ensures polls { CountsFor (L.fault_count link.old) (L.fault_count link.new)
        errors.LinkFault result }
    ensures port { L.own_port link.new ≡ L.own_port link.old }
{
    if core.has_failed() {
        return Err(CallError::NoMemory);
    }
    core.await_next();
    let first = core.first_of(op);
    let at = address_in(base, core);
    let mut sink = WriteMem::new(alloc);
    match serve(alloc, core, at, first, link, clock, turns, &mut sink, false) {
        Ok(_served) => core.accepted(),
        Err(e) => Err(error_of(e)),
    }
}
