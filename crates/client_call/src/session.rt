ghost use Rattle.std.specs.Prelude.{◌≡◌, ◌+◌, ◌++◌, ◌∷◌, ◌<◌, [], length, IfOk, OnOk, OnErr};
ghost use Rattle.std.specs.Prelude.{false, None};
ghost use Rattle.outside.specs.Causes.{CountsFor};
ghost use Rattle.udp_node.specs.Ports.{port_of};
ghost use Rattle.udp_node.specs.Sends.{side};
ghost use Rattle.client_call.specs.declared.errors.CallError.TheVariants as errors;
ghost use Rattle.client_call.specs.Sessions as sessions;
ghost use Rattle.client_call.specs.Sessions.{AnswersOp, GoesOn, HasNoneOpen, IsGiven, TakesOp};
ghost use Rattle.client_call.specs.Sessions.{address_in};
ghost use Rattle.client_call.specs.Sessions.{ended_after};

use crate::CallError;
use crate::call::Service;
use crate::session_core::SessionCore;
use crate::submitting::{address_in, submit_over};
use nop_types::{Accept, Op};
use outside::{AttachError, Clock, Link, Ports};
use std::alloc::Global;
use udp_node::BasePort;

/// A client of a service with a link at its own port, which submits one op after another. It is
/// given back by `close_session`.
pub struct Session<L> {
    alloc: Global,
    base: BasePort,
    core: SessionCore,
    link: L,
    ended: Option<CallError>,
}

/// Opens a session of a service. The client's number is one that was never used before.
pub fn open_session<P: Ports>(
    alloc: Global,
    service: &Service,
    number: u32,
    ports: &mut P,
) -> Result<Session<P::L>, CallError>
    ensures opens { IfOk result (λ s. s.core
        ≡ record { failed = false; state = sessions.opening service.now.config number }) }
    ensures base { IfOk result (λ s. s.base ≡ service.now.base) }
    ensures ended { IfOk result (λ s. s.ended ≡ None) }

    // The link is the next one of the ports, at the client's port, and no call was made on it.
    ensures link { IfOk result (λ s. IsGiven P.L.Link (P.to_come ports.old) (P.to_come ports.new)
        (port_of service.now.base (address_in service.now.base
        (sessions.opening service.now.config number)).own) s.link) }

    ensures attaches { CountsFor (P.fault_count ports.old) (P.fault_count ports.new)
        errors.PortFault result }
    ensures attached { OnOk result (P.attached ports.new ≡ P.attached ports.old + 1) }
    ensures room { OnOk result (length (P.detached ports.new) < P.attached ports.new) }
    ensures unattached { OnErr result (P.attached ports.new ≡ P.attached ports.old) }
    ensures detached { P.detached ports.new ≡ P.detached ports.old }
{
    let core = SessionCore::new(alloc, service.config, number)?;
    let at = address_in(service.base, &core);
    match ports.attach(at.port_of(at.own)) {
        Ok(link) => Ok(Session {
            alloc,
            base: service.base,
            core,
            link,
            ended: None,
        }),
        Err(AttachError::Failed) => Err(CallError::PortFault),
        Err(AttachError::NoMemory) => Err(CallError::NoMemory),
    }
}

/// Ends a session: its link is given back. A request that is open may still be executed.
pub fn close_session<P: Ports>(session: Session<P::L>, ports: &mut P)
    requires { length (P.detached ports.old) < P.attached ports.old }
    ensures detached { P.detached ports.new ≡ P.detached ports.old ++ session.link ∷ [] }
    ensures attached { P.attached ports.new ≡ P.attached ports.old }
    ensures faults { P.fault_count ports.new ≡ P.fault_count ports.old }
{
    let Session {
        alloc: _alloc,
        base: _base,
        core: _core,
        link,
        ended: _ended,
    } = session;
    ports.detach(link);
}

impl<L: Link> Session<L> {
    /// The id of the last request, 0 where there is none: the n-th op that was submitted is request
    /// n.
    pub fn last_id(&self) -> u64
        ensures { result ≡ sessions.last_id self.now.core.state }
    {
        self.core.last_id()
    }

    /// Whether the next op becomes a request: fewer than eight are open, each less than eight ids
    /// behind it.
    pub fn can_submit(&self) -> bool
        ensures { result ≡ sessions.can_submit self.now.core.state }
    {
        self.core.can_submit()
    }

    /// Has one op executed, and gives its result, with the slot from which on the service has
    /// executed it. Waits for at most `turns` turns, of about a millisecond each over sockets.
    ///
    /// After `Unanswered` the request stays open: it is sent again in the turns of further ops,
    /// beside theirs, and may be executed before or after them. Where no further request can be
    /// opened beside it (`can_submit`), the op is not submitted; the call takes its turns for the
    /// open ones, and is `Unanswered`. After `LinkFault` and `NoMemory` the session has ended:
    /// further ops are answered with that error.
    pub fn submit<C: Clock>(
        &mut self,
        op: &Op,
        turns: u64,
        clock: &mut C,
    ) -> Result<Accept, CallError>
        // At Ok replicas replied to the request of the next id, which has this op, with the result
        // at the slot.
        ensures answers { AnswersOp self.old.core.state op.now result }

        // At Ok the op was submitted, and at Unanswered where there was room for it, where it is
        // not accepted; no other op was.
        ensures goes_on { self.old.ended ≡ None
            → GoesOn self.old.core.state self.new.core.state op.now result }

        // After answers alone no request is open.
        ensures none_open { OnOk result (HasNoneOpen self.old.core.state
            → HasNoneOpen self.new.core.state) }

        // One that has ended answers why, and does nothing else.
        ensures ended { self.new.ended ≡ ended_after self.old.ended result }

        // Over an observable link and clock it is what the run of the client over them gives.
        ensures over { TakesOp self.old.ended (address_in self.old.base self.old.core.state)
            self.old.core.state op.now turns (L.answers self.old.link) (C.values clock.old) result
            (side (L.trace self.old.link) 0 (L.loss_count self.old.link))
            (side (L.trace self.new.link) 0 (L.loss_count self.new.link)) }
        ensures polls { self.old.ended ≡ None → CountsFor (L.fault_count self.old.link)
            (L.fault_count self.new.link) errors.LinkFault result }
        ensures port { L.own_port self.new.link ≡ L.own_port self.old.link }
        ensures base { self.new.base ≡ self.old.base }
    {
        if let Some(e) = self.ended {
            return Err(e);
        }
        let result = submit_over(
            self.alloc,
            &mut self.core,
            self.base,
            op,
            turns,
            &mut self.link,
            clock,
        );
        self.ended = ended_by(&result);
        result
    }
}

/// The error that ends a session.
fn ended_by(answer: &Result<Accept, CallError>) -> Option<CallError>
    ensures { result ≡ sessions.ended_by answer.now }
{
    match answer {
        Ok(_) | Err(CallError::Unanswered) => None,
        Err(e) => Some(*e),
    }
}
