ghost use Rattle.std.specs.Prelude.{◌≡◌, ◌≤◌, ◌++◌, ◌∷◌, [], drop, length, All, IfOk, IfSome, OnOk, OnErr, IsErrOf};
ghost use Rattle.std.specs.Prelude.{Some, Ok, true, false};
ghost use Rattle.outside.specs.Causes.{count_after};
ghost use Rattle.outside.specs.Links.{Polls, TracesPoll, next_poll, poll_result};
ghost use Rattle.outside.specs.Observed.{Adds, Stays, StaysIfObserved};
ghost use Rattle.outside.specs.Memory.{MayAnswer, count_if};
ghost use Rattle.outside.specs.Plans.{new_plan, IsPlannedCall, plan_after_call};
ghost use Rattle.outside.specs.declared.errors.DeviceError.TheVariants as errors;
ghost use Rattle.outside.specs.declared.link.LinkCall.TheVariants as calls;
ghost use Rattle.outside.specs.declared.link.PollAnswer.TheVariants.{Failure};

use crate::{CallPlan, Failed, Failing, Link, LinkCall, LinkError, PollAnswer, Unfailing};
use nop_types::{Bytes, MAX_DATAGRAM_BYTES, NoMemory};
use std::alloc::Global;
use std::marker::Model;

/// A link in memory. Its polls answer what they were given, and after that there is no datagram; it keeps the calls that are
/// made. Its plan says which sends fail. Where calls never fail, no poll was given a failure either.
#[derive(Drop)]
pub struct LinkMem<P: CallPlan = Unfailing> {
    alloc: Global,
    port: u16,
    answers: Vec<PollAnswer>,
    at: usize,
    faults: u64,
    trace: Vec<LinkCall>,
    sends: P,
}

impl<P: CallPlan> Model for LinkMem<P> {
    ghost use Rattle.std.specs.Prelude.{◌≡◌, drop, length, ◌≤◌, All};
    ghost use Rattle.outside.specs.Memory.{LinkMemory, MayAnswer, count_if};

    ghost Value = { LinkMemory P };

    ghost view = { λ s. record {
      port = s.port;
      answers = drop s.at s.answers.items;
      faults = s.faults;
      trace = s.trace.items;
      sends = s.sends;
    } };

    ghost invariant = { λ s. (s.at ≤ length s.answers.items)
        × All (MayAnswer P.may_fail) s.answers.items
        × (count_if P.may_fail s.faults ≡ s.faults) };
}

impl LinkMem<Unfailing> {
    /// No datagram comes, and no send fails.
    pub fn new(alloc: Global, port: u16) -> LinkMem<Unfailing>
        ensures { result ≡ record {
          port = port;
          answers = [];
          faults = 0;
          trace = [];
          sends = usize.MAX;
        } }
    {
        LinkMem::with_answers(alloc, port, Vec::new(alloc))
    }

    /// The polls answer these in order, none of which is a failure, and no send fails.
    pub fn with_answers(alloc: Global, port: u16, answers: Vec<PollAnswer>) -> LinkMem<Unfailing>
        requires { All (MayAnswer false) answers.items }
        ensures { result ≡ record {
          port = port;
          answers = answers.items;
          faults = 0;
          trace = [];
          sends = usize.MAX;
        } }
    {
        LinkMem {
            alloc,
            port,
            answers,
            at: 0,
            faults: 0,
            trace: Vec::new(alloc),
            sends: Unfailing::new(usize::MAX),
        }
    }
}

impl LinkMem<Failing> {
    /// The polls answer these in order, and the sends with these numbers fail. Sends count from 1.
    pub fn with_faults(
        alloc: Global,
        port: u16,
        answers: Vec<PollAnswer>,
        failing: &[u64],
    ) -> Result<LinkMem<Failing>, NoMemory>
        requires { All (MayAnswer true) answers.items }
        ensures { IfOk result (λ l. l
            ≡ record {
              port = port;
              answers = answers.items;
              faults = 0;
              trace = [];
              sends = new_plan
                  usize.MAX failing.now;
            }) }
    {
        Ok(LinkMem {
            alloc,
            port,
            answers,
            at: 0,
            faults: 0,
            trace: Vec::new(alloc),
            sends: Failing::new(alloc, usize::MAX, failing)?,
        })
    }
}

impl<P: CallPlan> LinkMem<P> {
    /// No datagram comes, and no call fails.
    pub(crate) fn empty(alloc: Global, port: u16) -> Result<LinkMem<P>, NoMemory>
        ensures link { IfOk result (λ l. l
            ≡ record {
              port = port;
              answers = [];
              faults = 0;
              trace = [];
              sends = P.opening;
            }) }
        ensures count { IfOk result (λ l. P.fault_count l.sends ≡ 0) }
    {
        Ok(LinkMem {
            alloc,
            port,
            answers: Vec::new(alloc),
            at: 0,
            faults: 0,
            trace: Vec::new(alloc),
            sends: P::new_opening(alloc)?,
        })
    }

    /// The same link at another port.
    pub(crate) fn at_port(self, port: u16) -> LinkMem<P>
        ensures { result ≡ record self { port = port } }
    {
        LinkMem { port, ..self }
    }

    /// What the next poll gives.
    fn peek(&self) -> Result<Option<Bytes>, LinkError>
        ensures short { IfOk result (λ r. IfSome r (λ datagram. length datagram
            ≤ MAX_DATAGRAM_BYTES)) }
        ensures ok { IfOk result (λ r. poll_result (next_poll self.now.answers) ≡ Ok r) }
        ensures failed { IsErrOf result errors.Failed → next_poll self.now.answers ≡ Failure }
        ensures may_fail { IsErrOf result errors.Failed → P.may_fail ≡ true }
    {
        match self.answers.get(self.at) {
            None | Some(PollAnswer::Nothing) => Ok(None),
            Some(PollAnswer::Failure) => Err(LinkError::Failed),
            Some(PollAnswer::Received(datagram)) => Ok(Some(datagram.try_clone()?)),
        }
    }

    /// Lets the next poll have the answer after this one.
    fn pass(&mut self)
        ensures answers { self.new.answers ≡ drop 1 self.old.answers }
        ensures rest { self.new ≡ record self.old { answers = self.new.answers } }
    {
        if self.at < self.answers.len() {
            self.at += 1;
        }
    }

    /// Keeps a poll.
    fn keep_poll(&mut self) -> Result<(), NoMemory>
        ensures ok { OnOk result (self.new ≡ record self.old {
          trace = self.old.trace ++ calls.Polled ∷ [];
        }) }
        ensures err { OnErr result (self.new ≡ self.old) }
    {
        self.trace.push(LinkCall::Polled)?;
        Ok(())
    }

    /// Keeps what was sent.
    fn keep_sent(&mut self, port: u16, bytes: &[u8]) -> Result<(), NoMemory>
        ensures ok { OnOk result (self.new ≡ record self.old {
          trace = self.old.trace ++ calls.Sent port bytes.now ∷ [];
        }) }
        ensures err { OnErr result (self.new ≡ self.old) }
    {
        let bytes = Bytes::new(self.alloc, bytes)?;
        self.trace.push(LinkCall::Sent { port, bytes })?;
        Ok(())
    }

    /// The polls that were made and the datagrams that were sent, in order.
    pub fn trace(&self) -> &[LinkCall]
        ensures { result.now ≡ self.now.trace }
    {
        &self.trace
    }
}

impl<P: CallPlan> Link for LinkMem<P> {
    ghost use Rattle.std.specs.Prelude.{Some};
    ghost use Rattle.outside.specs.Memory.{count_if};

    ghost answers = { λ s. Some s.answers };

    ghost trace = { λ s. Some s.trace };

    ghost own_port = { λ s. s.port };

    ghost fault_count = { λ s. count_if P.may_fail s.faults };

    ghost loss_count = { λ s. P.fault_count s.sends };

    fn poll(&mut self) -> Result<Option<Bytes>, LinkError>
        ensures short { IfOk result (λ r. IfSome r (λ datagram. length datagram
            ≤ MAX_DATAGRAM_BYTES)) }
        ensures answer { Polls (Some self.old.answers) (Some self.new.answers) result }
        ensures trace { TracesPoll (Some self.old.trace) (Some self.new.trace) result }
        ensures later { count_if P.may_fail self.old.faults ≤ count_if P.may_fail self.new.faults }
        ensures count { count_if P.may_fail self.new.faults
            ≡ count_after result (count_if P.may_fail self.old.faults) }
        ensures losses { P.fault_count self.old.sends ≤ P.fault_count self.new.sends }
        ensures observed { StaysIfObserved (Some self.old.trace) (P.fault_count self.old.sends)
            (P.fault_count self.new.sends) }
        ensures port { self.new.port ≡ self.old.port }

        // The plan of the sends stays.
        ensures plan { self.new.sends ≡ self.old.sends }
    {
        match self.peek() {
            Ok(datagram) => {
                self.keep_poll()?;
                self.pass();
                Ok(datagram)
            }
            Err(LinkError::Failed) => {
                self.keep_poll()?;
                self.pass();
                self.faults = self.faults.saturating_add(1);
                Err(LinkError::Failed)
            }
            Err(LinkError::NoMemory) => Err(LinkError::NoMemory),
        }
    }

    fn send(&mut self, port: u16, bytes: &[u8]) -> Result<(), LinkError>
        ensures ok { OnOk result (Adds (Some self.old.trace) (Some self.new.trace)
            (calls.Sent port bytes.now)) }
        ensures err { OnErr result (Stays (Some self.old.trace) (Some self.new.trace)) }
        ensures later { P.fault_count self.old.sends ≤ P.fault_count self.new.sends }
        ensures count { P.fault_count self.new.sends
            ≡ count_after result (P.fault_count self.old.sends) }
        ensures faults { count_if P.may_fail self.new.faults ≡ count_if P.may_fail self.old.faults }
        ensures answers { Stays (Some self.old.answers) (Some self.new.answers) }
        ensures port { self.new.port ≡ self.old.port }

        // What the plan says, or that memory ran out: then the send does not count.
        ensures answer { IsPlannedCall (P.next_answer self.old.sends 0) result }
        ensures plan { self.new.sends ≡ plan_after_call result self.old.sends
            (P.after_call self.old.sends 0) }
    {
        let answer = self.sends.answer(0);
        if answer.is_ok() {
            self.keep_sent(port, bytes)?;
        }
        self.sends.advance(0);
        match answer {
            Ok(_) => Ok(()),
            Err(Failed) => Err(LinkError::Failed),
        }
    }

    fn port(&self) -> u16 {
        self.port
    }

    fn faults(&self) -> u64 {
        self.faults
    }

    fn losses(&self) -> u64 {
        self.sends.faults()
    }
}
