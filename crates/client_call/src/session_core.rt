//! The client of a session, as a core.

ghost use Rattle.std.specs.Prelude.{◌≡◌, false, IfOk, option_map};
ghost use Rattle.nop_types.specs.Given.{given};
ghost use Rattle.client_call.specs.Calls.{GivesAccepted};
ghost use Rattle.client_call.specs.Sessions.{IsRun, acceptance, awaiting, can_submit, first_of};
ghost use Rattle.client_call.specs.Sessions.{last_id, next, opening};

use crate::CallError;
use crate::call::accepted;
use client_quorum::Client;
use nop_types::{Accept, Config, Core, Input, NoMemory, Op, Outbox, Tick};
use std::alloc::Global;
use std::marker::Model;

/// A client without ops of its own, which is done once the request of an awaited id is accepted.
pub struct SessionCore {
    failed: bool,
    config: Config,
    number: u32,
    client: Client,
    awaited: Option<u64>,
}

// By hand, so that a crate with one proves nothing on how its parts are dropped.
impl Drop for SessionCore {
    fn drop(self) {
        let SessionCore {
            failed: _failed,
            config: _config,
            number: _number,
            client: _client,
            awaited: _awaited,
        } = self;
    }
}

impl Model for SessionCore {
    ghost use Rattle.std.specs.Prelude.{◌≡◌, false};
    ghost use Rattle.std.specs.Coded.{codes};
    ghost use Rattle.nop_types.specs.Machine.{Machine};
    ghost use Rattle.client_quorum.specs.Code.{reads_code};
    ghost use Rattle.client_call.specs.Code.{requests_code};
    ghost use Rattle.client_call.specs.Sessions.{IsRun, SessionState};

    ghost Value = { Machine SessionState };

    ghost coded = { Prim.hlevel (codes, requests_code, reads_code) };

    ghost view = { λ c. record {
      failed = c.failed;
      state = record {
        config = c.config;
        number = c.number;
        client = c.client.state;
        awaited = c.awaited;
      };
    } };

    ghost invariant = { λ c. c.failed ≡ false → IsRun c.config c.number c.client.state.requests };
}

impl SessionCore {
    pub(crate) fn new(alloc: Global, config: Config, number: u32) -> Result<SessionCore, NoMemory>
        ensures { IfOk result (λ c.
            c ≡ record { failed = false; state = opening config number }) }
    {
        Ok(SessionCore {
            failed: false,
            config,
            number,
            client: Client::new(alloc, config, number, Vec::new(alloc))?,
            awaited: None,
        })
    }

    /// Whether a step ran out of memory before.
    pub(crate) fn has_failed(&self) -> bool
        ensures failed { result ≡ self.now.failed }
        ensures run { result ≡ false → IsRun self.now.state.config self.now.state.number
            self.now.state.client.requests }
    {
        self.failed
    }

    pub(crate) fn config(&self) -> Config
        ensures { result ≡ self.now.state.config }
    {
        self.config
    }

    pub(crate) fn number(&self) -> u32
        ensures { result ≡ self.now.state.number }
    {
        self.number
    }

    /// The id of the last request, 0 where there is none.
    pub(crate) fn last_id(&self) -> u64
        ensures { result ≡ last_id self.now.state }
    {
        self.client.state().last_id
    }

    /// Whether an op that is submitted now becomes a request.
    pub(crate) fn can_submit(&self) -> bool
        ensures { result ≡ can_submit self.now.state }
    {
        self.client.can_submit()
    }

    /// The id of the next request, where there is room for it.
    fn next_id(&self) -> Option<u64>
        ensures { result ≡ (awaiting self.now.state).awaited }
    {
        if self.client.can_submit() {
            self.client.state().last_id.checked_add(1)
        } else {
            None
        }
    }

    /// The next request is awaited, where there is room for it.
    pub(crate) fn await_next(&mut self)
        ensures { self.new ≡ record self.old { state = awaiting self.old.state } }
    {
        self.awaited = self.next_id();
    }

    /// The input of the op, where its request is awaited.
    pub(crate) fn first_of<'a>(&self, op: &'a Op) -> Option<Input<'a>>
        ensures { option_map given result ≡ first_of self.now.state.awaited op.now }
    {
        match self.awaited {
            Some(_) => Some(Input::Submit(op)),
            None => None,
        }
    }

    /// The acceptance of the awaited request.
    pub(crate) fn accepted(&self) -> Result<Accept, CallError>
        ensures { GivesAccepted (acceptance self.now.state) result }
    {
        match self.awaited {
            Some(id) => accepted(&self.client, id),
            None => Err(CallError::Unanswered),
        }
    }
}

impl Core for SessionCore {
    ghost use Rattle.client_call.specs.Sessions.{SessionState, next, timers, is_done};

    ghost State = { SessionState };

    ghost state = { λ c. c.state };

    ghost has_failed = { λ c. c.failed };

    ghost next = { next };

    ghost timers = { timers };

    ghost is_done = { is_done };

    fn step(&mut self, input: Input<'_>, out: &mut Outbox) -> Result<(), NoMemory> {
        if self.failed {
            return Err(NoMemory);
        }
        let stepped = self.client.step(input, out);
        self.failed = stepped.is_err();
        stepped
    }

    fn timer(&self, i: u8) -> Option<(Tick, u64)> {
        self.client.timer(i)
    }

    fn done(&self) -> bool {
        match self.awaited {
            Some(id) => self.client.accepted(id).is_some(),
            None => false,
        }
    }
}
