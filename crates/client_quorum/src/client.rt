ghost use Rattle.std.specs.Prelude.{◌≡◌, ◌++◌, false, IfOk, OnOk};
ghost use Rattle.std.specs.Option.{option_copied};
ghost use Rattle.nop_types.specs.Given.{given};
ghost use Rattle.client_quorum.specs.ClientSteps.{IsWithin, can_submit};
ghost use Rattle.client_quorum.specs.Opens.{accepted_in};
ghost use Rattle.client_quorum.specs.Core.{next, opening, timers, is_done};

use crate::rows::{act, can_submit};
use crate::{ClientState, OpenList, Recent, Waiting};
use client_reads::ClientReads;
use nop_types::{Accept, Config, Core, Input, NoMemory, Op, Outbox, Tick, end_step};
use std::alloc::Global;
use std::marker::Model;

/// A client: up to eight requests are open at a time, each is accepted at f + 1 matching replies with the leader's, and one read waits.
pub struct Client {
    alloc: Global,
    failed: bool,
    pub(crate) requests: ClientState,
    reads: ClientReads,
}

// By hand, so that a crate with a client proves nothing on how its parts are dropped.
impl Drop for Client {
    fn drop(self) {
        let Client {
            alloc: _alloc,
            failed: _failed,
            requests: _requests,
            reads: _reads,
        } = self;
    }
}

impl Model for Client {
    ghost use Rattle.std.specs.Coded.{codes};
    ghost use Rattle.nop_types.specs.Machine.{Machine};
    ghost use Rattle.client_quorum.specs.contracts.state.ClientState as known;
    ghost use Rattle.client_quorum.specs.Code.{reads_code};
    ghost use Rattle.client_quorum.specs.Core as core;

    ghost Value = { Machine core.Client };

    ghost coded = { Prim.hlevel (codes, known.the_row.coded, reads_code) };

    ghost view = { λ c. record {
      failed = c.failed;
      state = record { requests = c.requests; reads = c.reads };
    } };
}

impl Client {
    /// A client that submits these ops in turn, one at each tick Next at which there is room.
    pub fn new(alloc: Global, config: Config, number: u32, ops: Vec<Op>) -> Result<Client, NoMemory>
        ensures { IfOk result (λ c.
            c ≡ record { failed = false; state = opening config number ops.items }) }
    {
        Ok(Client {
            alloc,
            failed: false,
            requests: ClientState {
                config,
                number,
                last_id: 0,
                open_: OpenList::new(alloc),
                recent: Recent::new(alloc),
                waiting: Waiting::from_vec(ops),
            },
            reads: ClientReads::new(number),
        })
    }

    /// The requests act, and then the reads; where memory runs out, they may be anything.
    fn act(&mut self, input: Input<'_>, out: &mut Outbox) -> Result<(), NoMemory>
        ensures state { OnOk result (self.new.state
            ≡ (next self.old.state (given input.entry)).0) }
        ensures out { OnOk result (out.new
            ≡ out.old ++ (next self.old.state (given input.entry)).1) }
        ensures well { self.new.failed ≡ self.old.failed }
    {
        act(self.alloc, &mut self.requests, input, out)?;
        self.reads.step(self.alloc, input, out)
    }

    /// The acceptance of an id: None exactly where it is none of the last eight that were submitted, or is not accepted.
    pub fn accepted(&self, id: u64) -> Option<&Accept>
        ensures { option_copied result ≡ accepted_in self.now.state.requests.recent id }
    {
        self.requests.recent.accepted(id)
    }

    /// What the client knows of its requests. Whatever came, it is within the limits.
    pub fn state(&self) -> &ClientState
        ensures value { result.now ≡ self.now.state.requests }
        ensures within { IsWithin self.now.state.requests }
    {
        let _last = self.requests.last_id;
        let _open = self.requests.open_.as_slice();
        let _recent = self.requests.recent.as_slice();
        &self.requests
    }

    /// Whether an op that is submitted now becomes a request of the client: there is room for it, and an id is left.
    pub fn can_submit(&self) -> bool
        ensures { result ≡ can_submit self.now.state.requests }
    {
        can_submit(&self.requests)
    }
}

impl Core for Client {
    ghost use Rattle.client_quorum.specs.Core as core;
    ghost use Rattle.client_quorum.specs.Core.{next, timers, is_done};

    ghost State = { core.Client };

    ghost state = { λ c. c.state };

    ghost has_failed = { λ c. c.failed };

    ghost next = { next };

    ghost timers = { timers };

    ghost is_done = { is_done };

    fn step(&mut self, input: Input<'_>, out: &mut Outbox) -> Result<(), NoMemory> {
        if self.failed {
            return Err(NoMemory);
        }
        let mut made = Outbox::new(self.alloc);
        let acted = self.act(input, &mut made);
        end_step(acted, made, out, &mut self.failed)
    }

    fn timer(&self, i: u8) -> Option<(Tick, u64)> {
        if i == 0 {
            return Some((Tick::Next, 0));
        }
        if i == 1 {
            return Some((Tick::Retry, 200));
        }
        None
    }

    #[tactic(auto, unfolding(crate::specs::OpenRequests::open_requests), using(crate::proofs::Opens::empty_requests))]
    fn done(&self) -> bool {
        self.requests.open_.is_empty() && self.requests.waiting.is_empty() && self.reads.is_done()
    }
}
