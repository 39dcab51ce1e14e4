//! The desk.

ghost use Rattle.std.specs.Prelude.{◌≡◌, ◌++◌, ◌≤◌, ◌+◌, ◌^◌, ◌⊎◌, true, false, Err, IfOk, OnOk, OnErr, IsErr};
ghost use Rattle.nop_types.specs.Given.{given};
ghost use Rattle.desk.specs.Desks.{filled, has_room, next, opening, queued, Comes, Leave, Take};
ghost use Rattle.desk.specs.declared.errors.DeskError.TheVariants as errors;

use crate::desk_state::{Cores, DeskState, fill};
use crate::errors::DeskError;
use crate::limits::MAX_WAITING;
use crate::queue::Queue;
use crate::submitter::{Labelled, Queued};
use nop_types::{Config, Input, NoMemory, Op};
use std::alloc::Global;
use std::marker::Model;

/// Client cores that submit the ops of many users. Once a step of a core ran out of memory, each later call answers NoMemory.
pub struct Desk {
    alloc: Global,
    failed: bool,
    state: DeskState,
}

// By hand, so that a crate with a desk proves nothing on how its parts are dropped.
impl Drop for Desk {
    fn drop(self) {
        let Desk {
            alloc: _alloc,
            failed: _failed,
            state: _state,
        } = self;
    }
}

impl Model for Desk {
    ghost use Rattle.std.specs.Coded.{codes};
    ghost use Rattle.nop_types.specs.Machine.{Machine};
    ghost use Rattle.desk.specs.contracts.desk_state.DeskState as known;
    ghost use Rattle.desk.specs.declared.desk_state.DeskState.{DeskState};

    ghost Value = { Machine DeskState };

    ghost coded = { Prim.hlevel (codes, known.the_row.coded) };

    ghost view = { λ d. record {
      failed = d.failed;
      state = d.state;
    } };
}

impl Desk {
    /// A desk with `count` cores, the first of which has the number `first`. None of these numbers was used before.
    pub fn new(alloc: Global, config: Config, first: u32, count: usize) -> Result<Desk, NoMemory>
        requires { first + count ≤ 2 ^ 32 }
        ensures { IfOk result (λ desk.
            desk ≡ record { failed = false; state = opening config first count }) }
    {
        Ok(Desk {
            alloc,
            failed: false,
            state: DeskState {
                cores: Cores::new(alloc, config, first, count)?,
                queue: Queue::new(alloc),
                taken: 0,
            },
        })
    }

    pub fn state(&self) -> &DeskState
        ensures { result.now ≡ self.now.state }
    {
        &self.state
    }

    fn has_room(&self) -> bool
        ensures { result ≡ has_room self.now.state }
    {
        self.state.queue.len() < MAX_WAITING && self.state.taken < u64::MAX
    }

    /// Ops that wait are submitted, as long as a core takes one.
    fn fill(&mut self, told: &mut Vec<Labelled>) -> Result<(), NoMemory>
        ensures state { OnOk result (self.new.state ≡ (filled self.old.state).0) }
        ensures told { OnOk result (told.new.items
            ≡ told.old.items ++ (filled self.old.state).1) }
        ensures well { OnOk result (self.new.failed ≡ self.old.failed) }
        ensures failed { OnErr result (self.new.failed ≡ true) }
    {
        let DeskState { cores, queue, .. } = &mut self.state;
        let done = fill(self.alloc, cores, queue, told);
        if done.is_err() {
            self.failed = true;
        }
        done
    }

    /// The op waits under a fresh ticket.
    #[tactic(auto, using(crate::proofs::Machines::same_desk))]
    fn queue(&mut self, op: Op) -> Result<u64, DeskError>
        ensures ticket { IfOk result (λ t. t ≡ self.old.state.taken) }
        ensures state { OnOk result (self.new.state ≡ queued self.old.state op) }
        ensures well { OnOk result (self.new.failed ≡ self.old.failed) }
        ensures room { OnOk result (has_room self.old.state ≡ true) }
        ensures full { result ≡ Err errors.Full → has_room self.old.state ≡ false }
        ensures err { OnErr result (self.new ≡ self.old) }
    {
        if !self.has_room() {
            return Err(DeskError::Full);
        }
        let ticket = self.state.taken;
        self.state.queue.push(Queued { ticket, op })?;
        self.state.taken = ticket + 1;
        Ok(ticket)
    }

    /// Takes an op of a user under a fresh ticket, which is one above the last one; and what the cores gave then. An answer for the ticket
    /// comes once, in a later step, unless the user leaves. After an error the desk is as it was, or has failed.
    pub fn take(&mut self, op: Op) -> Result<(u64, Vec<Labelled>), DeskError>
        ensures ticket { IfOk result (λ r. r.0 ≡ self.old.state.taken) }
        ensures state { OnOk result (self.new.state ≡ (next self.old.state (Take op)).0) }
        ensures told { IfOk result (λ r. r.1.items ≡ (next self.old.state (Take op)).1) }
        ensures well { OnOk result (self.new.failed ≡ self.old.failed) }
        ensures room { OnOk result (has_room self.old.state ≡ true) }
        ensures full { result ≡ Err errors.Full → has_room self.old.state ≡ false }
        ensures full_kept { result ≡ Err errors.Full → self.new ≡ self.old }
        ensures err { OnErr result ((self.new ≡ self.old) ⊎ (self.new.failed ≡ true)) }
        ensures for_good { self.old.failed ≡ true → IsErr result }
    {
        if self.failed {
            return Err(DeskError::NoMemory);
        }
        let ticket = self.queue(op)?;
        let mut told = Vec::new(self.alloc);
        self.fill(&mut told)?;
        Ok((ticket, told))
    }

    /// The user of a ticket left: its op is taken out where it waits for a core, and nothing is told for it.
    pub fn leave(&mut self, ticket: u64)
        ensures { self.new ≡ record self.old {
          state = (next self.old.state (Leave ticket)).0;
        } }
    {
        self.state.cores.leave(ticket);
        self.state.queue.leave(ticket);
    }

    /// An input comes to the core at a place, such as a datagram or the tick Retry; what the cores gave.
    pub fn comes(&mut self, core: usize, input: Input<'_>) -> Result<Vec<Labelled>, NoMemory>
        ensures state { OnOk result (self.new.state
            ≡ (next self.old.state (Comes core (given input.entry))).0) }
        ensures told { IfOk result (λ told. told.items
            ≡ (next self.old.state (Comes core (given input.entry))).1) }
        ensures well { OnOk result (self.new.failed ≡ self.old.failed) }
        ensures failed { OnErr result (self.new.failed ≡ true) }
        ensures for_good { self.old.failed ≡ true → IsErr result }
    {
        if self.failed {
            return Err(NoMemory);
        }
        let mut told = Vec::new(self.alloc);
        if self
            .state
            .cores
            .takes(self.alloc, core, input, &mut told)
            .is_err()
        {
            self.failed = true;
            return Err(NoMemory);
        }
        self.fill(&mut told)?;
        Ok(told)
    }
}
