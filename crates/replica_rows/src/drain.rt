ghost use Rattle.std.specs.Prelude.{◌≡◌, true, OnOk, IfOk};
ghost use Rattle.nop_types.specs.Logs.{Trimmed};
ghost use Rattle.nop_types.specs.Ranges.{EntryFits};
ghost use Rattle.replica_state.specs.State.{drains, may_append, leads};
ghost use Rattle.replica_state.specs.Moves.{appended, open_gap, drain};
ghost use Rattle.replica_state.specs.Within.{IsWithin};
ghost use Rattle.replica_rows.specs.Within.{IsRunning, Does};
ghost use Rattle.replica_rows.specs.Draining.{TakesOne};
ghost use Rattle.replica_rows.specs.Taking.{TakesFront};

use crate::ReplicaState;
use crate::member::Member;
use nop_types::{Body, Entry, Host, MAX_SLOTS, NoMemory};

/// Logs the request in front, where one stands there. An error may leave it neither queued nor logged.
fn take_front(state: &mut ReplicaState) -> Result<bool, NoMemory>
    requires within { IsWithin state.old }
    requires drains { drains Trimmed state.old ≡ true }
    ensures { IfOk result (TakesFront state.old state.new) }
{
    let Some(request) = state.receiver.take_message() else {
        return Ok(false);
    };
    state.log.append(Entry::Req(request))?;
    state.next.set(state.receiver.next());
    Ok(true)
}

impl<H: Host> Member<H> {
    /// The same, with what was executed.
    pub(crate) fn append(&mut self, entry: Entry) -> Result<(), NoMemory>
        requires runs { IsRunning H.Host self.old }
        requires room { may_append Trimmed self.old.state ≡ true }
        requires fits { EntryFits entry }
        ensures runs { OnOk result (IsRunning H.Host self.new) }
        ensures executor { self.new.executor ≡ self.old.executor }
        ensures sends { self.new.sends ≡ self.old.sends }
        ensures state { OnOk result (self.new.state ≡ appended self.old.state entry) }
    {
        self.state.append(entry)
    }

    /// Puts a NO-OP into the next slot, and tells all others.
    pub(crate) fn open_gap(&mut self) -> Result<(), NoMemory>
        requires runs { IsRunning H.Host self.old }
        requires room { may_append Trimmed self.old.state ≡ true }
        ensures { OnOk result (Does H.Host self.old self.new (open_gap Trimmed)) }
    {
        self.state.put_gap()?;
        let slot = self.state.log.len();
        self.to_all(Body::GapCommit(slot))
    }

    /// Takes what is in front, where it may: a request is logged; at a drop a leader opens a gap, and a follower asks for
    /// the slot. Says whether it goes on.
    fn drain_one(&mut self) -> Result<bool, NoMemory>
        requires runs { IsRunning H.Host self.old }
        ensures runs { OnOk result (IsRunning H.Host self.new) }
        ensures taken { IfOk result (TakesOne H.meaning Trimmed
            self.old.state self.old.sends self.new.state self.new.sends) }
    {
        if !self.state.drains() {
            return Ok(false);
        }
        if take_front(&mut self.state)? {
            let slot = self.state.log.len();
            self.reply_at(slot)?;
            return Ok(true);
        }
        if !self.state.has_drop() {
            return Ok(false);
        }
        if self.state.leads() {
            self.open_gap()?;
            return Ok(true);
        }
        self.state.ask(&mut self.sends)?;
        Ok(false)
    }

    /// Takes what is in front, one after the other.
    pub(crate) fn drain(&mut self) -> Result<(), NoMemory>
        requires runs { IsRunning H.Host self.old }
        ensures { OnOk result (Does H.Host self.old self.new (drain H.meaning Trimmed)) }
    {
        for _ in 0..MAX_SLOTS {
            if !self.drain_one()? {
                return Ok(());
            }
        }
        Ok(())
    }
}
