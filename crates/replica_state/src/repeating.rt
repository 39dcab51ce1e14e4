ghost use Rattle.std.specs.Prelude.{◌≡◌, ◌++◌, OnOk, OnErr};
ghost use Rattle.nop_types.specs.declared.replica_state.Phase.TheVariants.{Change};
ghost use Rattle.nop_types.specs.Logs.{Trimmed};
ghost use Rattle.oum_receiver.specs.Receiving.{front_of};
ghost use Rattle.replica_state.specs.State.{leads};
ghost use Rattle.replica_state.specs.Moves.{open_sync, repeat_commit};
ghost use Rattle.replica_state.specs.Repeating.{gap_again, lookup_again, change_again, resend_by, resend, sync};
ghost use Rattle.replica_state.specs.Within.{IsWithin};

use crate::{ReplicaState, Sends};
use nop_types::{Body, NoMemory};

impl ReplicaState {
    /// A leader tells once more of the gap that waits.
    fn gap_again(&self, sends: &mut Sends) -> Result<(), NoMemory>
        requires { IsWithin self.now }
        ensures ok { OnOk result (sends.new ≡ sends.old ++ (gap_again self.now.gap self.now).1) }
        ensures err { OnErr result (sends.new ≡ sends.old) }
    {
        let Some(gap) = &self.gap else {
            return Ok(());
        };
        self.send_to_all(Body::GapCommit(gap.slot()), sends)
    }

    /// A follower asks once more for the slot at which the receiver has a drop.
    fn lookup_again(&self, sends: &mut Sends) -> Result<(), NoMemory>
        requires { IsWithin self.now }
        ensures ok { OnOk result (sends.new
            ≡ sends.old ++ (lookup_again Trimmed (front_of self.now.receiver) self.now).1) }
        ensures err { OnErr result (sends.new ≡ sends.old) }
    {
        if !self.has_drop() || !self.log.has_room() {
            return Ok(());
        }
        let slot = self.log.len() + 1;
        self.send_to(self.leader(), Body::SlotLookup(slot), sends)
    }

    /// A replica that does not lead the view that it enters tells its change once more.
    fn change_again(&self, sends: &mut Sends) -> Result<(), NoMemory>
        requires { IsWithin self.now }
        ensures ok { OnOk result (sends.new
            ≡ sends.old ++ (change_again (leads self.now) self.now).1) }
        ensures err { OnErr result (sends.new ≡ sends.old) }
    {
        if self.leads() {
            return Ok(());
        }
        self.send_change(sends)
    }

    /// A replica asks once more for the view that it enters, and tells its change.
    fn enter_again(&self, sends: &mut Sends) -> Result<(), NoMemory>
        requires { IsWithin self.now }
        ensures ok { OnOk result (sends.new
            ≡ sends.old ++ (resend_by Trimmed Change (leads self.now) self.now).1) }
        ensures err { OnErr result (sends.new ≡ sends.old) }
    {
        let len = sends.len();
        self.send_to_all(Body::ViewChangeReq, sends)?;
        if self.change_again(sends).is_err() {
            sends.truncate(len);
            return Err(NoMemory);
        }
        Ok(())
    }

    /// Sends again what was not answered. An error leaves what is sent as it was.
    #[tactic(auto, unfolding(crate::specs::Repeating::resend))]
    pub fn resend(&self, sends: &mut Sends) -> Result<(), NoMemory>
        requires within { IsWithin self.now }
        ensures state { (resend Trimmed self.now).0 ≡ self.now }
        ensures ok { OnOk result (sends.new ≡ sends.old ++ (resend Trimmed self.now).1) }
        ensures err { OnErr result (sends.new ≡ sends.old) }
    {
        if !self.is_normal() {
            return self.enter_again(sends);
        }
        if self.leads() {
            return self.gap_again(sends);
        }
        self.lookup_again(sends)
    }

    /// Tells the log, and waits for votes.
    fn open_sync(&mut self, sends: &mut Sends) -> Result<(), NoMemory>
        requires { IsWithin self.old }
        ensures state { OnOk result (self.new ≡ (open_sync Trimmed self.old).0) }
        ensures sends { OnOk result (sends.new ≡ sends.old ++ (open_sync Trimmed self.old).1) }
        ensures err { OnErr result ((self.new ≡ self.old) × (sends.new ≡ sends.old)) }
    {
        self.send_log(sends)?;
        self.sync.prepare(self.log.len());
        Ok(())
    }

    /// Tells once more what is synchronised.
    fn repeat_commit(&self, sends: &mut Sends) -> Result<(), NoMemory>
        requires { IsWithin self.now }
        ensures ok { OnOk result (sends.new ≡ sends.old ++ (repeat_commit self.now).1) }
        ensures err { OnErr result (sends.new ≡ sends.old) }
    {
        let sync_point = self.sync.sync_point();
        self.send_to_all(Body::SyncCommit(sync_point), sends)
    }

    /// A leader without a gap has its log synchronised, or says again how far it is. An error leaves the state, and what is sent, as
    /// they were.
    #[tactic(auto, unfolding(crate::specs::Repeating::sync))]
    pub fn sync(&mut self, sends: &mut Sends) -> Result<(), NoMemory>
        requires within { IsWithin self.old }
        ensures state { OnOk result (self.new ≡ (sync Trimmed self.old).0) }
        ensures sends { OnOk result (sends.new ≡ sends.old ++ (sync Trimmed self.old).1) }
        ensures err { OnErr result ((self.new ≡ self.old) × (sends.new ≡ sends.old)) }
    {
        if !self.is_normal() || !self.leads() || self.waits() {
            return Ok(());
        }
        if self.sync.sync_point() < self.log.len() {
            return self.open_sync(sends);
        }
        self.repeat_commit(sends)
    }
}
