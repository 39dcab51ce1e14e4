ghost use Rattle.std.specs.Prelude.{◌≡◌, ◌≤◌, ◌<◌, ◌+◌, ◌-◌, ◌++◌, ◌↔◌, [], Some, true, nat_le, IsTrue, OnOk};
ghost use Rattle.std.specs.Prelude.{OnErr, IfOk, IfSome, IfNone};
ghost use Rattle.nop_types.specs.declared.limits.TheConstants.{MAX_REPLICAS, NUMBER_END};
ghost use Rattle.nop_types.specs.Logs.{Trimmed, length_of, above};
ghost use Rattle.nop_types.specs.Ranges.{LogFits};
ghost use Rattle.oum_receiver.specs.Front.{Dropped};
ghost use Rattle.oum_receiver.specs.Receiving.{front_of};
ghost use Rattle.replica_state.specs.State.{has_room, may_append, waiting_in};
ghost use Rattle.replica_state.specs.Moves.{appended, gap_opened, ask, count_gap_vote, overlaid, obey, sync_commit};
ghost use Rattle.replica_state.specs.Moves.{trimmed_entries};
ghost use Rattle.replica_state.specs.Within.{IsWithin};

use crate::{ReplicaState, Sends};
use nop_types::{Body, Checkpoint, Entry, Log, NUMBER_END, NoMemory, Vote};
use oum_receiver::Upcall;
use slot_votes::Gap;

/// The gap that waits for votes in a slot, unless nobody has to vote.
fn gap_in(slot: u32, f: u8) -> Option<Gap>
    ensures { result ≡ waiting_in slot f }
{
    if f == 0 {
        return None;
    }
    Some(Gap::begin(slot, f))
}

impl ReplicaState {
    /// Appends an entry that did not come through the receiver, which goes to the number after it.
    pub fn append(&mut self, entry: Entry) -> Result<(), NoMemory>
        requires { may_append Trimmed self.old ≡ true }
        ensures ok { OnOk result (self.new ≡ appended self.old entry) }
        ensures err { OnErr result (self.new ≡ self.old) }
    {
        self.log.append(entry)?;
        let next = self.next.get() + 1;
        self.next.set(next);
        self.receiver.advance(next);
        Ok(())
    }

    /// Puts a NO-OP into the next slot, for which votes are then counted.
    pub fn put_gap(&mut self) -> Result<(), NoMemory>
        requires { may_append Trimmed self.old ≡ true }
        ensures ok { OnOk result (self.new ≡ gap_opened Trimmed self.old) }
        ensures err { OnErr result (self.new ≡ self.old) }
    {
        self.append(Entry::NoOp)?;
        self.gap = gap_in(self.log.len(), self.max_faults());
        Ok(())
    }

    /// Whether the receiver has a drop in front.
    pub fn has_drop(&self) -> bool
        ensures drop { IsTrue result ↔ (front_of self.now.receiver ≡ Dropped) }
        ensures more { IsTrue result → self.now.receiver.next < NUMBER_END }
    {
        let _next = self.receiver.next();
        matches!(self.receiver.front(), Some(Upcall::Drop))
    }

    /// Asks the leader for the next slot, once. An error leaves the state, and what is sent, as they were.
    pub fn ask(&mut self, sends: &mut Sends) -> Result<(), NoMemory>
        requires within { IsWithin self.old }
        requires room { has_room Trimmed self.old ≡ true }
        ensures state { OnOk result (self.new ≡ (ask Trimmed self.old).0) }
        ensures sends { OnOk result (sends.new ≡ sends.old ++ (ask Trimmed self.old).1) }
        ensures err { OnErr result ((self.new ≡ self.old) × (sends.new ≡ sends.old)) }
    {
        let slot = self.log.len() + 1;
        if self.asked == slot {
            return Ok(());
        }
        self.send_to(self.leader(), Body::SlotLookup(slot), sends)?;
        self.asked = slot;
        Ok(())
    }

    /// Counts a vote for the gap that waits, and closes it where enough voted.
    pub fn count_gap_vote(&mut self, sender: u8)
        requires { sender < MAX_REPLICAS }
        ensures waits { IfSome self.old.gap (λ g. self.new
            ≡ (count_gap_vote self.old g sender).0) }
        ensures none { IfNone self.old.gap (self.new ≡ self.old) }
    {
        let Some(gap) = &mut self.gap else {
            return;
        };
        if let Vote::Settled = gap.on_rep(sender) {
            self.gap = None;
        }
    }

    /// Takes the entries of the leader's log, of which so many are new. Own ones above its end stay.
    pub fn lay_over(&mut self, log: Log, appended: u64) -> Result<(), NoMemory>
        requires own { IsWithin self.old }
        requires log_fits { LogFits log }
        requires appended { appended ≡ length_of Trimmed log - length_of Trimmed self.old.log }
        requires within { self.old.next + appended ≤ NUMBER_END }
        ensures ok { OnOk result (self.new ≡ overlaid Trimmed self.old log) }
        ensures err { OnErr result (self.new ≡ self.old) }
    {
        let len = log.len();
        let sync_point = log.sync_point();
        self.log.overlay(log)?;
        let next = self.next.get() + appended;
        self.next.set(next);
        self.receiver.advance(next);
        self.sync.on_prepare(len);
        self.sync.raise(sync_point);
        Ok(())
    }

    /// The log's sync point becomes that for which votes are counted, with the checkpoint of the slots up to there. The entries
    /// between move out of the log.
    pub fn trim(&mut self, checkpoint: Checkpoint) -> Result<Log, NoMemory>
        requires low { self.old.log.sync_point ≤ self.old.sync.sync_point }
        requires there { self.old.sync.sync_point ≤ length_of Trimmed self.old.log }
        ensures ok { OnOk result (self.new ≡ record self.old {
          log = record {
            sync_point = self.old.sync.sync_point;
            checkpoint = Some checkpoint;
            entries = above Trimmed self.old.log self.old.sync.sync_point;
          };
        }) }
        ensures entries { IfOk result (λ log. log ≡ trimmed_entries Trimmed self.old) }
        ensures err { OnErr result (self.new ≡ self.old) }
    {
        let sync_point = self.sync.sync_point();
        self.log.raise(sync_point, checkpoint)
    }

    /// Lets the sync point rise to what the leader says, where so much is prepared. Says whether it is.
    fn obey(&mut self, slot: u32) -> bool
        ensures state { self.new ≡ (obey self.old slot).0 }
        ensures prepared { result ≡ nat_le slot self.old.sync.prepared }
    {
        self.sync.on_commit(slot).is_some()
    }

    /// The leader says that the slots up to this one are synchronised.
    #[tactic(auto, unfolding(crate::specs::Moves::sync_commit))]
    pub fn sync_commit(&mut self, slot: u32)
        ensures state { self.new ≡ (sync_commit slot self.old).0 }
        ensures nothing { (sync_commit slot self.old).1 ≡ [] }
    {
        if self.obey(slot) {
            self.heard = true;
        }
    }
}
