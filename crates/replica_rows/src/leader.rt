ghost use Rattle.std.specs.Prelude.{◌≡◌, ◌<◌, true, OnOk, IfOk};
ghost use Rattle.nop_types.specs.Logs.{Trimmed, has_room};
ghost use Rattle.nop_types.specs.Ranges.{SlotFits};
ghost use Rattle.nop_types.specs.declared.limits.TheConstants.{MAX_REPLICAS};
ghost use Rattle.replica_state.specs.Moves.{count_gap_vote, count_sync_vote, send_synced};
ghost use Rattle.replica_rows.specs.Rows.{begin_gap, slot_lookup, gap_reply, sync_reply};
ghost use Rattle.replica_rows.specs.Trimming.{then_trim, trimmed_by};
ghost use Rattle.replica_rows.specs.Within.{IsRunning, Does};

use crate::member::Member;
use crate::trimming::TrimmedEntries;
use nop_types::{Body, Host, NUMBER_END, NoMemory, Vote};
use replica_log::{Answer, answer};

impl<H: Host> Member<H> {
    /// Begins a gap agreement in the next slot, where there is a number after it.
    fn begin_gap(&mut self) -> Result<(), NoMemory>
        requires runs { IsRunning H.Host self.old }
        requires room { has_room Trimmed self.old.state.log ≡ true }
        ensures { OnOk result (Does H.Host self.old self.new (begin_gap H.meaning Trimmed)) }
    {
        if self.state.next.get() >= NUMBER_END {
            return Ok(());
        }
        self.open_gap()?;
        self.drain()
    }

    /// Tells a replica what is synchronised.
    fn send_synced(&mut self, replica: u8) -> Result<(), NoMemory>
        requires runs { IsRunning H.Host self.old }
        ensures { OnOk result (Does H.Host self.old self.new (λ s. send_synced Trimmed s replica)) }
    {
        self.state.send_synced(replica, &mut self.sends)
    }

    /// Another replica asks for a slot.
    #[tactic(auto, unfolding(crate::specs::Rows::slot_lookup))]
    pub(crate) fn slot_lookup(&mut self, sender: u8, slot: u32) -> Result<(), NoMemory>
        requires runs { IsRunning H.Host self.old }
        requires fits { SlotFits slot }
        ensures { OnOk result (Does H.Host self.old self.new
            (slot_lookup H.meaning Trimmed sender slot)) }
    {
        let waits = self.state.waits();
        match answer(&self.state.log, waits, slot) {
            Answer::Below => self.send_synced(sender),
            Answer::Found(request) => {
                let request = request.try_clone()?;
                self.to_replica(sender, Body::Found(slot, request))
            }
            Answer::GapAgain => self.to_replica(sender, Body::GapCommit(slot)),
            Answer::Begin => self.begin_gap(),
            Answer::Nothing => Ok(()),
        }
    }

    /// Another replica votes for the gap in a slot.
    #[tactic(auto, unfolding(crate::specs::Rows::gap_reply))]
    pub(crate) fn gap_reply(&mut self, sender: u8, slot: u32) -> Result<(), NoMemory>
        requires runs { IsRunning H.Host self.old }
        requires sender { sender < MAX_REPLICAS }
        ensures { OnOk result (Does H.Host self.old self.new
            (gap_reply H.meaning Trimmed sender slot)) }
    {
        let Some(gap) = &self.state.gap else {
            return Ok(());
        };
        if gap.slot() != slot {
            return Ok(());
        }
        self.state.count_gap_vote(sender);
        self.drain()
    }

    /// Another replica votes for a length of the log.
    pub(crate) fn sync_reply(&mut self, sender: u8, len: u32) -> Result<(), NoMemory>
        requires runs { IsRunning H.Host self.old }
        requires sender { sender < MAX_REPLICAS }
        ensures { OnOk result (Does H.Host self.old self.new
            (sync_reply H.meaning Trimmed sender len)) }
    {
        let trimmed = self.count_sync_vote(sender, len)?;
        self.send_trimmed(trimmed)
    }

    /// Counts a vote for a length of the log. At enough votes the sync point rises, the log is trimmed, and all others are told. The
    /// entries that were trimmed are handed out.
    fn count_sync_vote(&mut self, sender: u8, len: u32) -> Result<Option<TrimmedEntries>, NoMemory>
        requires runs { IsRunning H.Host self.old }
        requires sender { sender < MAX_REPLICAS }
        ensures does { OnOk result (Does H.Host self.old self.new
            (then_trim H.meaning (λ s. count_sync_vote s sender len))) }
        ensures trimmed { IfOk result (λ trimmed. trimmed
            ≡ trimmed_by (count_sync_vote self.old.state sender len).0) }
    {
        let vote = self.state.sync.on_rep(sender, len);
        let trimmed = self.trim_log()?;
        match vote {
            Vote::Settled => {
                self.to_all(Body::SyncCommit(len))?;
                Ok(trimmed)
            }
            Vote::Waiting => Ok(trimmed),
        }
    }
}
