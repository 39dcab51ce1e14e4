ghost use Rattle.std.specs.Prelude.{◌≡◌, ◌≤◌, ◌+◌, ◌-◌, true, OnOk};
ghost use Rattle.nop_types.specs.declared.limits.TheConstants.{NUMBER_END};
ghost use Rattle.nop_types.specs.CheckpointedLogs.{loads};
ghost use Rattle.nop_types.specs.Logs.{Trimmed, length_of};
ghost use Rattle.nop_types.specs.Ranges.{SlotFits, RequestFits, LogFits};
ghost use Rattle.replica_state.specs.State.{may_append};
ghost use Rattle.replica_state.specs.Moves.{gap_written, write_gap, add_gap, fill, overlay};
ghost use Rattle.replica_rows.specs.Rows.{gap_commit, found, sync_prepare, sync_commit};
ghost use Rattle.replica_rows.specs.Within.{IsRunning, Does};

use crate::member::Member;
use nop_types::{Body, Entry, Host, Log, NUMBER_END, NoMemory, Request};

impl<H: Host> Member<H> {
    /// Puts a NO-OP into a slot of the log, unless the slot is synchronised.
    fn put_noop(&mut self, slot: u32)
        requires runs { IsRunning H.Host self.old }
        requires there { slot ≤ length_of Trimmed self.old.state.log }
        ensures state { self.new.state ≡ gap_written Trimmed self.old.state slot }
        ensures sends { self.new.sends ≡ self.old.sends }
        ensures runs { IsRunning H.Host self.new }
    {
        let sync_point = self.state.sync.sync_point();
        if slot <= sync_point {
            return;
        }
        self.go_back(sync_point);
        self.state.log.put_noop(slot);
    }

    /// The same, and the leader is told so.
    fn write_gap(&mut self, slot: u32) -> Result<(), NoMemory>
        requires runs { IsRunning H.Host self.old }
        requires fits { SlotFits slot }
        requires there { slot ≤ length_of Trimmed self.old.state.log }
        ensures { OnOk result (Does H.Host self.old self.new (λ s. write_gap Trimmed s slot)) }
    {
        self.put_noop(slot);
        self.to_leader(Body::GapRep(slot))
    }

    /// Puts a NO-OP into the next slot, and tells the leader so.
    fn add_gap(&mut self) -> Result<(), NoMemory>
        requires runs { IsRunning H.Host self.old }
        requires room { may_append Trimmed self.old.state ≡ true }
        ensures { OnOk result (Does H.Host self.old self.new (add_gap Trimmed)) }
    {
        self.append(Entry::NoOp)?;
        let slot = self.state.log.len();
        self.to_leader(Body::GapRep(slot))
    }

    /// Logs a request that was missed, and replies for it.
    fn fill(&mut self, request: Request) -> Result<(), NoMemory>
        requires runs { IsRunning H.Host self.old }
        requires room { may_append Trimmed self.old.state ≡ true }
        requires fits { RequestFits request }
        ensures { OnOk result (Does H.Host self.old self.new
            (λ s. fill H.meaning Trimmed s request)) }
    {
        self.append(Entry::Req(request))?;
        let slot = self.state.log.len();
        self.reply_at(slot)
    }

    /// The leader has a NO-OP in a slot.
    #[tactic(auto, unfolding(crate::specs::Rows::gap_commit))]
    pub(crate) fn gap_commit(&mut self, slot: u32) -> Result<(), NoMemory>
        requires runs { IsRunning H.Host self.old }
        requires fits { SlotFits slot }
        ensures { OnOk result (Does H.Host self.old self.new (gap_commit H.meaning Trimmed slot)) }
    {
        let len = self.state.log.len();
        if slot <= len {
            self.state.heard = true;
            self.write_gap(slot)?;
            return self.drain();
        }
        if !self.state.may_append() || slot != len + 1 {
            return Ok(());
        }
        self.state.heard = true;
        self.add_gap()?;
        self.drain()
    }

    /// The leader tells the request of the next slot.
    #[tactic(auto, unfolding(crate::specs::Rows::found))]
    pub(crate) fn found(&mut self, slot: u32, request: Request) -> Result<(), NoMemory>
        requires runs { IsRunning H.Host self.old }
        requires fits { RequestFits request }
        ensures { OnOk result (Does H.Host self.old self.new
            (found H.meaning Trimmed slot request)) }
    {
        if !self.state.may_append() || slot != self.state.log.len() + 1 {
            return Ok(());
        }
        self.state.heard = true;
        self.fill(request)?;
        self.drain()
    }

    /// Takes the entries of the leader's log, replies for those that are new and above the sync point, and tells the leader so.
    fn overlay(&mut self, log: Log, appended: u64) -> Result<(), NoMemory>
        requires runs { IsRunning H.Host self.old }
        requires log_fits { LogFits log }
        requires loads { loads H.meaning log ≡ true }
        requires appended { appended
            ≡ length_of Trimmed log - length_of Trimmed self.old.state.log }
        requires within { self.old.state.next + appended ≤ NUMBER_END }
        ensures { OnOk result (Does H.Host self.old self.new
            (λ s. overlay H.meaning Trimmed s log)) }
    {
        let len = self.state.log.len();
        let leader_len = log.len();
        self.lay_over(log, appended)?;
        let answered = len.max(self.state.sync.sync_point());
        self.replies_above(answered)?;
        self.to_leader(Body::SyncRep(leader_len))
    }

    /// The leader says that the slots up to this one are synchronised.
    pub(crate) fn sync_commit(&mut self, slot: u32) -> Result<(), NoMemory>
        requires runs { IsRunning H.Host self.old }
        ensures { OnOk result (Does H.Host self.old self.new (sync_commit H.meaning Trimmed slot)) }
    {
        self.state.sync_commit(slot);
        let trimmed = self.trim_log()?;
        self.send_trimmed(trimmed)
    }

    /// The leader sends its log.
    pub(crate) fn sync_prepare(&mut self, log: Log) -> Result<(), NoMemory>
        requires runs { IsRunning H.Host self.old }
        requires log_fits { LogFits log }
        requires loads { loads H.meaning log ≡ true }
        ensures { OnOk result (Does H.Host self.old self.new (sync_prepare H.meaning Trimmed log)) }
    {
        let appended = u64::from(log.len().saturating_sub(self.state.log.len()));
        if self.state.next.get() + appended > NUMBER_END {
            return Ok(());
        }
        self.state.heard = true;
        self.overlay(log, appended)?;
        self.drain()
    }
}
