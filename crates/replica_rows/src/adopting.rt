ghost use Rattle.std.specs.Prelude.{◌≡◌, ◌≤◌, ◌+◌, ◌-◌, true, OnOk};
ghost use Rattle.nop_types.specs.declared.limits.TheConstants.{NUMBER_END};
ghost use Rattle.nop_types.specs.CheckpointedLogs.{loads};
ghost use Rattle.nop_types.specs.Logs.{Trimmed, length_of};
ghost use Rattle.nop_types.specs.Ranges.{ViewFits, NextFits, LogFits};
ghost use Rattle.executor.specs.Running.{reached};
ghost use Rattle.replica_state.specs.Moves.{adopted, overlaid, adopt, open_with};
ghost use Rattle.replica_rows.specs.Within.{IsRunning, Does};

use crate::member::Member;
use nop_types::{Host, Log, NoMemory, View};
use peer_codec::LogBody;
use view_change::Start;

impl<H: Host> Member<H> {
    /// Takes part in a view with the log that it starts with. What is executed of it is its checkpoint, where its sync point is
    /// greater than the own one; else what is synchronised of the own log.
    fn adopt_log(&mut self, view: View, next: u64, log: Log) -> Result<(), NoMemory>
        requires runs { IsRunning H.Host self.old }
        requires view { ViewFits view }
        requires next { NextFits next }
        requires log_fits { LogFits log }
        requires loads { loads H.meaning log ≡ true }
        ensures state { OnOk result (self.new.state
            ≡ adopted Trimmed self.old.state view next log) }
        ensures sends { self.new.sends ≡ self.old.sends }
        ensures runs { OnOk result (IsRunning H.Host self.new) }
        ensures behind { OnOk result (reached self.new.executor
            ≤ self.new.state.sync.sync_point) }
    {
        let synced = self.state.log.sync_point();
        if log.sync_point() > synced {
            self.state.adopt(view, next, log);
            return self.executor.restart(&self.state.log);
        }
        self.go_back(synced);
        self.state.adopt(view, next, log);
        Ok(())
    }

    /// Takes the entries of the leader's log, of which so many are new. What is executed then is as in `adopt_log`.
    pub(crate) fn lay_over(&mut self, log: Log, appended: u64) -> Result<(), NoMemory>
        requires runs { IsRunning H.Host self.old }
        requires log_fits { LogFits log }
        requires loads { loads H.meaning log ≡ true }
        requires appended { appended
            ≡ length_of Trimmed log - length_of Trimmed self.old.state.log }
        requires within { self.old.state.next + appended ≤ NUMBER_END }
        ensures state { OnOk result (self.new.state ≡ overlaid Trimmed self.old.state log) }
        ensures sends { self.new.sends ≡ self.old.sends }
        ensures runs { OnOk result (IsRunning H.Host self.new) }
        ensures behind { OnOk result (reached self.new.executor
            ≤ self.new.state.sync.sync_point) }
    {
        let synced = self.state.log.sync_point();
        if log.sync_point() > synced {
            self.state.lay_over(log, appended)?;
            return self.executor.restart(&self.state.log);
        }
        self.go_back(synced);
        self.state.lay_over(log, appended)
    }

    /// Takes part in a view from what it starts with, and replies again for each request above the sync point.
    pub(crate) fn adopt(&mut self, view: View, next: u64, log: Log) -> Result<(), NoMemory>
        requires runs { IsRunning H.Host self.old }
        requires view { ViewFits view }
        requires next { NextFits next }
        requires log_fits { LogFits log }
        requires loads { loads H.meaning log ≡ true }
        ensures { OnOk result (Does H.Host self.old self.new
            (λ s. adopt H.meaning Trimmed s view next log)) }
    {
        self.adopt_log(view, next, log)?;
        let synced = self.state.sync.sync_point();
        self.replies_above(synced)?;
        self.drain()
    }

    /// Opens the view with what it starts with: all others are told, and the replica takes part in it.
    pub(crate) fn open_view(&mut self, start: Start) -> Result<(), NoMemory>
        requires runs { IsRunning H.Host self.old }
        requires next { NextFits start.next }
        requires log_fits { LogFits start.log }
        requires loads { loads H.meaning start.log ≡ true }
        ensures { OnOk result (Does H.Host self.old self.new
            (λ s. open_with H.meaning Trimmed s start.next start.log)) }
    {
        let Start { next, log } = start;
        let body = LogBody::StartView {
            next,
            log: log.as_ref(),
        };
        self.state.send_log_to_all(body, &mut self.sends)?;
        let view = self.state.view;
        self.adopt(view, next, log)
    }
}
