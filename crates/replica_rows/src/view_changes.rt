ghost use Rattle.std.specs.Prelude.{◌≡◌, true, OnOk, IfOk};
ghost use Rattle.nop_types.specs.CheckpointedLogs.{loads};
ghost use Rattle.nop_types.specs.Logs.{Trimmed};
ghost use Rattle.nop_types.specs.Ranges.{ViewFits, NextFits, LogFits, ChangeFits};
ghost use Rattle.replica_state.specs.Moves.{resend_start};
ghost use Rattle.replica_rows.specs.Rows.{view_change_request, take_change, gather, view_change, start_view};
ghost use Rattle.replica_rows.specs.Gathering.{kept_after, step_by};
ghost use Rattle.replica_rows.specs.Within.{ChangeLoads, IsRunning, Does};

use crate::ReplicaState;
use crate::member::Member;
use nop_types::{Change, Host, Log, NoMemory, Phase, View};
use view_change::Step;

/// Keeps a change, where changes are gathered. Says whether the view starts then, and with what; the changes are gone then. An
/// error may leave none of them.
fn keep_change(state: &mut ReplicaState, change: Change) -> Result<Step, NoMemory>
    ensures kept { IfOk result (λ step. state.new ≡ kept_after step state.old change) }
    ensures step { IfOk result (λ step. step ≡ step_by state.old.changes change) }
{
    let Some(mut changes) = state.changes.take() else {
        return Ok(Step::Waiting);
    };
    if changes.is_enough_with(&change) {
        let start = changes.start_with(change)?;
        return Ok(Step::Started(start));
    }
    changes.on_change(change)?;
    state.changes = Some(changes);
    Ok(Step::Waiting)
}

impl<H: Host> Member<H> {
    /// Another replica asks for a view.
    pub(crate) fn view_change_request(&mut self, view: View) -> Result<(), NoMemory>
        requires runs { IsRunning H.Host self.old }
        requires fits { ViewFits view }
        ensures { OnOk result (Does H.Host self.old self.new
            (view_change_request H.meaning Trimmed view)) }
    {
        let join = View::join(self.state.view, view);
        if join.is(self.state.view) {
            return Ok(());
        }
        self.enter_and_drain(join)
    }

    /// Tells a late replica once more what the view started with.
    fn resend_start(&mut self, replica: u8) -> Result<(), NoMemory>
        requires runs { IsRunning H.Host self.old }
        ensures { OnOk result (Does H.Host self.old self.new
            (λ s. resend_start Trimmed s replica)) }
    {
        self.state.send_start(replica, &mut self.sends)
    }

    /// Keeps a change, and starts the view where enough are there.
    fn gather(&mut self, change: Change) -> Result<(), NoMemory>
        requires runs { IsRunning H.Host self.old }
        requires fits { ChangeFits change }
        requires loads { ChangeLoads H.meaning change }
        ensures { OnOk result (Does H.Host self.old self.new
            (λ s. gather H.meaning Trimmed s.changes change s)) }
    {
        match keep_change(&mut self.state, change)? {
            Step::Started(start) => self.open_view(start),
            Step::Waiting => Ok(()),
        }
    }

    fn take_change(&mut self, view: View, change: Change) -> Result<(), NoMemory>
        requires runs { IsRunning H.Host self.old }
        requires fits { ChangeFits change }
        requires loads { ChangeLoads H.meaning change }
        ensures { OnOk result (Does H.Host self.old self.new
            (take_change H.meaning Trimmed view change)) }
    {
        if !view.is(self.state.view) || !self.state.leads() {
            return Ok(());
        }
        match self.state.status {
            Phase::Change => self.gather(change),
            Phase::Normal => self.resend_start(change.sender),
        }
    }

    /// Another replica tells what it had when it entered a view.
    pub(crate) fn view_change(&mut self, view: View, change: Change) -> Result<(), NoMemory>
        requires runs { IsRunning H.Host self.old }
        requires view { ViewFits view }
        requires change { ChangeFits change }
        requires loads { ChangeLoads H.meaning change }
        ensures { OnOk result (Does H.Host self.old self.new
            (view_change H.meaning Trimmed view change)) }
    {
        self.view_change_request(view)?;
        self.take_change(view, change)
    }

    /// The leader of a view tells what it starts with.
    pub(crate) fn start_view(
        &mut self,
        sender: u8,
        view: View,
        next: u64,
        log: Log,
    ) -> Result<(), NoMemory>
        requires runs { IsRunning H.Host self.old }
        requires view { ViewFits view }
        requires next { NextFits next }
        requires log_fits { LogFits log }
        requires loads { loads H.meaning log ≡ true }
        ensures { OnOk result (Does H.Host self.old self.new
            (start_view H.meaning Trimmed sender view next log)) }
    {
        if !self.state.may_adopt(sender, view, &log) {
            return Ok(());
        }
        self.adopt(view, next, log)
    }
}
