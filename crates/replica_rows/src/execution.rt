ghost use Rattle.std.specs.Prelude.{◌≡◌, ◌≤◌, min, OnOk};
ghost use Rattle.nop_types.specs.Logs.{Trimmed, length_of};
ghost use Rattle.executor.specs.Running.{reached};
ghost use Rattle.executor.specs.Undoing.{HasExecuted};
ghost use Rattle.replica_state.specs.State.{executed_to};
ghost use Rattle.replica_rows.specs.Within.{IsRunning};

use crate::member::Member;
use executor::Executor;
use nop_types::{Host, NoMemory};
use replica_log::ReplicaLog;

/// Executes a log just up to a slot: further, or back.
pub(crate) fn stand_at<H: Host>(
    executor: &mut Executor<H>,
    log: &ReplicaLog,
    slot: u32,
) -> Result<(), NoMemory>
    requires kept { log.now.sync_point ≤ slot }
    requires there { slot ≤ length_of Trimmed log.now }
    requires run { HasExecuted H.state H.meaning H.undo_of log.now executor.old }
    ensures reached { OnOk result (reached executor.new ≡ slot) }
    ensures run { OnOk result (HasExecuted H.state H.meaning H.undo_of log.now executor.new) }
{
    if slot < executor.reached() {
        executor.rewind(log, slot);
        return Ok(());
    }
    executor.run_to(log, slot)
}

impl<H: Host> Member<H> {
    /// Takes back what was executed above a slot, no lower than the sync point.
    pub(crate) fn go_back(&mut self, slot: u32)
        requires runs { IsRunning H.Host self.old }
        requires kept { self.old.state.log.sync_point ≤ slot }
        ensures state { self.new.state ≡ self.old.state }
        ensures sends { self.new.sends ≡ self.old.sends }
        ensures runs { IsRunning H.Host self.new }
        ensures behind { reached self.new.executor ≤ slot }
        ensures kept { reached self.new.executor ≡ min slot (reached self.old.executor) }
    {
        if self.executor.reached() <= slot {
            return;
        }
        self.executor.rewind(&self.state.log, slot);
    }

    /// Executes as far as a replica does: a leader in Normal the whole log, another up to the sync point.
    pub(crate) fn settle(&mut self) -> Result<(), NoMemory>
        requires runs { IsRunning H.Host self.old }
        ensures state { self.new.state ≡ self.old.state }
        ensures sends { self.new.sends ≡ self.old.sends }
        ensures runs { OnOk result (IsRunning H.Host self.new) }
        ensures executed { OnOk result (reached self.new.executor
            ≡ executed_to Trimmed self.new.state) }
    {
        let len = self.state.log.len();
        let slot = if self.state.is_normal() && self.state.leads() {
            len
        } else {
            self.state.sync.sync_point().min(len)
        };
        stand_at(&mut self.executor, &self.state.log, slot)
    }
}
