ghost use Rattle.std.specs.Prelude.{◌≡◌, ◌≤◌, ◌<◌, ◌++◌, Some, OnOk};
ghost use Rattle.nop_types.specs.declared.request.Request.{Request};
ghost use Rattle.nop_types.specs.declared.request.Entry.TheVariants.{Req};
ghost use Rattle.nop_types.specs.CheckpointedLogs.{slot_result};
ghost use Rattle.nop_types.specs.Legality.{IsOf};
ghost use Rattle.nop_types.specs.Logs.{Trimmed, length_of, entry_at};
ghost use Rattle.nop_types.specs.Ranges.{SlotFits};
ghost use Rattle.executor.specs.Running.{reached};
ghost use Rattle.replica_state.specs.Replies.{leader_reply, reply_at, replies_above};
ghost use Rattle.replica_rows.specs.Within.{IsRunning};

use crate::member::Member;
use nop_types::{Entry, Host, NoMemory};

impl<H: Host> Member<H> {
    /// Executes up to a slot where a request of this client and id stands, and replies with its result.
    fn reply_with_result(&mut self, slot: u32, client: u32, id: u64) -> Result<(), NoMemory>
        requires runs { IsRunning H.Host self.old }
        requires slot { SlotFits slot }
        requires there { slot ≤ length_of Trimmed self.old.state.log }
        requires ahead { reached self.old.executor ≤ slot }
        requires id { 1 ≤ id }
        ensures state { self.new.state ≡ self.old.state }
        ensures runs { OnOk result (IsRunning H.Host self.new) }
        ensures behind { OnOk result (reached self.new.executor ≤ slot) }
        ensures sends { (r : Request) → IsOf client id r
            → entry_at Trimmed self.old.state.log slot ≡ Some (Req r) → OnOk result (self.new.sends
            ≡ self.old.sends ++ leader_reply self.old.state slot r
            (slot_result H.meaning Trimmed self.old.state.log slot)) }
    {
        self.executor.run_to(&self.state.log, slot)?;
        let answer = self.executor.result(client, id);
        self.state
            .send_result(slot, client, id, answer, &mut self.sends)
    }

    /// Replies for a slot, where a request stands there: a leader with its result, a follower without.
    pub(crate) fn reply_at(&mut self, slot: u32) -> Result<(), NoMemory>
        requires runs { IsRunning H.Host self.old }
        requires there { slot ≤ length_of Trimmed self.old.state.log }
        requires ahead { reached self.old.executor < slot }
        ensures state { self.new.state ≡ self.old.state }
        ensures runs { OnOk result (IsRunning H.Host self.new) }
        ensures behind { OnOk result (reached self.new.executor ≤ slot) }
        ensures sends { OnOk result (self.new.sends
            ≡ self.old.sends ++ reply_at H.meaning Trimmed self.old.state slot) }
    {
        let Some(Entry::Req(request)) = self.state.log.at(slot) else {
            return Ok(());
        };
        let (client, id) = (request.client, request.id);
        if self.state.leads() {
            return self.reply_with_result(slot, client, id);
        }
        self.state
            .send_short(self.alloc, slot, client, id, &mut self.sends)
    }

    /// Replies for each request above a slot, no lower than the sync point, in the order of their slots.
    pub(crate) fn replies_above(&mut self, slot: u32) -> Result<(), NoMemory>
        requires runs { IsRunning H.Host self.old }
        requires kept { self.old.state.log.sync_point ≤ slot }
        requires behind { reached self.old.executor ≤ slot }
        ensures state { self.new.state ≡ self.old.state }
        ensures runs { OnOk result (IsRunning H.Host self.new) }
        ensures sends { OnOk result (self.new.sends
            ≡ self.old.sends ++ replies_above H.meaning Trimmed self.old.state slot) }
    {
        for at in slot..self.state.log.len() {
            self.reply_at(at + 1)?;
        }
        Ok(())
    }
}
