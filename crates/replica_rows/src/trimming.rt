ghost use Rattle.std.specs.Prelude.{◌≡◌, ◌≤◌, OnOk, IfOk};
ghost use Rattle.nop_types.specs.Logs.{Trimmed, length_of};
ghost use Rattle.replica_rows.specs.Trimming.{trim_log, trimmed_by, send_trimmed};
ghost use Rattle.replica_rows.specs.Within.{Executes, IsRunning, Does};

use crate::execution::stand_at;
use crate::member::Member;
use nop_types::{Host, Log, NoMemory};

/// Entries that moved out of the log, from a slot on.
#[derive(Drop)]
pub struct TrimmedEntries {
    pub first: u32,
    pub entries: Log,
}

impl<H: Host> Member<H> {
    /// The log is trimmed where the sync point passed it: it is executed just up to there, the checkpoint of that is in it from
    /// now on, and the entries that were trimmed are handed out.
    pub(crate) fn trim_log(&mut self) -> Result<Option<TrimmedEntries>, NoMemory>
        requires executes { Executes H.Host self.old.state.log self.old.executor }
        requires there { self.old.state.sync.sync_point ≤ length_of Trimmed self.old.state.log }
        ensures state { OnOk result (self.new.state ≡ trim_log H.meaning self.old.state) }
        ensures executes { OnOk result (Executes H.Host self.new.state.log self.new.executor) }
        ensures sends { self.new.sends ≡ self.old.sends }
        ensures trimmed { IfOk result (λ trimmed. trimmed ≡ trimmed_by self.old.state) }
    {
        let below = self.state.log.sync_point();
        let sync_point = self.state.sync.sync_point();
        if sync_point <= below {
            return Ok(None);
        }
        stand_at(&mut self.executor, &self.state.log, sync_point)?;
        let checkpoint = self.executor.checkpoint()?;
        let _host = checkpoint.host();
        let entries = self.state.trim(checkpoint)?;
        self.executor.rebase();
        Ok(Some(TrimmedEntries {
            first: below + 1,
            entries,
        }))
    }

    /// What was trimmed goes out, and what waits is taken.
    pub(crate) fn send_trimmed(&mut self, trimmed: Option<TrimmedEntries>) -> Result<(), NoMemory>
        requires runs { IsRunning H.Host self.old }
        ensures { OnOk result (Does H.Host self.old self.new (send_trimmed H.meaning trimmed)) }
    {
        let Some(TrimmedEntries { first, entries }) = trimmed else {
            return Ok(());
        };
        self.sends.push_trimmed(first, entries)?;
        self.drain()
    }
}
