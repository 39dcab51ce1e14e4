ghost use Rattle.std.specs.Prelude.{◌≡◌, ◌≤◌, ◌+◌, length, IfOk};
ghost use Rattle.std.specs.Option.{option_copied};
ghost use Rattle.nop_types.specs.Logs.{Log};
ghost use Rattle.nop_types.specs.BorrowedLogs.{log_of};

use crate::checkpoint::try_clone_checkpoint;
use crate::{Checkpoint, Entry, MAX_LENGTH, MAX_SLOTS, NoMemory};
use std::alloc::Global;
use std::marker::Model;

/// A trimmed log, as messages carry it: its sync point, the checkpoint that is in place of the entries up to there, and the
/// entries above, at most `MAX_SLOTS`. It has at most `MAX_LENGTH` slots.
#[derive(Debug)]
pub struct Log {
    sync_point: u32,
    checkpoint: Option<Checkpoint>,
    entries: Vec<Entry>,
}

/// A log that is borrowed, with the same limits.
#[derive(Clone, Copy)]
pub struct LogRef<'a> {
    pub sync_point: u32,
    pub checkpoint: Option<&'a Checkpoint>,
    pub entries: &'a [Entry],
}

// By hand, so that a crate with a log proves nothing on how its parts are dropped.
impl Drop for Log {
    fn drop(self) {
        let Log {
            sync_point: _sync_point,
            checkpoint: _checkpoint,
            entries: _entries,
        } = self;
    }
}

impl Model for Log {
    ghost use Rattle.std.specs.Prelude.{length, ◌≤◌, ◌+◌};
    ghost use Rattle.nop_types.specs.declared.limits.TheConstants.{MAX_SLOTS, MAX_LENGTH};
    ghost use Rattle.nop_types.specs.Logs as logs;

    ghost Value = { logs.Log };

    ghost view = { λ l. record {
      sync_point = l.sync_point;
      checkpoint = l.checkpoint;
      entries = l.entries.items;
    } };

    ghost invariant = { λ l. (length l.entries.items ≤ MAX_SLOTS)
        × (l.sync_point + length l.entries.items ≤ MAX_LENGTH) };
}

fn cloned(alloc: Global, entries: &[Entry]) -> Result<Vec<Entry>, NoMemory>
    ensures { IfOk result (λ copy. copy.items ≡ entries.now) }
{
    let mut copy = Vec::with_capacity(alloc, entries.len())?;
    for entry in entries {
        copy.push(entry.try_clone()?)?;
    }
    Ok(copy)
}

impl Log {
    /// A log of these parts, without a copy.
    pub fn new(sync_point: u32, checkpoint: Option<Checkpoint>, entries: Vec<Entry>) -> Log
        requires room { length entries.items ≤ MAX_SLOTS }
        requires limit { sync_point + length entries.items ≤ MAX_LENGTH }
        ensures { result ≡ record {
          sync_point = sync_point;
          checkpoint = checkpoint;
          entries = entries.items;
        } }
    {
        Log {
            sync_point,
            checkpoint,
            entries,
        }
    }

    pub fn sync_point(&self) -> u32
        ensures { result ≡ self.now.sync_point }
    {
        self.sync_point
    }

    pub fn checkpoint(&self) -> Option<&Checkpoint>
        ensures { option_copied result ≡ self.now.checkpoint }
    {
        self.checkpoint.as_ref()
    }

    pub fn entries(&self) -> &[Entry]
        ensures entries { result.now ≡ self.now.entries }
        ensures len { length self.now.entries ≤ MAX_SLOTS }
        ensures limit { self.now.sync_point + length self.now.entries ≤ MAX_LENGTH }
    {
        &self.entries
    }

    /// How many slots there are, those up to the sync point among them.
    pub fn len(&self) -> u32
        ensures len { result ≡ self.now.sync_point + length self.now.entries }
        ensures room { length self.now.entries ≤ MAX_SLOTS }
        ensures limit { result ≤ MAX_LENGTH }
    {
        self.sync_point + self.entries.len() as u32
    }

    /// The checkpoint, if there is one, and the entries, without a copy.
    pub fn into_parts(self) -> (Option<Checkpoint>, Vec<Entry>)
        ensures checkpoint { result.0 ≡ self.checkpoint }
        ensures entries { result.1.items ≡ self.entries }
        ensures len { length self.entries ≤ MAX_SLOTS }
        ensures limit { self.sync_point + length self.entries ≤ MAX_LENGTH }
    {
        let Log {
            sync_point: _sync_point,
            checkpoint,
            entries,
        } = self;
        (checkpoint, entries)
    }

    pub fn as_ref(&self) -> LogRef<'_>
        ensures log { log_of result ≡ self.now }
        ensures len { length self.now.entries ≤ MAX_SLOTS }
        ensures limit { self.now.sync_point + length self.now.entries ≤ MAX_LENGTH }
    {
        LogRef {
            sync_point: self.sync_point,
            checkpoint: self.checkpoint.as_ref(),
            entries: &self.entries,
        }
    }

    pub fn try_clone(&self) -> Result<Log, NoMemory>
        ensures { IfOk result (λ l. l ≡ self.now) }
    {
        self.as_ref().to_log(*self.entries.allocator())
    }
}

impl LogRef<'_> {
    /// A copy.
    pub fn to_log(self, alloc: Global) -> Result<Log, NoMemory>
        requires room { length self.entries.now ≤ MAX_SLOTS }
        requires limit { self.sync_point + length self.entries.now ≤ MAX_LENGTH }
        ensures { IfOk result (λ log. log ≡ log_of self.entry) }
    {
        let entries = cloned(alloc, self.entries)?;
        let checkpoint = try_clone_checkpoint(self.checkpoint)?;
        Ok(Log::new(self.sync_point, checkpoint, entries))
    }
}
