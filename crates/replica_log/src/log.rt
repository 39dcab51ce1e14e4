ghost use Rattle.std.specs.Prelude.{
  ◌≡◌,
  ◌+◌,
  ◌<◌,
  ◌≤◌,
  ◌↔◌,
  Some,
  true,
  length,
  drop,
  IsSome,
  IfOk,
  OnOk,
  OnErr,
  option_map,
};
ghost use Rattle.std.specs.Option.{option_copied};
ghost use Rattle.nop_types.specs.BorrowedLogs.{log_of};
ghost use Rattle.nop_types.specs.Logs.{
  Trimmed,
  empty,
  whole,
  length_of,
  has_room,
  entry_at,
  between,
  above,
  further,
  first,
  appended,
  with_noop,
  adopted,
  overlaid,
};

use nop_types::{Checkpoint, Entry, Log, LogRef, MAX_LENGTH, MAX_SLOTS, NoMemory, lay_over};
use std::alloc::Global;
use std::marker::Model;
use std::mem;

/// The log of a replica: its sync point, the checkpoint that is in place of the entries up to there, and at most `MAX_SLOTS`
/// entries above. Slots count from 1, and there are at most `MAX_LENGTH`.
#[derive(Drop)]
pub struct ReplicaLog {
    sync_point: u32,
    checkpoint: Option<Checkpoint>,
    entries: Vec<Entry>,
}

impl Model for ReplicaLog {
    ghost use Rattle.std.specs.Prelude.{length, ◌≤◌, ◌+◌};
    ghost use Rattle.nop_types.specs.declared.limits.TheConstants.{MAX_SLOTS, MAX_LENGTH};
    ghost use Rattle.nop_types.specs.Logs.{Log};

    ghost Value = { Log };

    ghost view = { λ l. record {
      sync_point = l.sync_point;
      checkpoint = l.checkpoint;
      entries = l.entries.items;
    } };

    ghost invariant = { λ l. (length l.entries.items ≤ MAX_SLOTS)
        × (l.sync_point + length l.entries.items ≤ MAX_LENGTH) };
}

/// Drops the first `count` entries, or all where there are fewer.
fn drop_prefix(entries: &mut Vec<Entry>, count: u32)
    ensures { entries.new.items ≡ drop count entries.old.items }
{
    let count = entries.len().min(count as usize);
    entries.drain(..count);
}

impl ReplicaLog {
    /// No entries, at sync point 0.
    pub fn new(alloc: Global) -> ReplicaLog
        ensures { result ≡ empty }
    {
        ReplicaLog {
            sync_point: 0,
            checkpoint: None,
            entries: Vec::new(alloc),
        }
    }

    /// The slots up to this one are synchronised; a checkpoint is in place of their entries.
    pub fn sync_point(&self) -> u32
        ensures { result ≡ self.now.sync_point }
    {
        self.sync_point
    }

    pub fn checkpoint(&self) -> Option<&Checkpoint>
        ensures { option_copied result ≡ self.now.checkpoint }
    {
        self.checkpoint.as_ref()
    }

    /// The last slot.
    pub fn len(&self) -> u32
        ensures len { result ≡ length_of Trimmed self.now }
        ensures room { length self.now.entries ≤ MAX_SLOTS }
        ensures limit { result ≤ MAX_LENGTH }
    {
        self.sync_point + self.entries.len() as u32
    }

    /// Whether one more entry can be appended.
    pub fn has_room(&self) -> bool
        ensures { result ≡ has_room Trimmed self.now }
    {
        self.entries.len() < MAX_SLOTS && self.len() < MAX_LENGTH
    }

    /// The entries above the sync point, in the order of their slots.
    pub fn entries(&self) -> &[Entry]
        ensures entries { result.now ≡ self.now.entries }
        ensures room { length self.now.entries ≤ MAX_SLOTS }
        ensures limit { length_of Trimmed self.now ≤ MAX_LENGTH }
    {
        &self.entries
    }

    /// What is in a slot above the sync point.
    pub fn at(&self, slot: u32) -> Option<&Entry>
        ensures entry { option_map (λ e. e.now) result ≡ entry_at Trimmed self.now slot }
        ensures some { IsSome result
            ↔ ((self.now.sync_point < slot) × (slot ≤ length_of Trimmed self.now)) }
    {
        let place = slot.checked_sub(self.sync_point)?.checked_sub(1)?;
        self.entries.get(place as usize)
    }

    /// The log up to a slot, no lower than the sync point, for a message.
    pub fn first(&self, slot: u32) -> LogRef<'_>
        requires low { self.now.sync_point ≤ slot }
        requires there { slot ≤ length_of Trimmed self.now }
        ensures { log_of result ≡ first Trimmed self.now slot }
    {
        LogRef {
            sync_point: self.sync_point,
            checkpoint: self.checkpoint.as_ref(),
            entries: &self.entries[..(slot - self.sync_point) as usize],
        }
    }

    /// All of it, for a message.
    pub fn as_ref(&self) -> LogRef<'_>
        ensures { log_of result ≡ self.now }
    {
        LogRef {
            sync_point: self.sync_point,
            checkpoint: self.checkpoint.as_ref(),
            entries: &self.entries,
        }
    }

    /// A copy.
    pub fn copy(&self) -> Result<Log, NoMemory>
        ensures { IfOk result (λ log. log ≡ self.now) }
    {
        self.as_ref().to_log(*self.entries.allocator())
    }

    pub fn append(&mut self, entry: Entry) -> Result<(), NoMemory>
        requires { has_room Trimmed self.old ≡ true }
        ensures ok { OnOk result (self.new ≡ appended self.old entry) }
        ensures err { OnErr result (self.new ≡ self.old) }
    {
        self.entries.push(entry)?;
        Ok(())
    }

    /// Puts a NO-OP into a slot above the sync point, over whatever stands there.
    pub fn put_noop(&mut self, slot: u32)
        requires above { self.old.sync_point < slot }
        requires there { slot ≤ length_of Trimmed self.old }
        ensures { self.new ≡ with_noop Trimmed self.old slot }
    {
        self.entries[(slot - self.sync_point) as usize - 1] = Entry::NoOp;
    }

    /// The sync point rises to a slot, with the checkpoint of the slots up to there. The entries between are handed out, as a log
    /// without a checkpoint. On an error the log is as before.
    pub fn raise(&mut self, slot: u32, checkpoint: Checkpoint) -> Result<Log, NoMemory>
        requires low { self.old.sync_point ≤ slot }
        requires there { slot ≤ length_of Trimmed self.old }
        ensures between { IfOk result (λ log. log ≡ whole 0 (between Trimmed self.old slot)) }
        ensures ok { OnOk result (self.new ≡ record {
          sync_point = slot;
          checkpoint = Some checkpoint;
          entries = above Trimmed self.old slot;
        }) }
        ensures err { OnErr result (self.new ≡ self.old) }
    {
        let count = (slot - self.sync_point) as usize;
        let kept = self.entries.split_off(count)?;
        let passed = mem::replace(&mut self.entries, kept);
        self.sync_point = slot;
        self.checkpoint = Some(checkpoint);
        Ok(Log::new(0, None, passed))
    }

    /// The greater sync point of the two logs is the own one then, with its checkpoint. The own entries up to there go; the result
    /// is the other log's entries above.
    fn take_sync_point(&mut self, log: Log) -> Vec<Entry>
        ensures own { let g = further log self.old in self.new ≡ record g {
          entries = above Trimmed self.old g.sync_point;
        } }
        ensures other { result.items ≡ above Trimmed log (further log self.old).sync_point }
        ensures room { length result.items ≤ MAX_SLOTS }
        ensures limit { self.new.sync_point + length result.items ≤ MAX_LENGTH }
    {
        let sync_point = log.sync_point();
        let (checkpoint, mut entries) = log.into_parts();
        if sync_point > self.sync_point {
            drop_prefix(&mut self.entries, sync_point - self.sync_point);
            self.sync_point = sync_point;
            self.checkpoint = checkpoint;
        } else {
            drop_prefix(&mut entries, self.sync_point - sync_point);
        }
        entries
    }

    /// Takes another log: all of it where its sync point is greater than the own one, else its entries above the own sync point.
    #[tactic(auto, using(crate::proofs::Adopted::trimmed_adopted))]
    pub fn adopt(&mut self, log: Log)
        ensures { self.new ≡ adopted Trimmed log self.old }
    {
        self.entries = self.take_sync_point(log);
    }

    /// Takes another log likewise, but the own entries above its end stay. On an error the log is as before.
    #[tactic(auto, using(crate::proofs::Adopted::trimmed_laid_over))]
    pub fn overlay(&mut self, log: Log) -> Result<(), NoMemory>
        ensures ok { OnOk result (self.new ≡ overlaid Trimmed log self.old) }
        ensures err { OnErr result (self.new ≡ self.old) }
    {
        let entries = self.take_sync_point(log);
        lay_over(&mut self.entries, entries);
        Ok(())
    }
}
