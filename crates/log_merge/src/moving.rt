ghost use Rattle.std.specs.Prelude.{
  ◌≡◌,
  ◌≤◌,
  ◌+◌,
  ◌<◌,
  cond,
  length,
  filter,
  map,
  IfOk,
  OnOk,
};
ghost use Rattle.std.specs.List.Sorted.{IsPermutation, IsNonDecreasingBy};
ghost use Rattle.nop_types.specs.Logs.{Trimmed, above};
ghost use Rattle.nop_types.specs.PlainChanges.{plain};
ghost use Rattle.nop_types.specs.Views.{is_view};
ghost use Rattle.log_merge.specs.Merging.{merged};
ghost use Rattle.log_merge.specs.Pairs.{put_noop, with_noops, of_logs};
ghost use Rattle.log_merge.specs.Merged.{HasDistinctSenders};

use crate::choosing::best;
use nop_types::{Change, Checkpoint, Entry, Log, MAX_LENGTH, MAX_SLOTS, NoMemory, View, lay_over};
use std::alloc::Global;

/// Puts a NO-OP where another log has one.
fn put_noop(entries: &mut Vec<Entry>, place: usize, other: &Entry)
    requires { place < length entries.old.items }
    ensures { entries.new.items ≡ put_noop entries.old.items place other.now }
{
    if let Entry::NoOp = other {
        entries[place] = Entry::NoOp;
    }
}

/// Puts a NO-OP wherever another log has one.
fn put_noops(entries: &mut Vec<Entry>, others: &[Entry])
    ensures { entries.new.items ≡ with_noops entries.old.items others.now }
{
    let end = entries.len().min(others.len());
    for place in 0..end {
        put_noop(entries, place, &others[place]);
    }
}

/// The merge of two logs, that of the lower sender first.
fn of_logs(mut lower: Vec<Entry>, mut higher: Vec<Entry>) -> Vec<Entry>
    ensures { result.items ≡ of_logs lower.items higher.items }
{
    put_noops(&mut lower, &higher);
    lay_over(&mut higher, lower);
    higher
}

fn sort_by_sender(changes: &mut Vec<Change>) -> Result<(), NoMemory>
    ensures same { IsPermutation changes.old.items changes.new.items }
    ensures ascend { OnOk result (IsNonDecreasingBy (λ c. c.sender) changes.new.items) }
{
    changes.sort_by_key(|change| change.sender)?;
    Ok(())
}

/// The checkpoint of a log, and its entries above a slot. The others are dropped.
fn split_above(log: Log, slot: u32) -> (Option<Checkpoint>, Vec<Entry>)
    requires { slot ≤ MAX_LENGTH }
    ensures checkpoint { result.0 ≡ log.checkpoint }
    ensures entries { result.1.items ≡ above Trimmed log slot }
    ensures room { length result.1.items ≤ MAX_SLOTS }
    ensures limit { slot + length result.1.items ≤ MAX_LENGTH }
{
    let prefix = slot.saturating_sub(log.sync_point()) as usize;
    let (checkpoint, mut entries) = log.into_parts();
    let end = prefix.min(entries.len());
    entries.drain(..end);
    (checkpoint, entries)
}

/// The own checkpoint of the best change, else the one that is there.
fn one_of(is_best: bool, own: Option<Checkpoint>, there: Option<Checkpoint>) -> Option<Checkpoint>
    ensures { result ≡ cond is_best own there }
{
    if is_best { own } else { there }
}

/// The merge of the changes with this last normal view, whose entries and checkpoint are moved and not copied.
pub fn merge_moved(alloc: Global, mut changes: Vec<Change>, view: View) -> Result<Log, NoMemory>
    requires { HasDistinctSenders (map plain changes.items) }
    ensures { IfOk result (λ l. l
        ≡ merged Trimmed (filter (λ c. is_view c.last_normal view) changes.items)) }
{
    let Some(best) = best(&changes, view) else {
        return Ok(Log::new(0, None, Vec::new(alloc)));
    };
    let (sender, sync_point) = (best.sender, best.log.sync_point());
    sort_by_sender(&mut changes)?;
    let mut checkpoint = None;
    let mut entries = Vec::new(alloc);
    while let Some(change) = changes.pop() {
        if change.last_normal.is(view) {
            let (own, rest) = split_above(change.log, sync_point);
            entries = of_logs(rest, entries);
            checkpoint = one_of(change.sender == sender, own, checkpoint);
        }
    }
    Ok(Log::new(sync_point, checkpoint, entries))
}
