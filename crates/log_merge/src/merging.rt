ghost use Rattle.std.specs.Prelude.{
  ◌≡◌,
  ◌≤◌,
  ◌+◌,
  suc,
  cond,
  filter,
  map,
  length,
  IfOk,
  None,
  option_map,
};
ghost use Rattle.nop_types.specs.Lists.{slot_of};
ghost use Rattle.nop_types.specs.Logs.{Trimmed, above};
ghost use Rattle.nop_types.specs.Views.{is_view};
ghost use Rattle.log_merge.specs.Merge.{choice_of, of_both, of_two, chosen, entry_of, longest, merge};
ghost use Rattle.log_merge.specs.Merging.{merged};
ghost use Rattle.log_merge.specs.Given.{given, rests};

use crate::choosing::best;
use nop_types::{
    Change, Entry, Log, LogRef, MAX_LENGTH, MAX_SLOTS, NoMemory, View, try_clone_checkpoint,
};
use std::alloc::Global;

/// an entry and its sender.
#[derive(Clone, Copy)]
struct Choice<'a> {
    sender: u8,
    entry: &'a Entry,
}

/// What a log has above a slot.
fn above(log: &Log, slot: u32) -> &[Entry]
    requires { slot ≤ MAX_LENGTH }
    ensures entries { result.now ≡ above Trimmed log.now slot }
    ensures room { length result.now ≤ MAX_SLOTS }
    ensures limit { slot + length result.now ≤ MAX_LENGTH }
{
    let entries = log.entries();
    let prefix = slot.saturating_sub(log.sync_point()) as usize;
    &entries[prefix.min(entries.len())..]
}

/// What a change with this last normal view tells of a place above the slot. The others tell nothing.
fn choice_at(change: &Change, view: View, slot: u32, place: usize) -> Option<Choice<'_>>
    requires { slot ≤ MAX_LENGTH }
    ensures { option_map given result ≡ cond (is_view change.now.last_normal view)
        (choice_of change.now.sender
        (slot_of (above Trimmed change.now.log slot) (suc place))) None }
{
    if !change.last_normal.is(view) {
        return None;
    }
    let entry = above(&change.log, slot).get(place)?;
    Some(Choice {
        sender: change.sender,
        entry,
    })
}

/// A NO-OP wins, else the lower sender.
fn of_both<'a>(a: Choice<'a>, b: Choice<'a>) -> Choice<'a>
    ensures { given result
        ≡ of_both a.entry.entry.now b.entry.entry.now (given a.entry) (given b.entry) }
{
    match (a.entry, b.entry) {
        (Entry::NoOp, _) => a,
        (Entry::Req(_), Entry::NoOp) => b,
        (Entry::Req(_), Entry::Req(_)) => { if a.sender <= b.sender { a } else { b } }
    }
}

fn of_two<'a>(a: Option<Choice<'a>>, b: Option<Choice<'a>>) -> Option<Choice<'a>>
    ensures { option_map given result
        ≡ of_two (option_map given a.entry) (option_map given b.entry) }
{
    match (a, b) {
        (Some(a), Some(b)) => Some(of_both(a, b)),
        (Some(a), None) => Some(a),
        (None, b) => b,
    }
}

/// What wins at a place above the slot.
fn chosen(changes: &[Change], view: View, slot: u32, place: usize) -> Option<Choice<'_>>
    requires { slot ≤ MAX_LENGTH }
    ensures { option_map given result ≡ chosen (rests view slot changes.now) (suc place) }
{
    let mut won = None;
    for change in changes {
        won = of_two(won, choice_at(change, view, slot, place));
    }
    won
}

fn entry_at(changes: &[Change], view: View, slot: u32, place: usize) -> Result<Entry, NoMemory>
    requires { slot ≤ MAX_LENGTH }
    ensures { IfOk result (λ entry.
        entry ≡ entry_of (chosen (rests view slot changes.now) (suc place))) }
{
    match chosen(changes, view, slot, place) {
        Some(choice) => choice.entry.try_clone(),
        None => Ok(Entry::NoOp),
    }
}

/// How many entries the longest log has above the slot.
fn longest(changes: &[Change], view: View, slot: u32) -> usize
    requires { slot ≤ MAX_LENGTH }
    ensures value { result ≡ longest (rests view slot changes.now) }
    ensures room { result ≤ MAX_SLOTS }
    ensures limit { slot + result ≤ MAX_LENGTH }
{
    let mut most = 0;
    for change in changes {
        if change.last_normal.is(view) {
            most = most.max(above(&change.log, slot).len());
        }
    }
    most
}

/// The merge of what the changes with this last normal view have above the slot. Only the entries of the result are copied.
fn merged_above(
    alloc: Global,
    changes: &[Change],
    view: View,
    slot: u32,
) -> Result<Vec<Entry>, NoMemory>
    requires { slot ≤ MAX_LENGTH }
    ensures entries { IfOk result (λ v. v.items ≡ merge (rests view slot changes.now)) }
    ensures room { IfOk result (λ v. length v.items ≤ MAX_SLOTS) }
    ensures limit { IfOk result (λ v. slot + length v.items ≤ MAX_LENGTH) }
{
    let slots = longest(changes, view, slot);
    let mut entries = Vec::with_capacity(alloc, slots)?;
    for place in 0..slots {
        entries.push(entry_at(changes, view, slot, place)?)?;
    }
    Ok(entries)
}

/// The merge of the changes with this last normal view. The best one's checkpoint is copied, and the entries of the result.
pub fn merge_of_view(alloc: Global, changes: &[Change], view: View) -> Result<Log, NoMemory>
    ensures { IfOk result (λ l. l
        ≡ merged Trimmed (filter (λ c. is_view c.last_normal view) changes.now)) }
{
    let Some(best) = best(changes, view) else {
        return Ok(Log::new(0, None, Vec::new(alloc)));
    };
    let LogRef {
        sync_point,
        checkpoint,
        entries: _entries,
    } = best.log.as_ref();
    let entries = merged_above(alloc, changes, view, sync_point)?;
    let checkpoint = try_clone_checkpoint(checkpoint)?;
    Ok(Log::new(sync_point, checkpoint, entries))
}
