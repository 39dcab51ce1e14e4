ghost use Rattle.std.specs.Prelude.{◌≡◌, ◌<◌, ◌≤◌, ◌+◌, ◌==◌, find, length, nat_lt, count_by, map, false};
ghost use Rattle.std.specs.VecDeque.{deque_len, deque_capacity};
ghost use Rattle.std.specs.Prelude.{None, Some, IsTrue, OnOk, OnErr, IfOk, option_map};
ghost use Rattle.std.specs.List.{list_any, position};
ghost use Rattle.std.specs.Option.{option_copied};
ghost use Rattle.nop_types.specs.declared.limits.TheConstants.{WINDOW};
ghost use Rattle.nop_types.specs.Lists.{is_in, any_above};
ghost use Rattle.nop_types.specs.Tables as tables;
ghost use Rattle.nop_types.specs.declared.checkpoint.Answered.{Answered as Result};
ghost use Rattle.nop_types.specs.Tables.{kept_ids, result_in, is_new_to, account_with, with_answered, without};
ghost use Rattle.nop_types.specs.Checkpoints.{is_kept};
ghost use Rattle.client_table.specs.Accounts.{is_far};
ghost use Rattle.client_table.specs.Table.{verdict_on, removed_from, account_before};
ghost use Rattle.client_table.specs.Judged.{verdict_of};
ghost use Rattle.client_table.specs.Removing.{removed_of};

use crate::dropped::{Dropped, put_front, take_front};
use crate::judged::Judged;
use nop_types::{Answered, NoMemory, WINDOW};
use std::alloc::Global;
use std::collections::VecDeque;
use std::marker::Model;

/// The most results that are kept for a client.
const MAX_KEPT: usize = 8;

const _: () = prove!(MAX_KEPT as u64 == WINDOW);

/// What is kept for a client: its greatest executed id, and the results of its executed ids less than a window behind it, ids ascending.
#[derive(Drop)]
pub struct Account {
    greatest: u64,
    kept: VecDeque<Answered>,
}

/// What an account was before a result was kept: its greatest id, and the results that left the window.
#[derive(Drop)]
pub struct Removed {
    pub greatest: u64,
    pub dropped: Dropped,
}

impl Model for Account {
    ghost use Rattle.std.specs.Prelude.{◌≤◌, IsTrue};
    ghost use Rattle.std.specs.VecDeque.{deque_capacity};
    ghost use Rattle.nop_types.specs.declared.limits.TheConstants.{WINDOW};
    ghost use Rattle.nop_types.specs.Tables as tables;
    ghost use Rattle.nop_types.specs.Checkpoints.{is_kept};

    ghost Value = { tables.Account };

    ghost coded = { tables.account_code };

    ghost view = { λ a. record { greatest = a.greatest; kept = a.kept.items } };

    ghost invariant = { λ a. IsTrue (is_kept (record {
      greatest = a.greatest;
      kept = a.kept.items;
    })) × (WINDOW ≤ deque_capacity a.kept) };
}

/// Whether the id is less than a window behind the greatest one.
fn is_near(greatest: u64, id: u64) -> bool
    ensures { result ≡ nat_lt greatest (id + WINDOW) }
{
    greatest.saturating_sub(id) < WINDOW
}

fn has_result(kept: &VecDeque<Answered>, id: u64) -> bool
    ensures { result ≡ list_any (λ a. a.id == id) kept.now.items }
{
    kept.iter().any(|a| a.id == id)
}

/// Whether a result is kept with the id.
fn has(kept: &VecDeque<Answered>, id: u64) -> bool
    ensures { result ≡ is_in (kept_ids kept.now.items) id }
{
    has_result(kept, id)
}

fn first_result(kept: &VecDeque<Answered>, id: u64) -> Option<&Answered>
    ensures { option_copied result ≡ find (λ a. a.id == id) kept.now.items }
{
    kept.iter().find(|a| a.id == id)
}

fn first_near(kept: &VecDeque<Answered>, greatest: u64) -> Option<usize>
    ensures { result ≡ position (λ k. nat_lt greatest (k.id + WINDOW)) kept.now.items }
{
    kept.iter().position(|k| is_near(greatest, k.id))
}

/// Takes the result with an id out.
fn take_out(kept: &mut VecDeque<Answered>, id: u64)
    ensures items { kept.new.items ≡ without id kept.old.items }
    ensures capacity { deque_capacity kept.new ≡ deque_capacity kept.old }
{
    kept.retain(|a| a.id != id);
}

fn first_above(kept: &VecDeque<Answered>, id: u64) -> Option<usize>
    ensures { result ≡ position (λ k. nat_lt id k.id) kept.now.items }
{
    kept.iter().position(|k| id < k.id)
}

/// Puts a result among the others, of which none is above the greatest id.
fn put(kept: &mut VecDeque<Answered>, greatest: u64, answered: Answered)
    requires others { any_above (kept_ids kept.old.items) greatest ≡ false }
    requires room { deque_len kept.old < deque_capacity kept.old }
    ensures items { kept.new.items ≡ with_answered answered kept.old.items }
    ensures capacity { deque_capacity kept.old ≤ deque_capacity kept.new }
{
    if answered.id > greatest {
        kept.push_back_reserved(answered);
        return;
    }
    let place = first_above(kept, answered.id).unwrap_or(kept.len());
    kept.insert(place, answered).unwrap();
}

impl Account {
    /// Of a client's first result.
    pub fn first(alloc: Global, answered: Answered) -> Result<Account, NoMemory>
        ensures { IfOk result (λ a. a ≡ account_with WINDOW None answered) }
    {
        let mut kept = VecDeque::with_capacity(alloc, MAX_KEPT)?;
        let greatest = answered.id;
        kept.push_back(answered).unwrap();
        Ok(Account { greatest, kept })
    }

    /// Of a client that was saved.
    pub fn load(greatest: u64, kept: Vec<Answered>) -> Result<Account, NoMemory>
        requires { IsTrue (is_kept (record { greatest = greatest; kept = kept.items })) }
        ensures { IfOk result (λ a. a ≡ record { greatest = greatest; kept = kept.items }) }
    {
        let mut kept = VecDeque::from(kept);
        let room = MAX_KEPT.saturating_sub(kept.len());
        kept.reserve(room)?;
        Ok(Account { greatest, kept })
    }

    pub fn greatest(&self) -> u64
        ensures { result ≡ self.now.greatest }
    {
        self.greatest
    }

    /// A copy of what is kept.
    pub fn try_clone_kept(&self, alloc: Global) -> Result<Vec<Answered>, NoMemory>
        ensures { IfOk result (λ copy. copy.items ≡ self.now.kept) }
    {
        let mut copy = Vec::with_capacity(alloc, self.kept.len())?;
        for answered in &self.kept {
            copy.push(answered.try_clone()?)?;
        }
        Ok(copy)
    }

    /// The result that is kept with the id. Mostly it is the last one.
    fn find(&self, id: u64) -> Option<&Answered>
        ensures { option_map (λ a. a.result) (option_copied result)
            ≡ result_in self.now.kept id }
    {
        if let Some(last) = self.kept.back() {
            if last.id == id {
                return Some(last);
            }
        }
        first_result(&self.kept, id)
    }

    /// How many results a greatest id leaves behind.
    fn count_far(&self, greatest: u64) -> usize
        ensures count { result ≡ count_by (is_far greatest) self.now.kept }
        ensures most { result ≤ length self.now.kept }
    {
        first_near(&self.kept, greatest).unwrap_or(self.kept.len())
    }

    /// Whether the id is new.
    pub fn is_new(&self, id: u64) -> bool
        ensures { result ≡ is_new_to WINDOW (Some self.now) id }
    {
        id > self.greatest || (is_near(self.greatest, id) && !has(&self.kept, id))
    }

    /// Compares an id with those that were executed.
    pub fn judge(&self, id: u64) -> Judged<'_>
        ensures { verdict_of result ≡ verdict_on (Some self.now) id }
    {
        if id > self.greatest {
            return Judged::Fresh;
        }
        match self.find(id) {
            Some(answered) => Judged::Same(&answered.result),
            None => {
                if is_near(self.greatest, id) {
                    Judged::Fresh
                } else {
                    Judged::Stale
                }
            }
        }
    }

    /// Keeps a result whose id is new, and gives what undoes this.
    pub fn keep(&mut self, alloc: Global, answered: Answered) -> Result<Removed, NoMemory>
        requires { IsTrue (is_new_to WINDOW (Some self.old) answered.id) }
        ensures account { OnOk result (self.new ≡ account_with WINDOW (Some self.old) answered) }
        ensures removed { IfOk result (λ r. removed_of r ≡ removed_from self.old answered.id) }
        ensures err { OnErr result (self.new ≡ self.old) }
    {
        let before = self.greatest;
        let greatest = before.max(answered.id);
        let count = self.count_far(greatest);
        let dropped = take_front(alloc, &mut self.kept, count)?;
        put(&mut self.kept, before, answered);
        self.greatest = greatest;
        Ok(Removed {
            greatest: before,
            dropped,
        })
    }

    /// Takes the result with the id out again, and puts those that left before it in their place. It takes no memory.
    pub fn unkeep(&mut self, id: u64, removed: Removed)
        requires { IsTrue (is_kept (account_before self.old id (removed_of removed))) }
        ensures { self.new ≡ account_before self.old id (removed_of removed) }
    {
        let Removed { greatest, dropped } = removed;
        take_out(&mut self.kept, id);
        put_front(&mut self.kept, dropped);
        self.greatest = greatest;
    }
}
