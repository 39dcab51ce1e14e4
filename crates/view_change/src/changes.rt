ghost use Rattle.std.specs.Prelude.{◌≡◌, ◌≤◌, ◌↔◌, length, nat_lt, IfOk, OnOk, OnErr};
ghost use Rattle.view_change.specs.declared.starting.Step.TheVariants.{Waiting};
ghost use Rattle.view_change.specs.Gathering.{
  entered,
  change_sender,
  has_sender,
  change_added,
  started,
  step_of,
};

use crate::starting::{start_moved, start_of};
use crate::{Start, Step};
use nop_types::{Change, NoMemory, View};
use std::alloc::Global;
use std::marker::Model;

/// The changes that the leader of a new view has: its own, and the first one of each other sender.
#[derive(Drop)]
pub struct Changes {
    alloc: Global,
    view: View,
    f: u8,
    changes: Vec<Change>,
}

impl Model for Changes {
    ghost use Rattle.std.specs.Prelude.{map};
    ghost use Rattle.nop_types.specs.declared.peer.Change.{Change};
    ghost use Rattle.nop_types.specs.PlainChanges.{plain};
    ghost use Rattle.log_merge.specs.Merged.{HasDistinctSenders};
    ghost use Rattle.view_change.specs.Gathering.{Gathering};

    ghost Value = { Gathering Change };

    ghost view = { λ g. record { view = g.view; f = g.f; changes = g.changes.items } };

    ghost invariant = { λ g. HasDistinctSenders (map plain g.changes.items) };
}

fn has_sender(changes: &[Change], sender: u8) -> bool
    ensures { result ≡ has_sender change_sender changes.now sender }
{
    for change in changes {
        if change.sender == sender {
            return true;
        }
    }
    false
}

impl Changes {
    /// The leader of a view begins with its own change. The view is started with those of `f` others.
    pub fn enter(alloc: Global, view: View, f: u8, own: Change) -> Result<Changes, NoMemory>
        ensures { IfOk result (λ g. g ≡ entered view f own) }
    {
        let mut changes = Vec::new(alloc);
        changes.push(own)?;
        Ok(Changes {
            alloc,
            view,
            f,
            changes,
        })
    }

    /// What the changes that are there give.
    fn outcome(&self) -> Result<Step, NoMemory>
        ensures { IfOk result (λ s. s ≡ step_of self.now) }
    {
        if self.changes.len() <= self.f as usize {
            return Ok(Step::Waiting);
        }
        let started = start_of(self.alloc, self.view, &self.changes)?;
        Ok(Step::Started(started))
    }

    /// Takes a change, unless its sender's is there. Started, with what the view is started with, exactly where `f` + 1
    /// senders are there then.
    pub fn on_change(&mut self, change: Change) -> Result<Step, NoMemory>
        ensures after { OnOk result (self.new ≡ change_added change_sender self.old change) }
        ensures step { IfOk result (λ s.
            s ≡ step_of (change_added change_sender self.old change)) }
        ensures waits { IfOk result (λ s. (s ≡ Waiting) ↔
            (length (change_added change_sender self.old change).changes ≤ self.old.f)) }
        ensures err { OnErr result (self.new ≡ self.old) }
    {
        if has_sender(&self.changes, change.sender) {
            return self.outcome();
        }
        self.changes.push(change)?;
        let step = self.outcome();
        if step.is_err() {
            self.changes.pop();
        }
        step
    }

    /// Whether the view is started once this change is taken.
    pub fn is_enough_with(&self, change: &Change) -> bool
        ensures { result ≡ nat_lt self.now.f
            (length (change_added change_sender self.now change.now).changes) }
    {
        let len = self.changes.len();
        if has_sender(&self.changes, change.sender) {
            return len > self.f as usize;
        }
        len >= self.f as usize
    }

    /// What the view is started with from this change and those that are there, whose logs are moved and not copied.
    pub fn start_with(mut self, change: Change) -> Result<Start, NoMemory>
        ensures { IfOk result (λ s. s
            ≡ started self.view (change_added change_sender self change).changes) }
    {
        if has_sender(&self.changes, change.sender) {
            return start_moved(self.alloc, self.view, self.changes);
        }
        self.changes.push(change)?;
        start_moved(self.alloc, self.view, self.changes)
    }

    /// What a leader without others starts its view with.
    pub fn start_now(&mut self) -> Result<Start, NoMemory>
        requires { self.old.f ≡ 0 }
        ensures start { IfOk result (λ s. s
            ≡ started self.old.view self.old.changes) }
        ensures same { self.new ≡ self.old }
    {
        start_of(self.alloc, self.view, &self.changes)
    }
}
