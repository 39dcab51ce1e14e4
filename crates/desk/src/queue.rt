//! The ops that wait for a core.

ghost use Rattle.std.specs.Prelude.{◌≡◌, ◌++◌, ◌∷◌, [], length, OnOk, OnErr};
ghost use Rattle.desk.specs.Desks.{first_queued, after_first, without_queued};

use crate::submitter::Queued;
use nop_types::NoMemory;
use std::alloc::Global;
use std::collections::VecDeque;
use std::marker::Model;

/// The ops that wait for a core, in the order of their tickets.
#[derive(Drop)]
pub struct Queue {
    ops: VecDeque<Queued>,
}

impl Model for Queue {
    ghost use Rattle.std.specs.Prelude.{List};
    ghost use Rattle.desk.specs.declared.submitter.Queued.{Queued};

    ghost Value = { List Queued };

    ghost view = { λ q. q.ops.items };
}

fn leave_in(ops: &mut VecDeque<Queued>, ticket: u64)
    ensures { ops.new.items ≡ without_queued ops.old.items ticket }
{
    ops.retain(|q| q.ticket != ticket);
}

impl Queue {
    pub(crate) fn new(alloc: Global) -> Queue
        ensures { result ≡ [] }
    {
        Queue {
            ops: VecDeque::new(alloc),
        }
    }

    pub fn len(&self) -> usize
        ensures { result ≡ length self.now }
    {
        self.ops.len()
    }

    pub(crate) fn push(&mut self, queued: Queued) -> Result<(), NoMemory>
        ensures ok { OnOk result (self.new ≡ self.old ++ queued ∷ []) }
        ensures err { OnErr result (self.new ≡ self.old) }
    {
        self.ops.push_back(queued)?;
        Ok(())
    }

    /// Takes the first op out.
    pub(crate) fn take_first(&mut self) -> Option<Queued>
        ensures first { result ≡ first_queued self.old }
        ensures rest { self.new ≡ after_first self.old }
    {
        self.ops.pop_front()
    }

    /// The user of a ticket left: its op is taken out.
    pub(crate) fn leave(&mut self, ticket: u64)
        ensures { self.new ≡ without_queued self.old ticket }
    {
        leave_in(&mut self.ops, ticket);
    }
}
