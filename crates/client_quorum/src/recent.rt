ghost use Rattle.std.specs.Prelude.{◌≡◌, ◌≤◌, ◌+◌, ◌++◌, ◌∷◌, [], length, nat_lt, OnOk, OnErr};
ghost use Rattle.nop_types.specs.declared.limits.TheConstants.{WINDOW};
ghost use Rattle.std.specs.List.{AllByRecursion};
ghost use Rattle.std.specs.Option.{option_copied};
ghost use Rattle.client_quorum.specs.Opens.{AcceptFits, accepted_in, recent_at};

use nop_types::{Accept, NoMemory, WINDOW};
use std::alloc::Global;
use std::marker::Model;

/// The acceptances of a client's last ids, in the order in which they came. The result of each is within its limit.
#[derive(Drop)]
pub struct Recent {
    accepts: Vec<Accept>,
}

impl Model for Recent {
    ghost use Rattle.std.specs.Prelude.{List};
    ghost use Rattle.std.specs.List.{AllByRecursion};
    ghost use Rattle.nop_types.specs.declared.output.Accept.{Accept};
    ghost use Rattle.client_quorum.specs.Opens.{AcceptFits};

    ghost Value = { List Accept };

    ghost view = { λ r. r.accepts.items };

    ghost invariant = { λ r. AllByRecursion AcceptFits r.accepts.items };
}

/// Whether an id is less than a window behind the last one.
fn is_recent(last_id: u64, id: u64) -> bool
    ensures { result ≡ nat_lt last_id (id + WINDOW) }
{
    last_id.saturating_sub(id) < WINDOW
}

/// Forgets the acceptances of ids a window behind the last one.
fn forget_in(accepts: &mut Vec<Accept>, last_id: u64)
    requires { AllByRecursion AcceptFits accepts.old.items }
    ensures items { accepts.new.items ≡ recent_at last_id accepts.old.items }
    ensures all { AllByRecursion AcceptFits accepts.new.items }
{
    accepts.retain(|a| is_recent(last_id, a.id));
}

impl Recent {
    pub fn new(alloc: Global) -> Recent
        ensures { result ≡ [] }
    {
        Recent {
            accepts: Vec::new(alloc),
        }
    }

    pub fn as_slice(&self) -> &[Accept]
        ensures accepts { result.now ≡ self.now }
        ensures fit { AllByRecursion AcceptFits self.now }
    {
        &self.accepts
    }

    /// The acceptance of an id.
    pub fn accepted(&self, id: u64) -> Option<&Accept>
        ensures { option_copied result ≡ accepted_in self.now id }
    {
        self.accepts.iter().find(|a| a.id == id)
    }

    /// Keeps an acceptance.
    pub fn push(&mut self, accept: Accept) -> Result<(), NoMemory>
        requires { AcceptFits accept }
        ensures ok { OnOk result (self.new ≡ self.old ++ accept ∷ []) }
        ensures err { OnErr result (self.new ≡ self.old) }
    {
        self.accepts.push(accept)?;
        Ok(())
    }

    /// Forgets those of ids a window behind the last one.
    pub fn forget(&mut self, last_id: u64)
        ensures { self.new ≡ recent_at last_id self.old }
    {
        forget_in(&mut self.accepts, last_id);
    }
}
