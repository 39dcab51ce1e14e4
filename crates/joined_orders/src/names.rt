ghost use Rattle.std.specs.Prelude.{◌≡◌, ◌++◌, ◌∷◌, [], List, ℕ, Some, slice_get, true, false, IfOk};
ghost use Rattle.joined_orders.specs.Names.{names_of};
ghost use Rattle.nop_types.specs.Lists.{Has};

use indexmap::IndexSet;
use nop_types::NoMemory;
use std::alloc::Global;

/// The names of parts, numbered in the order in which they came.
#[derive(Drop)]
pub(crate) struct Names<'a> {
    names: IndexSet<&'a [u8]>,
}

impl<'a> Names<'a> {
    pub(crate) fn new(alloc: Global) -> Names<'a>
        ensures { names_of result ≡ [] }
    {
        Names {
            names: IndexSet::new(alloc),
        }
    }

    /// The number of a part, and whether it is new.
    pub(crate) fn number(&mut self, part: &'a [u8]) -> Result<(usize, bool), NoMemory>
        ensures there { IfOk result (λ r. slice_get (names_of self.new) r.0 ≡ Some part.now) }
        ensures known { IfOk result (λ r. r.1 ≡ false
            → names_of self.new ≡ names_of self.old) }
        ensures added { IfOk result (λ r. r.1 ≡ true
            → names_of self.new ≡ names_of self.old ++ part.now ∷ []) }
        ensures was_new { IfOk result (λ r. r.1 ≡ true
            → Has (names_of self.old) part.now → ⊥) }
    {
        Ok(self.names.insert_full(part)?)
    }
}
