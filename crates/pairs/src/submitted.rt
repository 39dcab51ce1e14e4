ghost use Rattle.std.specs.Prelude.{◌≡◌, ℕ, Some, None, OnOk, if◌then◌else◌};
ghost use Rattle.pairs.specs.Submitted.{same_pair, place_in};

use nop_types::NoMemory;
use std::alloc::Global;
use std::collections::BTreeMap;

/// The place of the claim that submits each client and id.
#[derive(Drop)]
pub(crate) struct Submitted {
    places: BTreeMap<(u32, u64), usize>,
}

impl Submitted {
    pub(crate) fn new(alloc: Global) -> Submitted
        ensures { (p : ℕ × ℕ) → place_in result p ≡ None }
    {
        Submitted {
            places: BTreeMap::new(alloc),
        }
    }

    pub(crate) fn find(&self, client: u32, id: u64) -> Option<usize>
        ensures { result ≡ place_in self.now (client, id) }
    {
        self.places.get(&(client, id)).copied()
    }

    /// Notes a place for a client and id, in the place of one that it has.
    pub(crate) fn note(&mut self, client: u32, id: u64, place: usize) -> Result<(), NoMemory>
        ensures { OnOk result ((p : ℕ × ℕ) → place_in self.new p
            ≡ (if same_pair (client, id) p then Some place else place_in self.old p)) }
    {
        self.places.insert((client, id), place)?;
        Ok(())
    }
}
