ghost use Rattle.std.specs.Prelude.{◌≡◌, ℕ, List, None, OnOk, OnErr};
ghost use Rattle.std.specs.Str.{bytes_eq};
ghost use Rattle.network.specs.Finding.{index_in, index_after};

use nop_types::NoMemory;
use std::alloc::Global;
use std::collections::HashMap;

/// The first index of each datagram that was sent, by its bytes.
#[derive(Drop)]
pub struct Index {
    alloc: Global,
    first: HashMap<Vec<u8>, u64>,
}

impl Index {
    pub fn new(alloc: Global) -> Index
        ensures { (bytes : List ℕ) → index_in result bytes ≡ None }
    {
        Index {
            alloc,
            first: HashMap::new(alloc),
        }
    }

    /// The first index of these bytes.
    pub fn find(&self, bytes: &[u8]) -> Option<u64>
        ensures { result ≡ index_in self.now bytes.now }
    {
        self.first.get(bytes).copied()
    }

    /// Notes a datagram behind those that were noted: the first index of its bytes stays, if there is one.
    pub fn note(&mut self, datagram: &[u8], index: u64) -> Result<(), NoMemory>
        ensures ok { OnOk result ((bytes : List ℕ) → index_in self.new bytes
            ≡ index_after (index_in self.old bytes) (bytes_eq bytes datagram.now) index) }
        ensures err { OnErr result ((bytes : List ℕ) → index_in self.new bytes
            ≡ index_in self.old bytes) }
    {
        if self.first.contains_key(datagram) {
            return Ok(());
        }
        let key = Vec::from_slice(self.alloc, datagram)?;
        self.first.insert(key, index)?;
        Ok(())
    }
}
