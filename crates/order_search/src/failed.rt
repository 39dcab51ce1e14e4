//! What a search keeps: configurations from which no history is legal.

ghost use Rattle.std.specs.Prelude.{◌≡◌, ◌↔◌, [], IsTrue, OnOk, length};
ghost use Rattle.order_search.specs.Failing.{IsKnown, Keeps};

use nop_types::NoMemory;
use std::alloc::Global;
use std::collections::HashSet;

/// The place of a line, the places of the claims before it whose requests wait, and the state of
/// the host as bytes.
#[derive(Drop, PartialEq, Eq, Hash)]
pub(crate) struct Configuration {
    pub(crate) line: usize,
    pub(crate) waiting: Vec<usize>,
    pub(crate) state: Vec<u8>,
}

/// Configurations that failed.
#[derive(Drop)]
pub(crate) struct Failed {
    pub(crate) kept: HashSet<Configuration>,
}

impl Failed {
    pub(crate) fn new(alloc: Global) -> Failed
        ensures { result.kept.keys ≡ [] }
    {
        Failed {
            kept: HashSet::new(alloc),
        }
    }

    pub(crate) fn is_empty(&self) -> bool
        ensures { IsTrue result ↔ (length self.now.kept.keys ≡ 0) }
    {
        self.kept.is_empty()
    }

    /// Whether this configuration is kept.
    pub(crate) fn knows(&self, configuration: &Configuration) -> bool
        ensures { IsTrue result ↔ IsKnown self.now.kept.keys configuration.now }
    {
        self.kept.contains(configuration)
    }

    /// Keeps a configuration, if none with the same parts is kept.
    pub(crate) fn keep(&mut self, configuration: Configuration) -> Result<(), NoMemory>
        ensures { OnOk result (Keeps self.old.kept.keys self.new.kept.keys configuration) }
    {
        self.kept.insert(configuration)?;
        Ok(())
    }
}
