ghost use Rattle.std.specs.Prelude.{◌≡◌, [], IfOk, OnOk};
ghost use Rattle.network.specs.Network.{did_of};
ghost use Rattle.world.specs.Archive.{with_entries, with_outs, archived};
ghost use Rattle.world.specs.Untrimmed.{untrimmed};

use nop_types::{Entry, Log, NoMemory, Out, Outbox};
use std::alloc::Global;
use std::marker::Model;

/// The entries that moved out of the logs of replicas, each once, that of slot 1 first.
#[derive(Drop)]
pub struct Archive {
    entries: Vec<Entry>,
}

impl Model for Archive {
    ghost use Rattle.std.specs.Prelude.{List};
    ghost use Rattle.nop_types.specs.declared.request.Entry.{Entry};

    ghost Value = { List Entry };

    ghost view = { λ a. a.entries.items };
}

impl Archive {
    pub fn new(alloc: Global) -> Archive
        ensures { result ≡ [] }
    {
        Archive {
            entries: Vec::new(alloc),
        }
    }

    pub fn entries(&self) -> &[Entry]
        ensures { result.now ≡ self.now }
    {
        &self.entries
    }

    /// Appends those of the entries, which stand from the slot `first` on, that are past the end.
    fn append(&mut self, first: u32, entries: Log) -> Result<(), NoMemory>
        ensures { OnOk result (self.new ≡ with_entries self.old first entries.entries) }
    {
        let (_none, mut entries) = entries.into_parts();
        let known = (self.entries.len() + 1).saturating_sub(first as usize);
        entries.drain(..known.min(entries.len()));
        self.entries.append(&mut entries)?;
        Ok(())
    }

    fn keep_all(&mut self, outs: Vec<Out>) -> Result<(), NoMemory>
        ensures { OnOk result (self.new ≡ with_outs self.old outs.items) }
    {
        for out in outs {
            if let Out::Trimmed { first, entries } = out {
                self.append(first, entries)?;
            }
        }
        Ok(())
    }

    /// Keeps the entries that moved out of logs in a step.
    pub fn keep(&mut self, did: Option<Outbox>) -> Result<(), NoMemory>
        ensures { OnOk result (self.new ≡ archived self.old (did_of did)) }
    {
        match did {
            Some(outs) => self.keep_all(outs.into_vec()),
            None => Ok(()),
        }
    }

    /// Keeps the entries that moved out of logs in a step, and gives the other outputs.
    pub fn take_trimmed(&mut self, alloc: Global, outs: Outbox) -> Result<Outbox, NoMemory>
        ensures archive { OnOk result (self.new ≡ with_outs self.old outs) }
        ensures rest { IfOk result (λ rest. rest ≡ untrimmed outs) }
    {
        let mut rest = Outbox::new(alloc);
        for out in outs.into_vec() {
            match out {
                Out::Trimmed { first, entries } => self.append(first, entries)?,
                other => rest.push(other)?,
            }
        }
        Ok(rest)
    }
}
