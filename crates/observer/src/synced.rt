ghost use Rattle.std.specs.Prelude.{◌≡◌, ◌≤◌, length, cond, IsTrue, OnOk, IfOk};
ghost use Rattle.std.specs.Option.{option_map};
ghost use Rattle.nop_types.specs.CheckpointedLogs.{loads};
ghost use Rattle.nop_types.specs.Logs.{Trimmed};
ghost use Rattle.nop_types.specs.Ranges.{LogFits};
ghost use Rattle.nop_types.specs.Services.{get_of};
ghost use Rattle.nop_types.specs.declared.limits.TheConstants.{MAX_RESULT_BYTES};
ghost use Rattle.observer.specs.Observing.{opening, is_better, known_with, prepare, commit, answer};
ghost use Rattle.observer.specs.Known.{candidate_of, observing_of, IsReady};

use crate::asking::get_of;
use crate::entering::{follow, loaded};
use crate::told::Told;
use client_table::ClientTable;
use nop_types::{Bytes, Host, Key, Log, NoMemory, View};
use std::alloc::Global;

/// A service as far as it is synchronised: it executes what leaders commit of the logs that they told, and undoes nothing.
#[derive(Drop)]
pub struct SyncedHost<H: Host> {
    alloc: Global,
    pub(crate) host: H,
    pub(crate) table: ClientTable,
    pub(crate) position: u32,
    pub(crate) candidate: Option<Told>,
}

impl<H: Host> SyncedHost<H> {
    /// Nothing is executed yet.
    pub fn new(alloc: Global) -> Result<SyncedHost<H>, NoMemory>
        ensures ready { IfOk result (λ w. IsReady H.Host w) }
        ensures state { IfOk result (λ w. observing_of H.Host w ≡ opening) }
    {
        Ok(SyncedHost {
            alloc,
            host: H::fresh(alloc)?,
            table: ClientTable::new(alloc),
            position: 0,
            candidate: None,
        })
    }

    /// Whether a log becomes the candidate.
    fn is_better(&self, view: View, log: &Log) -> bool
        ensures { result ≡ is_better Trimmed
            (option_map candidate_of self.now.candidate) view log.now }
    {
        match &self.candidate {
            Some(old) => {
                view.outranks(old.view) || (old.view.is(view) && old.log.len() < log.len())
            }
            None => true,
        }
    }

    /// Takes the checkpoint of a log, where that is further; false where it doesn't load.
    fn take_checkpoint(&mut self, log: &Log) -> Result<bool, NoMemory>
        requires ready { IsReady H.Host self.old }
        requires fits { LogFits log.now }
        ensures ready { OnOk result (IsReady H.Host self.new) }
        ensures loads { IfOk result (λ taken. taken ≡ loads H.meaning log.now) }
        ensures low { IfOk result (λ taken. IsTrue taken
            → log.now.sync_point ≤ self.new.position) }
        ensures known { IfOk result (λ taken. (observing_of H.Host self.new).known ≡ cond taken
            (known_with Trimmed log.now (observing_of H.Host self.old).known)
            (observing_of H.Host self.old).known) }
        ensures candidate { self.new.candidate ≡ self.old.candidate }
    {
        let Some(checkpoint) = log.checkpoint() else {
            return Ok(true);
        };
        let Some((host, table)) = loaded::<H>(self.alloc, checkpoint)? else {
            return Ok(false);
        };
        if log.sync_point() <= self.position {
            return Ok(true);
        }
        self.host = host;
        self.table = table;
        self.position = log.sync_point();
        Ok(true)
    }

    /// A leader tells its log.
    pub fn prepare(&mut self, view: View, log: Log) -> Result<(), NoMemory>
        requires ready { IsReady H.Host self.old }
        requires fits { LogFits log }
        ensures ready { OnOk result (IsReady H.Host self.new) }
        ensures state { OnOk result (observing_of H.Host self.new
            ≡ prepare H.meaning Trimmed (observing_of H.Host self.old) view log) }
    {
        if self.is_better(view, &log) && self.take_checkpoint(&log)? {
            self.candidate = Some(Told { view, log });
        }
        Ok(())
    }

    /// A leader commits a length.
    pub fn commit(&mut self, view: View, len: u32) -> Result<(), NoMemory>
        requires ready { IsReady H.Host self.old }
        ensures ready { OnOk result (IsReady H.Host self.new) }
        ensures state { OnOk result (observing_of H.Host self.new
            ≡ commit H.meaning Trimmed (observing_of H.Host self.old) view len) }
    {
        let Some(told) = &self.candidate else {
            return Ok(());
        };
        if !told.view.is(view) || len > told.log.len() || len <= self.position {
            return Ok(());
        }
        let from = (self.position - told.log.sync_point()) as usize;
        let to = (len - told.log.sync_point()) as usize;
        follow(
            &mut self.host,
            &mut self.table,
            &told.log.entries()[from..to],
        )?;
        self.position = len;
        Ok(())
    }

    /// Up to this slot the service is executed.
    pub(crate) fn position(&self) -> u32
        ensures { result ≡ self.now.position }
    {
        self.position
    }

    /// What the service answers there to the op that asks for a key; its state stays.
    pub fn read(&mut self, key: &Key) -> Result<Bytes, NoMemory>
        requires ready { IsReady H.Host self.old }
        ensures ready { IsReady H.Host self.new }
        ensures state { observing_of H.Host self.new ≡ observing_of H.Host self.old }
        ensures answer { IfOk result (λ a. a
            ≡ answer H.meaning Trimmed (observing_of H.Host self.old) (get_of key.now)) }
        ensures short { IfOk result (λ a. length a ≤ MAX_RESULT_BYTES) }
    {
        let op = get_of(self.alloc, key)?;
        let (answer, undo) = self.host.apply(&op)?;
        self.host.undo(undo);
        Ok(answer)
    }
}
