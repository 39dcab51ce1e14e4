ghost use Rattle.std.specs.Prelude.{◌≡◌, ◌≤◌, [], true, false, length, Some, None, OnOk, OnErr, IfOk, IsErr, IfSome, IsSome};
ghost use Rattle.std.specs.Option.{option_copied};
ghost use Rattle.nop_types.specs.Logs.{Log, Trimmed, length_of};
ghost use Rattle.nop_types.specs.Ranges.{LogFits};
ghost use Rattle.nop_types.specs.Tables.{kept_for, result_kept};
ghost use Rattle.nop_types.specs.Checkpoints.{checkpoint_of};
ghost use Rattle.nop_types.specs.CheckpointedLogs.{loads, loads_by, beginning, executed, raised};
ghost use Rattle.client_table.specs.Table.{AllKept};
ghost use Rattle.executor.specs.Running.{execution, reached};
ghost use Rattle.executor.specs.Undoing.{HasExecuted};
ghost use Rattle.executor.specs.Results.{IsResult};

use crate::moves::{advance, go_back};
use crate::slot_undo::SlotUndo;
use client_table::{ClientTable, Judged};
use nop_types::{Bytes, Checkpoint, Host, MAX_RESULT_BYTES, NoMemory};
use replica_log::ReplicaLog;
use std::alloc::Global;
use std::marker::Model;

/// The execution of a log up to a slot: a host's state, and what is kept for each client. It begins with the log's checkpoint, and
/// for each slot above that it keeps what undoes it. Where a call ran out of memory it has failed, and executes nothing more.
#[derive(Drop)]
pub struct Executor<H: Host> {
    alloc: Global,
    host: H,
    table: ClientTable,
    base: u32,
    undos: Vec<Option<SlotUndo<H::Undo>>>,
    failed: bool,
}

impl<H: Host> Model for Executor<H> {
    ghost use Rattle.std.specs.Prelude.{◌≤◌, ◌+◌, length};
    ghost use Rattle.nop_types.specs.declared.limits.TheConstants.{MAX_SLOTS, MAX_LENGTH};
    ghost use Rattle.executor.specs.Running.{Running, running_code};
    ghost use Rattle.executor.specs.Undoing.{UndosFit};

    ghost Value = { Running H H.Undo };

    ghost coded = { running_code H.code H.Undo.code };

    ghost view = { λ e. record {
      host = e.host;
      table = e.table;
      base = e.base;
      undos = e.undos.items;
      failed = e.failed;
    } };

    ghost invariant = { λ e. (length e.undos.items ≤ MAX_SLOTS)
        × ((e.base + length e.undos.items ≤ MAX_LENGTH) × UndosFit (H.fits e.host) e.undos.items) };
}

/// Whether the checkpoint of a log, if there is one, loads.
pub fn checkpoint_loads<H: Host>(
    alloc: Global,
    checkpoint: Option<&Checkpoint>,
) -> Result<bool, NoMemory>
    ensures { IfOk result (λ b. b ≡ loads_by H.meaning (option_copied checkpoint.entry)) }
{
    let Some(checkpoint) = checkpoint else {
        return Ok(true);
    };
    let host = H::load(alloc, checkpoint.host().as_slice())?;
    Ok(host.is_some())
}

/// The execution that a checkpoint has, which loads.
fn loaded<H: Host>(alloc: Global, checkpoint: &Checkpoint) -> Result<(H, ClientTable), NoMemory>
    requires { loads_by H.meaning (Some checkpoint.now) ≡ true }
    ensures execution { IfOk result (λ r. beginning H.meaning (Some checkpoint.now)
        ≡ execution (H.state r.0) r.1) }
    ensures kept { IfOk result (λ r. AllKept (beginning H.meaning (Some checkpoint.now)).table) }
{
    let host = H::load(alloc, checkpoint.host().as_slice())?.unwrap();
    let clients = checkpoint.try_clone_clients()?;
    Ok((host, ClientTable::load(alloc, clients)?))
}

/// The answer that is kept for a request.
#[tactic(auto, using(client_table::specs::Laws::result_by_verdict))]
fn kept_result(table: &ClientTable, client: u32, id: u64) -> Option<&Bytes>
    ensures { option_copied result ≡ result_kept (kept_for table.now client) id }
{
    match table.judge(client, id) {
        Judged::Same(answer) => Some(answer),
        Judged::Fresh | Judged::Stale => None,
    }
}

impl<H: Host> Executor<H> {
    /// Nothing is executed yet.
    pub fn new(alloc: Global) -> Result<Executor<H>, NoMemory>
        ensures reached { IfOk result (λ e. reached e ≡ 0) }
        ensures run { IfOk result (λ e. (log : Log) → log.sync_point ≡ 0
            → log.checkpoint ≡ None → HasExecuted H.state H.meaning H.undo_of log e) }
        ensures failed { IfOk result (λ e. e.failed ≡ false) }
    {
        Ok(Executor {
            alloc,
            host: H::fresh(alloc)?,
            table: ClientTable::new(alloc),
            base: 0,
            undos: Vec::new(alloc),
            failed: false,
        })
    }

    /// The last slot that is executed.
    pub fn reached(&self) -> u32
        ensures { result ≡ reached self.now }
    {
        self.base + self.undos.len() as u32
    }

    /// Executes the entries of the log up to a slot. The log has the entries that were executed so far.
    pub fn run_to(&mut self, log: &ReplicaLog, slot: u32) -> Result<(), NoMemory>
        requires from { reached self.old ≤ slot }
        requires there { slot ≤ length_of Trimmed log.now }
        requires run { HasExecuted H.state H.meaning H.undo_of log.now self.old }
        ensures reached { OnOk result (reached self.new ≡ slot) }
        ensures run { HasExecuted H.state H.meaning H.undo_of log.now self.new }

        // After an error it stands at some slot on the way, and has failed.
        ensures stays { reached self.old ≤ reached self.new }
        ensures within { reached self.new ≤ slot }
        ensures ok { OnOk result (self.new.failed ≡ false) }
        ensures err { OnErr result (self.new.failed ≡ true) }
        ensures for_good { self.old.failed ≡ true → IsErr result }
    {
        if self.failed {
            return Err(NoMemory);
        }
        let done = advance(
            &mut self.host,
            &mut self.table,
            &mut self.undos,
            log,
            (slot - self.base) as usize,
        );
        self.failed = done.is_err();
        done
    }

    /// Undoes the entries of the log above a slot, from the last executed one down. It takes no memory.
    // Apart from its caller, which asks at each step and undoes hardly ever.
    #[cold]
    #[inline(never)]
    pub fn rewind(&mut self, log: &ReplicaLog, slot: u32)
        requires kept { log.now.sync_point ≤ slot }
        requires back { slot ≤ reached self.old }
        requires run { HasExecuted H.state H.meaning H.undo_of log.now self.old }
        ensures reached { reached self.new ≡ slot }
        ensures run { HasExecuted H.state H.meaning H.undo_of log.now self.new }
        ensures failed { self.new.failed ≡ self.old.failed }
    {
        go_back(
            &mut self.host,
            &mut self.table,
            &mut self.undos,
            log,
            (slot - self.base) as usize,
        );
    }

    /// Begins anew, from the checkpoint of a log. After an error it has failed.
    pub fn restart(&mut self, log: &ReplicaLog) -> Result<(), NoMemory>
        requires some { IsSome log.now.checkpoint }
        requires loads { loads H.meaning log.now ≡ true }
        ensures reached { OnOk result (reached self.new ≡ log.now.sync_point) }
        ensures run { OnOk result (HasExecuted H.state H.meaning H.undo_of log.now self.new) }
        ensures ok { OnOk result (self.new.failed ≡ self.old.failed) }
        ensures err { OnErr result (self.new.failed ≡ true) }
    {
        match loaded(self.alloc, log.checkpoint().unwrap()) {
            Ok((host, table)) => {
                self.host = host;
                self.table = table;
                self.base = log.sync_point();
                self.undos.clear();
                Ok(())
            }
            Err(NoMemory) => {
                self.failed = true;
                Err(NoMemory)
            }
        }
    }

    /// What is executed is not undone any more: from now on the log begins with its checkpoint.
    pub fn rebase(&mut self)
        ensures reached { reached self.new ≡ reached self.old }
        ensures run { (log : Log) → HasExecuted H.state H.meaning H.undo_of log self.old
            → HasExecuted H.state H.meaning H.undo_of
            (raised H.meaning Trimmed log (reached self.old)) self.new }
        ensures failed { self.new.failed ≡ self.old.failed }
    {
        self.base = self.reached();
        self.undos.clear();
    }

    /// The result of a request, where it is kept. At most `MAX_RESULT_BYTES` bytes.
    pub fn result(&self, client: u32, id: u64) -> Option<&Bytes>
        ensures kept { option_copied result ≡ result_kept (kept_for self.now.table client) id }
        ensures slot { (log : Log) → HasExecuted H.state H.meaning H.undo_of log self.now
            → IsResult H.meaning log (reached self.now) client id (option_copied result) }
        ensures short { (log : Log) → LogFits log
            → HasExecuted H.state H.meaning H.undo_of log self.now
            → IfSome (option_copied result) (λ bytes. length bytes ≤ MAX_RESULT_BYTES) }
    {
        kept_result(&self.table, client, id)
    }

    /// The execution as a checkpoint.
    pub fn checkpoint(&self) -> Result<Checkpoint, NoMemory>
        requires run { (log : Log) × (LogFits log
            × HasExecuted H.state H.meaning H.undo_of log self.now) }
        ensures saved { IfOk result (λ c. c
            ≡ checkpoint_of H.meaning (execution (H.state self.now.host) self.now.table)) }
        ensures loads { IfOk result (λ c. loads_by H.meaning (Some c) ≡ true) }
        ensures executed { (log : Log) → HasExecuted H.state H.meaning H.undo_of log self.now
            → IfOk result (λ c. c
            ≡ checkpoint_of H.meaning (executed H.meaning Trimmed log (reached self.now))) }
    {
        let host = self.host.save()?;
        let clients = self.table.saved(self.alloc)?;
        Ok(Checkpoint::new(host, clients).unwrap())
    }
}
