ghost use Rattle.std.specs.Prelude.{◌≡◌, ◌≤◌, length, OnOk, OnErr, IfOk};
ghost use Rattle.nop_types.specs.Execution.{enter_kept};
ghost use Rattle.nop_types.specs.CheckpointedLogs.{beginning};
ghost use Rattle.executor.specs.Running.{execution};
ghost use Rattle.executor.specs.Undoing.{slot_undo_of, undone_by, IsExecuted, UndoFits, UndosFit, MayUnkeep};

use crate::slot_undo::SlotUndo;
use client_table::ClientTable;
use nop_types::{Entry, Host, MAX_SLOTS, NoMemory};
use replica_log::ReplicaLog;

/// Executes an entry, where its client is served and its id is new, and says how to undo that.
fn enter<H: Host>(
    host: &mut H,
    table: &mut ClientTable,
    entry: &Entry,
) -> Result<Option<SlotUndo<H::Undo>>, NoMemory>
    ensures execution { OnOk result (execution (H.state host.new) table.new
        ≡ enter_kept H.meaning (execution (H.state host.old) table.old) entry.now) }
    ensures slot_undo { IfOk result (λ s. s
        ≡ slot_undo_of H.undo_of (execution (H.state host.old) table.old) entry.now) }
    ensures err { OnErr result (execution (H.state host.new) table.new
        ≡ execution (H.state host.old) table.old) }
    ensures fits { IfOk result (λ s. UndoFits (H.fits host.new) s) }
    ensures still_fits { (u : H.Undo) → H.fits host.old u → H.fits host.new u }
{
    let request = match entry {
        Entry::NoOp => return Ok(None),
        Entry::Req(request) => request,
    };
    if !table.takes(request) {
        return Ok(None);
    }
    let (answer, undo) = host.apply(request.op.as_slice())?;
    match table.keep(request.client, request.id, answer) {
        Ok(kept) => Ok(Some(SlotUndo { undo, kept })),
        Err(NoMemory) => {
            host.undo(undo);
            Err(NoMemory)
        }
    }
}

/// Undoes the last slot, where its entry did something.
fn leave<H: Host>(host: &mut H, table: &mut ClientTable, slot_undo: Option<SlotUndo<H::Undo>>)
    requires fits { UndoFits (H.fits host.old) slot_undo }
    requires kept { MayUnkeep table.old slot_undo }
    ensures execution { execution (H.state host.new) table.new
        ≡ undone_by H.undone (execution (H.state host.old) table.old) slot_undo }
    ensures still_fits { (u : H.Undo) → H.fits host.old u → H.fits host.new u }
{
    if let Some(slot_undo) = slot_undo {
        host.undo(slot_undo.undo);
        table.unkeep(slot_undo.kept);
    }
}

/// Executes entries of a log until as many are executed. After an error it stands at some entry on the way.
pub fn advance<H: Host>(
    host: &mut H,
    table: &mut ClientTable,
    undos: &mut Vec<Option<SlotUndo<H::Undo>>>,
    log: &ReplicaLog,
    count: usize,
) -> Result<(), NoMemory>
    requires from { length undos.old.items ≤ count }
    requires there { count ≤ length log.now.entries }
    requires run { IsExecuted H.meaning H.undo_of (beginning H.meaning log.now.checkpoint)
        log.now.entries (execution (H.state host.old) table.old) undos.old.items }
    requires fits { UndosFit (H.fits host.old) undos.old.items }
    ensures ok { OnOk result (length undos.new.items ≡ count) }
    ensures run { IsExecuted H.meaning H.undo_of (beginning H.meaning log.now.checkpoint)
        log.now.entries (execution (H.state host.new) table.new) undos.new.items }
    ensures stays { length undos.old.items ≤ length undos.new.items }
    ensures within { length undos.new.items ≤ count }
    ensures room { length undos.new.items ≤ MAX_SLOTS }
    ensures fits { UndosFit (H.fits host.new) undos.new.items }
{
    let entries = log.entries();
    while undos.len() < count {
        undos.reserve(1)?;
        let slot_undo = enter(host, table, &entries[undos.len()])?;
        undos.push_reserved(slot_undo);
    }
    Ok(())
}

/// Undoes executed entries of a log, from the last one down, until as many are left.
pub fn go_back<H: Host>(
    host: &mut H,
    table: &mut ClientTable,
    undos: &mut Vec<Option<SlotUndo<H::Undo>>>,
    log: &ReplicaLog,
    count: usize,
)
    requires back { count ≤ length undos.old.items }
    requires run { IsExecuted H.meaning H.undo_of (beginning H.meaning log.now.checkpoint)
        log.now.entries (execution (H.state host.old) table.old) undos.old.items }
    requires fits { UndosFit (H.fits host.old) undos.old.items }
    ensures len { length undos.new.items ≡ count }
    ensures run { IsExecuted H.meaning H.undo_of (beginning H.meaning log.now.checkpoint)
        log.now.entries (execution (H.state host.new) table.new) undos.new.items }
    ensures fits { UndosFit (H.fits host.new) undos.new.items }
{
    while undos.len() > count {
        if let Some(slot_undo) = undos.pop() {
            leave(host, table, slot_undo);
        }
    }
}
