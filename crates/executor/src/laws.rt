ghost use Rattle.std.specs.Prelude.{◌≡◌, ◌<◌, ◌≤◌, ◌++◌, ℕ, List, Option, length, take};
ghost use Rattle.nop_types.specs.declared.request.Entry.{Entry};
ghost use Rattle.nop_types.specs.Meaning.{Meaning};
ghost use Rattle.nop_types.specs.Execution.{Executed, enter_kept};
ghost use Rattle.nop_types.specs.Logs.{Log, Trimmed, length_of, appended, with_noop};
ghost use Rattle.nop_types.specs.Slots.{set_slot};
ghost use Rattle.client_table.specs.Table.{AllKept};
ghost use Rattle.executor.specs.declared.slot_undo.SlotUndo.{SlotUndo};
ghost use Rattle.executor.specs.Running.{Running, reached};
ghost use Rattle.executor.specs.Undoing.{IsExecuted, HasExecuted, slot_undo_of, undone_by};

use nop_types::Host;

/// What a slot keeps undoes its entry, where each client has what may be kept; and so it stays.
pub fn entry_is_undone<H: Host>()
    ensures undone { (x : Executed H.State) (e : Entry) → AllKept x.table
        → undone_by H.undone (enter_kept H.meaning x e) (slot_undo_of H.undo_of x e) ≡ x }
    ensures stays { (x : Executed H.State) (e : Entry) → AllKept x.table
        → AllKept (enter_kept H.meaning x e).table }
{}

/// What was executed rests on the executed entries alone: it stays so where the log changes above them.
pub fn executed_slots_are_enough<S, U>()
    ensures prefix { (m : Meaning S) (undo_of : S → List ℕ → U) (begun : Executed S)
        (entries other : List Entry) (x : Executed S) (undos : List (Option (SlotUndo U)))
        → IsExecuted m undo_of begun entries x undos
        → take (length undos) other ≡ take (length undos) entries
        → IsExecuted m undo_of begun other x undos }
    ensures append { (m : Meaning S) (undo_of : S → List ℕ → U) (begun : Executed S)
        (entries more : List Entry) (x : Executed S) (undos : List (Option (SlotUndo U)))
        → IsExecuted m undo_of begun entries x undos
        → IsExecuted m undo_of begun (entries ++ more) x undos }
    ensures slot { (m : Meaning S) (undo_of : S → List ℕ → U) (begun : Executed S)
        (entries : List Entry) (slot : ℕ) (e : Entry) (x : Executed S)
        (undos : List (Option (SlotUndo U))) → IsExecuted m undo_of begun entries x undos
        → length undos < slot → IsExecuted m undo_of begun (set_slot entries slot e) x undos }
{}

/// The last executed slot is within the log.
pub fn reached_is_within<H, S, U>()
    ensures { (state : H → S) (m : Meaning S) (undo_of : S → List ℕ → U) (log : Log)
        (r : Running H U) → HasExecuted state m undo_of log r → reached r ≤ length_of Trimmed log }
{}

/// An execution of a log stays one where the log changes above the last executed slot.
pub fn execution_stays<H, S, U>()
    ensures append { (state : H → S) (m : Meaning S) (undo_of : S → List ℕ → U) (log : Log)
        (r : Running H U) (e : Entry) → HasExecuted state m undo_of log r
        → HasExecuted state m undo_of (appended log e) r }
    ensures noop { (state : H → S) (m : Meaning S) (undo_of : S → List ℕ → U) (log : Log)
        (r : Running H U) (n : ℕ) → HasExecuted state m undo_of log r → reached r < n
        → HasExecuted state m undo_of (with_noop Trimmed log n) r }
    ensures other { (state : H → S) (m : Meaning S) (undo_of : S → List ℕ → U)
        (log other : Log) (r : Running H U) → HasExecuted state m undo_of log r
        → other.sync_point ≡ log.sync_point → other.checkpoint ≡ log.checkpoint
        → take (length r.undos) other.entries ≡ take (length r.undos) log.entries
        → HasExecuted state m undo_of other r }
{}

/// Two executions from one beginning, of as many entries of a log, are equal, whatever was executed and undone on the way.
pub fn executions_are_equal<S, U>()
    ensures { (m : Meaning S) (undo_of : S → List ℕ → U) (begun : Executed S)
        (entries : List Entry) (x y : Executed S) (undos others : List (Option (SlotUndo U)))
        → IsExecuted m undo_of begun entries x undos → IsExecuted m undo_of begun entries y others
        → length undos ≡ length others → x ≡ y }
{}
