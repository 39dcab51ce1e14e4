ghost use Rattle.std.specs.Prelude.{◌≡◌, ◌≤◌, ◌<◌, ℕ, true, None, is_some, nat_lt, take};
ghost use Rattle.nop_types.specs.Meaning.{Meaning};
ghost use Rattle.nop_types.specs.Bounds.{Bounds};
ghost use Rattle.nop_types.specs.Execution.{exec};
ghost use Rattle.nop_types.specs.Logs.{Log, Keeping, Whole, Trimmed, length_of, entry_at};
ghost use Rattle.nop_types.specs.CheckpointedLogs.{loads, beginning, executed, slot_result, raised};
ghost use Rattle.nop_types.specs.Ranges.{LogIsIn};
ghost use Rattle.trimming.specs.Trimming.{trim};

use nop_types::Host;

/// A trimmed log has a checkpoint exactly where its sync point is above 0. It loads, as what the
/// entries before it leave.
pub fn checkpoints_load<H: Host>()
    ensures there { (l : Log) → is_some (trim H.meaning l).checkpoint ≡ nat_lt 0 l.sync_point }
    ensures loads { (l : Log) → loads H.meaning (trim H.meaning l) ≡ true }
    ensures exec { (l : Log) → beginning H.meaning (trim H.meaning l).checkpoint
        ≡ exec H.meaning (take l.sync_point l.entries) }
{}

/// From its checkpoint on, a trimmed log leaves what the whole one does, up to each slot from the
/// sync point on.
pub fn executed_trims<H: Host>()
    ensures { (l : Log) (n : ℕ) → l.sync_point ≤ n
        → executed H.meaning Trimmed (trim H.meaning l) n ≡ executed H.meaning Whole l n }
{}

/// It has the same result at each slot above its sync point, and none at a slot at or below it.
pub fn results_trim<H: Host>()
    ensures kept { (l : Log) (n : ℕ) → l.sync_point < n
        → slot_result H.meaning Trimmed (trim H.meaning l) n ≡ slot_result H.meaning Whole l n }
    ensures below { (l : Log) (n : ℕ) → n ≤ l.sync_point
        → slot_result H.meaning Trimmed l n ≡ None }
{}

/// To let the sync point of a trimmed log rise is to let that of the whole one rise.
pub fn raise_trims<H: Host>()
    ensures { (l : Log) (n : ℕ) → l.sync_point ≤ n → 0 < n
        → raised H.meaning Trimmed (trim H.meaning l) n
        ≡ trim H.meaning (raised H.meaning Whole l n) }
{}

/// Whatever the checkpoint of a log is, its execution leaves the host in a state that ops lead to.
pub fn executions_are_sound<H: Host>()
    ensures { (k : Keeping) (l : Log) (n : ℕ) → H.is_sound (executed H.meaning k l n).host }
{}

/// A rise of the sync point takes nothing away from what stands above it, whatever the checkpoint
/// before was: the log loads and is as long as before, with the same entries and results.
pub fn raises_keep<H: Host>()
    ensures loads { (l : Log) (n : ℕ) → loads H.meaning (raised H.meaning Trimmed l n) ≡ true }
    ensures length { (l : Log) (n : ℕ) → l.sync_point ≤ n → n ≤ length_of Trimmed l
        → length_of Trimmed (raised H.meaning Trimmed l n) ≡ length_of Trimmed l }
    ensures entry { (l : Log) (n k : ℕ) → l.sync_point ≤ n → n < k
        → entry_at Trimmed (raised H.meaning Trimmed l n) k ≡ entry_at Trimmed l k }
    ensures exec { (l : Log) (n k : ℕ) → l.sync_point ≤ n → n ≤ k
        → executed H.meaning Trimmed (raised H.meaning Trimmed l n) k
        ≡ executed H.meaning Trimmed l k }
    ensures results { (l : Log) (n k : ℕ) → l.sync_point ≤ n → n < k
        → slot_result H.meaning Trimmed (raised H.meaning Trimmed l n) k
        ≡ slot_result H.meaning Trimmed l k }
{}

/// Over a service, results fit a reply, and a trimmed log whose sync point rises stays in its
/// ranges, whatever its checkpoint was before.
pub fn trimmed_logs_keep_bounds<H: Host>()
    ensures { Bounds H.meaning Trimmed }
{}

/// A whole log in its ranges is in those of a trimmed one where it is trimmed.
pub fn trims_in_ranges<H: Host>()
    ensures { (l : Log) → LogIsIn Whole l → LogIsIn Trimmed (trim H.meaning l) }
{}
