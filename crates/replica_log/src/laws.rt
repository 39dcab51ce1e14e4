ghost use Rattle.std.specs.Prelude.{◌≡◌, ◌≢◌, ◌<◌, ◌≤◌, ℕ, List, Some, length, max, true};
ghost use Rattle.nop_types.specs.declared.request.Entry.{Entry};
ghost use Rattle.nop_types.specs.Lists.{slot_of};
ghost use Rattle.nop_types.specs.Logs.{Log, Keeping, Whole, length_of, has_room, first, appended, with_noop, adopted, overlaid};
ghost use Rattle.nop_types.specs.Ranges.{EntryFits, LogIsIn};
ghost use Rattle.nop_types.specs.Slots.{set_slot, laid};

/// One slot becomes the entry, and all others stay.
pub fn set_slot_by_slot()
    ensures len { (l : List Entry) (k : ℕ) (x : Entry) → length (set_slot l k x) ≡ length l }
    ensures here { (l : List Entry) (k : ℕ) (x : Entry) → 1 ≤ k → k ≤ length l →
        slot_of (set_slot l k x) k ≡ Some x }
    ensures others { (l : List Entry) (k : ℕ) (x : Entry) (i : ℕ) → i ≢ k →
        slot_of (set_slot l k x) i ≡ slot_of l i }
{}

/// The slots of the one log, and above them those of the other.
pub fn laid_by_slot()
    ensures len { (l k : List Entry) → length (laid l k) ≡ max (length l) (length k) }
    ensures prefix { (l k : List Entry) (i : ℕ) → i ≤ length l → slot_of (laid l k) i
        ≡ slot_of l i }
    ensures above { (l k : List Entry) (i : ℕ) → length l < i → slot_of (laid l k) i
        ≡ slot_of k i }
{}

/// A log in its ranges, kept whole or trimmed, stays so, whatever entries and logs in their ranges come in; a whole one also where its
/// sync point rises.
pub fn log_stays_in_ranges()
    ensures append { (k : Keeping) (l : Log) (e : Entry) → LogIsIn k l → EntryFits e
        → has_room k l ≡ true → LogIsIn k (appended l e) }
    ensures noop { (k : Keeping) (l : Log) (n : ℕ) →
        LogIsIn k l → LogIsIn k (with_noop k l n) }
    ensures raise { (l : Log) (n : ℕ) → LogIsIn Whole l → l.sync_point ≤ n
        → n ≤ length l.entries → LogIsIn Whole (record l { sync_point = n }) }
    ensures adopt { (k : Keeping) (new own : Log) → LogIsIn k new → LogIsIn k own
        → LogIsIn k (adopted k new own) }
    ensures overlay { (k : Keeping) (new own : Log) → LogIsIn k new → LogIsIn k own
        → LogIsIn k (overlaid k new own) }
    ensures first { (k : Keeping) (l : Log) (n : ℕ) → LogIsIn k l → l.sync_point ≤ n
        → LogIsIn k (first k l n) }
{}

/// Where a log is taken, its last slot is the last one then, unless the own sync point is above it.
pub fn adopted_is_as_long()
    ensures point { (k : Keeping) (new own : Log) → (adopted k new own).sync_point
        ≡ max own.sync_point new.sync_point }
    ensures len { (k : Keeping) (new own : Log) → LogIsIn k new → LogIsIn k own
        → length_of k (adopted k new own) ≡ max own.sync_point (length_of k new) }
{}

/// Where a log is laid over the own one, the greater last slot is the last one then.
pub fn overlaid_is_as_long()
    ensures point { (k : Keeping) (new own : Log) → (overlaid k new own).sync_point
        ≡ max own.sync_point new.sync_point }
    ensures len { (k : Keeping) (new own : Log) → LogIsIn k new → LogIsIn k own
        → length_of k (overlaid k new own) ≡ max (length_of k own) (length_of k new) }
{}

/// Where a log is taken, the greater sync point is taken, and so are all entries of the other log; but where its sync point is not
/// greater, the own entries up to the own sync point stay.
pub fn adopted_by_slot()
    ensures point { (new own : Log) → (adopted Whole new own).sync_point
        ≡ max own.sync_point new.sync_point }
    ensures len { (new own : Log) → own.sync_point ≤ length own.entries
        → new.sync_point ≤ length new.entries → length (adopted Whole new own).entries
        ≡ max own.sync_point (length new.entries) }
    ensures below { (new own : Log) (i : ℕ) → own.sync_point ≤ length own.entries
        → new.sync_point ≤ own.sync_point → i ≤ own.sync_point
        → slot_of (adopted Whole new own).entries i ≡ slot_of own.entries i }
    ensures above { (new own : Log) (i : ℕ) → own.sync_point ≤ length own.entries
        → own.sync_point < i → slot_of (adopted Whole new own).entries i
        ≡ slot_of new.entries i }
    ensures all { (new own : Log) → own.sync_point < new.sync_point
        → (adopted Whole new own).entries ≡ new.entries }
{}

/// Where a log is laid over the own one, the own entries above its end stay; up to there it is as if it were taken.
pub fn overlaid_by_slot()
    ensures point { (new own : Log) → (overlaid Whole new own).sync_point
        ≡ max own.sync_point new.sync_point }
    ensures len { (new own : Log) → own.sync_point ≤ length own.entries
        → new.sync_point ≤ length new.entries → length (overlaid Whole new own).entries
        ≡ max (length own.entries) (length new.entries) }
    ensures parts { (new own : Log) → own.sync_point ≤ length own.entries
        → new.sync_point ≤ length new.entries → (overlaid Whole new own).entries
        ≡ laid (adopted Whole new own).entries own.entries }
{}
