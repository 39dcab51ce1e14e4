ghost use Rattle.std.specs.Prelude.{◌≡◌, ◌≤◌, ◌<◌, ℕ, None, max};
ghost use Rattle.nop_types.specs.declared.request.Entry.{Entry};
ghost use Rattle.nop_types.specs.Meaning.{Meaning};
ghost use Rattle.nop_types.specs.Logs.{
  Log,
  Keeping,
  Whole,
  Trimmed,
  IsWithin,
  length_of,
  above,
  entry_at,
  unsynced,
  has_room,
  between,
  appended,
  with_noop,
  first,
  further,
  adopted,
  overlaid,
};
ghost use Rattle.trimming.specs.Trimming.{trim};

/// A trimmed log is as long as the whole one.
#[tactic(auto, using(crate::proofs::Logs::length_trims))]
pub fn length_trims<S>()
    ensures { (m : Meaning S) (l : Log) → IsWithin l
        → length_of Trimmed (trim m l) ≡ length_of Whole l }
{}

/// It has the same entries above its sync point, and above each later slot.
#[tactic(auto, using(crate::proofs::Logs::above_trims))]
pub fn above_trims<S>()
    ensures { (m : Meaning S) (l : Log) (n : ℕ) → l.sync_point ≤ n
        → above Trimmed (trim m l) n ≡ above Whole l n }
{}

/// It has as many entries above its sync point.
#[tactic(auto, using(crate::proofs::Logs::unsynced_trims))]
pub fn unsynced_trims<S>()
    ensures { (m : Meaning S) (l : Log) → IsWithin l
        → unsynced Trimmed (trim m l) ≡ unsynced Whole l }
{}

/// It has room where the whole one has.
#[tactic(auto, using(crate::proofs::Logs::room_trims))]
pub fn room_trims<S>()
    ensures { (m : Meaning S) (l : Log) → IsWithin l
        → has_room Trimmed (trim m l) ≡ has_room Whole l }
{}

/// The entries above its sync point up to a slot are those of the whole one.
#[tactic(auto, using(crate::proofs::Logs::between_trims))]
pub fn between_trims<S>()
    ensures { (m : Meaning S) (l : Log) (n : ℕ)
        → between Trimmed (trim m l) n ≡ between Whole l n }
{}

/// It has the same entry in each slot above the sync point, and none in a slot at or below it.
#[tactic(auto, using(crate::proofs::Logs::entry_trims, crate::proofs::Logs::no_entry_below))]
pub fn entry_trims<S>()
    ensures kept { (m : Meaning S) (l : Log) (n : ℕ) → l.sync_point < n
        → entry_at Trimmed (trim m l) n ≡ entry_at Whole l n }
    ensures below { (l : Log) (n : ℕ) → n ≤ l.sync_point → entry_at Trimmed l n ≡ None }
{}

/// To append an entry to a trimmed log is to append it to the whole one.
#[tactic(auto, using(crate::proofs::Logs::append_trims))]
pub fn append_trims<S>()
    ensures { (m : Meaning S) (l : Log) (e : Entry) → IsWithin l
        → appended (trim m l) e ≡ trim m (appended l e) }
{}

/// So is to make a slot above the sync point a NO-OP; a slot at or below it is not written.
#[tactic(auto, using(crate::proofs::Logs::noop_trims, crate::proofs::Logs::no_noop_below))]
pub fn noop_trims<S>()
    ensures kept { (m : Meaning S) (l : Log) (n : ℕ) → l.sync_point < n
        → with_noop Trimmed (trim m l) n ≡ trim m (with_noop Whole l n) }
    ensures below { (l : Log) (n : ℕ) → n ≤ l.sync_point → with_noop Trimmed l n ≡ l }
{}

/// And so is to take the first slots, as many as are synchronised or more.
#[tactic(auto, using(crate::proofs::Logs::first_trims))]
pub fn first_trims<S>()
    ensures { (m : Meaning S) (l : Log) (n : ℕ) → l.sync_point ≤ n
        → first Trimmed (trim m l) n ≡ trim m (first Whole l n) }
{}

/// To adopt a trimmed log in place of a trimmed one is to adopt the whole ones. Where the own sync
/// point stays, it has to be within its log.
#[tactic(auto, using(crate::proofs::Logs::adopt_trims))]
pub fn adopt_trims<S>()
    ensures { (m : Meaning S) (new own : Log)
        → (new.sync_point ≤ own.sync_point → IsWithin own)
        → adopted Trimmed (trim m new) (trim m own) ≡ trim m (adopted Whole new own) }
{}

/// To lay a trimmed log over a trimmed one is to lay the whole ones over each other, where the
/// greater sync point is within its log.
#[tactic(auto, using(crate::proofs::Logs::overlay_trims))]
pub fn overlay_trims<S>()
    ensures { (m : Meaning S) (new own : Log) → IsWithin (further new own)
        → overlaid Trimmed (trim m new) (trim m own) ≡ trim m (overlaid Whole new own) }
{}

/// A log that is adopted, or laid over the own one, leaves the greater sync point.
#[tactic(auto, using(crate::proofs::Logs::adopted_point, crate::proofs::Logs::overlaid_point))]
pub fn sync_points_rise()
    ensures adopted { (k : Keeping) (new own : Log)
        → (adopted k new own).sync_point ≡ max own.sync_point new.sync_point }
    ensures overlaid { (k : Keeping) (new own : Log)
        → (overlaid k new own).sync_point ≡ max own.sync_point new.sync_point }
{}

/// The sync point of a whole log stays within it. (It rises to a slot of the log alone.)
#[tactic(auto, using(crate::proofs::Logs::stays_within))]
pub fn sync_points_stay_within()
    ensures appended { (l : Log) (e : Entry) → IsWithin l → IsWithin (appended l e) }
    ensures noop { (l : Log) (n : ℕ) → IsWithin l → IsWithin (with_noop Whole l n) }
    ensures first { (l : Log) (n : ℕ) → l.sync_point ≤ n → IsWithin l →
        IsWithin (first Whole l n) }
    ensures further { (new own : Log) → IsWithin new → IsWithin own →
        IsWithin (further new own) }
    ensures adopted { (new own : Log) → IsWithin (further new own)
        → IsWithin (adopted Whole new own) }
    ensures overlaid { (new own : Log) → IsWithin (further new own)
        → IsWithin (overlaid Whole new own) }
{}
