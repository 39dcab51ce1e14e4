ghost use Rattle.std.specs.Prelude.{◌≡◌, ◌++◌, ◌<◌, ◌≤◌, ℕ, List, Some, length, max, take};
ghost use Rattle.nop_types.specs.declared.request.Entry.{Entry};
ghost use Rattle.nop_types.specs.Lists.{IsPrefixOf, slot_of};
ghost use Rattle.nop_types.specs.Slots.{set_slot, laid};
ghost use Rattle.started_views.specs.Logs.{SameTo, Toward};

/// How a log goes toward the log m of its leader: by nothing, one step after the other while m
/// grows, by entries at its end, by an entry of m that is written into the slot where m has it, and
/// by a prefix of m that is laid over it.
#[tactic(auto, using(crate::proofs::Logs::toward_refl, crate::proofs::Logs::toward_trans, crate::proofs::Logs::toward_append, crate::proofs::Logs::toward_write))]
pub fn logs_go_toward()
    ensures nothing { (m l : List Entry) → Toward m l l }
    ensures steps { (m n l k j : List Entry) → IsPrefixOf m n → Toward m l k → Toward n k j
        → Toward n l j }
    ensures append { (m l rest : List Entry) → Toward m l (l ++ rest) }
    ensures write { (m l : List Entry) (k : ℕ) (x : Entry) → slot_of m k ≡ Some x
        → Toward m l (set_slot l k x) }
    ensures overlay { (m l k : List Entry) → IsPrefixOf l m → Toward m k (laid l k) }
{}

/// A log that goes toward m keeps each slot in which it has what m has, keeps the prefix that it
/// shares with m, and loses no slot.
#[tactic(auto, using(crate::proofs::Logs::toward_keeps_slot, crate::proofs::Logs::toward_keeps_same))]
pub fn toward_keeps()
    ensures slot { (m l k : List Entry) (i : ℕ) (x : Entry) → Toward m l k →
        slot_of m i ≡ Some x
        → slot_of l i ≡ Some x → slot_of k i ≡ Some x }
    ensures same { (m l k : List Entry) (s : ℕ) → Toward m l k → SameTo s l m →
        SameTo s k m }
    ensures length { (m l k : List Entry) → Toward m l k → length l ≤ length k }
{}

/// A log in which a slot is written has as many slots; that slot has the entry, and each other slot
/// what it had.
#[tactic(auto, using(lemmas::proofs::Slots::written_slots))]
pub fn written_log()
    ensures length { (l : List Entry) (k : ℕ) (x : Entry) →
        length (set_slot l k x) ≡ length l }
    ensures here { (l : List Entry) (k : ℕ) (x : Entry) → 0 < k → k ≤ length l
        → slot_of (set_slot l k x) k ≡ Some x }
    ensures elsewhere { (l : List Entry) (k i : ℕ) (x : Entry) → (i ≡ k → ⊥)
        → slot_of (set_slot l k x) i ≡ slot_of l i }
{}

/// A log laid over another begins the outcome, which is as long as the longer of the two and has
/// above it what the other has.
#[tactic(auto, using(lemmas::proofs::Slots::laid_slots))]
pub fn laid_log()
    ensures length { (l k : List Entry) → length (laid l k) ≡ max (length l) (length k) }
    ensures begins { (l k : List Entry) → IsPrefixOf l (laid l k) }
    ensures above { (l k : List Entry) (i : ℕ) → length l < i → slot_of (laid l k) i
        ≡ slot_of k i }
{}

/// Two logs that begin one log, each up to a slot, have the same in each slot up to both.
pub fn prefixes_agree()
    ensures { (s t i : ℕ) (l k a : List Entry) → s ≤ length l → t ≤ length k
        → IsPrefixOf (take s l) a → IsPrefixOf (take t k) a → i ≤ s → i ≤ t
        → slot_of l i ≡ slot_of k i }
{}
