ghost use Rattle.std.specs.Prelude.{◌≡◌, ℕ, List, Some, take};
ghost use Rattle.nop_types.specs.declared.view.View.{View};
ghost use Rattle.nop_types.specs.declared.request.Request.{Request};
ghost use Rattle.nop_types.specs.declared.request.Entry.{Entry};
ghost use Rattle.nop_types.specs.PlainChanges.{Change};
ghost use Rattle.nop_types.specs.declared.datagram.Stamped.{Stamped};
ghost use Rattle.nop_types.specs.Lists.{IsPrefixOf, slot_of};
ghost use Rattle.nop_types.specs.Stamps.{WasStamped};
ghost use Rattle.nop_types.specs.Views.{AtMost, Below, first_view};
ghost use Rattle.log_merge.specs.Merge.{merge};
ghost use Rattle.log_merge.specs.Starting.{Start, start_of};
ghost use Rattle.started_views.specs.Agreement.{AgreeOn};
ghost use Rattle.started_views.specs.Logs.{SameTo};
ghost use Rattle.started_views.specs.Past.{Past, LeaderHad, IsStart, first_past};
ghost use Rattle.started_views.specs.Settled.{Certificate, Fixed, Anchored, MainLog};
ghost use Rattle.started_views.specs.Fixes.{SyncFixes, AcceptFixes};
ghost use Rattle.started_views.specs.Started.{
  Grounds,
  StartedAreComparable,
  FixedPrefixesAreKept,
  MainLogHasFixed,
  SynchronisedAgree,
};

/// A merge begins with a log if the logs that are merged agree on each of its entries: one of them
/// has the NO-OP that the log has there, or each that has the slot has the entry there, and one has
/// the slot.
#[tactic(auto, using(crate::proofs::Merges::merge_agrees))]
pub fn merge_agrees()
    ensures { (log : List Entry) (cs : List Change) →
        ((k : ℕ) (x : Entry) → slot_of log k ≡ Some x
        → AgreeOn cs k x) → IsPrefixOf log (merge cs) }
{}

/// The past that a run begins with meets the grounds.
#[tactic(auto, using(crate::proofs::Opening::grounds_at_first))]
pub fn grounds_at_first()
    ensures { (f : ℕ) (stamps : List Stamped) → ((n k : ℕ) (a b : Request) →
        WasStamped stamps n k a
        → WasStamped stamps n k b → a ≡ b) → Grounds f stamps (λ r. first_view) first_past }
{}

/// Of any two started views one is at most the other.
pub fn started_views_are_comparable()
    ensures { StartedAreComparable }
{}

/// A prefix of a leader's log that f others have in its view is fixed, and so is one that ends in a
/// request, that a quorum reached, and each NO-OP of which f others have.
pub fn prefixes_are_fixed()
    ensures sync { SyncFixes }
    ensures accept { AcceptFixes }
{}

/// A prefix that is fixed in a view begins what each later view is started with, by whatever
/// certificate, and each log that a leader has in that view or a later one.
pub fn fixed_prefixes_are_kept()
    ensures starts { FixedPrefixesAreKept }
    ensures certificates { (f : ℕ) (stamps : List Stamped) (last_normal : ℕ → View)
        (past : Past)
        → Grounds f stamps last_normal past
        → (w v : View) (cs : List Change) (m : List Entry) (s : ℕ) → Certificate f past v cs
        → Fixed f past w m s → Below w v → IsPrefixOf (take s m) (start_of v cs).log }
    ensures leaders { (f : ℕ) (stamps : List Stamped) (last_normal : ℕ → View) (past : Past)
        → Grounds f stamps last_normal past → (w v : View) (m a : List Entry) (s : ℕ)
        → Fixed f past w m s → AtMost w v → LeaderHad f past v a → IsPrefixOf (take s m) a }
{}

/// What a replica has up to its sync point s, where its log l is that of the leader of u, begins
/// what each later view is started with, by whatever certificate, and each log that a leader has in
/// u or a later view. The slots stay anchored in later views.
pub fn synchronised_prefixes_are_kept()
    ensures starts { (f : ℕ) (stamps : List Stamped) (last_normal : ℕ → View) (past : Past)
        → Grounds f stamps last_normal past → (u v : View) (x : Start) (b l : List Entry) (s : ℕ)
        → LeaderHad f past u b → SameTo s l b → Anchored f past u s → IsStart past v x → Below u v
        → IsPrefixOf (take s l) x.log }
    ensures certificates { (f : ℕ) (stamps : List Stamped) (last_normal : ℕ → View)
        (past : Past)
        → Grounds f stamps last_normal past
        → (u v : View) (cs : List Change) (b l : List Entry) (s : ℕ) → LeaderHad f past u b
        → SameTo s l b → Anchored f past u s → Certificate f past v cs → Below u v
        → IsPrefixOf (take s l) (start_of v cs).log }
    ensures leaders { (f : ℕ) (stamps : List Stamped) (last_normal : ℕ → View) (past : Past)
        → Grounds f stamps last_normal past → (u v : View) (a b l : List Entry) (s : ℕ)
        → LeaderHad f past u b → SameTo s l b → Anchored f past u s → LeaderHad f past v a
        → AtMost u v → IsPrefixOf (take s l) a }
    ensures later { (f : ℕ) (past : Past) (u v : View) (s : ℕ) → AtMost u v →
        Anchored f past u s
        → Anchored f past v s }
{}

/// There is one log from which the history is read, and it is that of its view's leader.
pub fn main_log_is_one()
    ensures some { (f : ℕ) (stamps : List Stamped) (last_normal : ℕ → View) (past : Past)
        → Grounds f stamps last_normal past
        → (v : View) × (a : List Entry) × MainLog f last_normal past v a }
    ensures one { (f : ℕ) (last_normal : ℕ → View) (past : Past) (v w : View)
        (a b : List Entry)
        → MainLog f last_normal past v a → MainLog f last_normal past w b → (v ≡ w) × (a ≡ b) }
    ensures leads { (f : ℕ) (stamps : List Stamped) (last_normal : ℕ → View) (past : Past)
        → Grounds f stamps last_normal past → (v : View) (a : List Entry)
        → MainLog f last_normal past v a → LeaderHad f past v a }
{}

/// That log begins with each prefix that is fixed, and with what a replica has up to its sync
/// point.
pub fn main_log_has_fixed_prefixes()
    ensures fixed { MainLogHasFixed }
    ensures synchronised { SynchronisedAgree }
{}
