ghost use Rattle.std.specs.Prelude.{◌≡◌, ◌↔◌, ◌∷◌, ℕ, List, [], Some, None, length, map, filter};
ghost use Rattle.nop_types.specs.declared.request.Request.{Request};
ghost use Rattle.nop_types.specs.declared.request.Entry.TheVariants.{NoOp, Req};
ghost use Rattle.nop_types.specs.declared.view.View.{View};
ghost use Rattle.nop_types.specs.declared.peer.Change as code;
ghost use Rattle.nop_types.specs.PlainChanges.{Change, plain};
ghost use Rattle.std.specs.List.{AllByRecursion};
ghost use Rattle.std.specs.List.Sorted.{IsPermutation};
ghost use Rattle.nop_types.specs.Lists.{IsGreatest, slot_of};
ghost use Rattle.nop_types.specs.Logs.{Keeping, Whole, whole};
ghost use Rattle.nop_types.specs.Ranges.{EntryFits, LogIsIn, ChangeIsIn};
ghost use Rattle.nop_types.specs.Views.{is_view};
ghost use Rattle.log_merge.specs.Merge.{merge};
ghost use Rattle.log_merge.specs.Merging.{kept_changes, best, IsBest, merged};
ghost use Rattle.log_merge.specs.Starting.{greatest_point, kept};
ghost use Rattle.log_merge.specs.Merged.{
  HasNoOp,
  HasLowest,
  HasDistinctSenders,
  HaveSamePlainLogs,
  HaveSameLogs,
};

/// A merge is as long as the longest log. It has a NO-OP exactly where a log has one, and a request exactly where no log has a
/// NO-OP and that is the request of the lowest sender whose log has the slot.
pub fn merge_by_slot()
    ensures longest { (cs : List Change)
        → IsGreatest (0 ∷ map (λ c. length c.log) cs) (length (merge cs)) }
    ensures noop { (cs : List Change) (k : ℕ)
        → ((slot_of (merge cs) k ≡ Some NoOp) ↔ HasNoOp cs k) }
    ensures request { (cs : List Change) (k : ℕ) (r : Request) → HasDistinctSenders cs
        → ((slot_of (merge cs) k ≡ Some (Req r)) ↔ HasLowest cs k r) }
{}

/// A merge depends on who sent which log, and not on the order of the changes, nor on anything else in them.
#[tactic(auto, using(crate::proofs::Merged::merge_of_same))]
pub fn merge_is_of_pairs()
    ensures { (cs ds : List Change) → HasDistinctSenders cs → HaveSamePlainLogs cs ds →
        merge cs ≡ merge ds }
{}

/// So does the merge of the logs that replicas send, kept whole or trimmed, with its sync point and its checkpoint. Changes that
/// came in another order give the same.
pub fn merged_is_of_pairs()
    ensures pairs { (k : Keeping) (cs ds : List code.Change) → HasDistinctSenders (map plain cs)
        → HaveSameLogs cs ds → merged k cs ≡ merged k ds }
    ensures order { (k : Keeping) (view : View) (cs ds : List code.Change)
        → HasDistinctSenders (map plain cs) → IsPermutation cs ds
        → merged k (filter (λ c. is_view c.last_normal view) cs)
        ≡ merged k (filter (λ c. is_view c.last_normal view) ds) }
{}

/// The entries of a merge are in their ranges where those of all logs are, and the merge of logs that are in theirs, kept whole or
/// trimmed, is in its own.
#[tactic(auto, using(crate::proofs::InRanges::merge_fits, crate::proofs::InRanges::merged_fits))]
pub fn merge_is_in_ranges()
    ensures logs { (cs : List Change) → AllByRecursion (λ c. AllByRecursion EntryFits c.log) cs
        → AllByRecursion EntryFits (merge cs) }
    ensures changes { (k : Keeping) (cs : List code.Change) → AllByRecursion (ChangeIsIn k) cs
        → LogIsIn k (merged k cs) }
{}

/// The merge of whole logs has the entries of the plain merge and the greatest of their sync points. The same changes are kept.
#[tactic(auto, using(crate::proofs::WholeLogs::is_plain))]
pub fn whole_merge_is_plain()
    ensures entries { (cs : List code.Change) → (merged Whole cs).entries ≡ merge (map plain cs) }
    ensures point { (cs : List code.Change)
        → (merged Whole cs).sync_point ≡ greatest_point (map plain cs) }
    ensures kept { (cs : List code.Change) → map plain (kept_changes cs) ≡ kept (map plain cs) }
    ensures log { (cs : List code.Change) → AllByRecursion (ChangeIsIn Whole) cs
        → merged Whole cs ≡ whole (greatest_point (map plain cs)) (merge (map plain cs)) }
{}

/// The best of the changes is of the lowest sender among those with the greatest sync point. There
/// is one, if there is a change.
#[tactic(auto, using(crate::proofs::Best::best_of_none))]
pub fn best_has_the_greatest()
    ensures some { (cs : List code.Change) (c : code.Change) → best cs ≡ Some c → IsBest cs c }
    ensures none { (cs : List code.Change) → best cs ≡ None → cs ≡ [] }
{}
