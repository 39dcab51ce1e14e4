ghost use Rattle.std.specs.Prelude.{◌≡◌, ◌⊎◌, ◌↔◌, ℕ, List, map};
ghost use Rattle.std.specs.List.Sorted.{IsPermutation};
ghost use Rattle.nop_types.specs.Lists.{Has};
ghost use Rattle.nop_types.specs.declared.view.View.{View};
ghost use Rattle.nop_types.specs.declared.peer.Change.{Change};
ghost use Rattle.nop_types.specs.PlainChanges.{plain};
ghost use Rattle.log_merge.specs.Merged.{HasDistinctSenders};
ghost use Rattle.view_change.specs.Gathering.{IsOfSender, change_sender, with_change, started};

/// A sender counts once: a change of a sender that is there changes nothing, and any other one is added, with nothing else.
pub fn senders_count_once<C>()
    ensures distinct { (cs : List Change) (c : Change) → HasDistinctSenders (map plain cs)
        → HasDistinctSenders (map plain (with_change change_sender cs c)) }
    ensures first_stays { (sent_by : C → ℕ) (cs : List C) (c : C)
        → IsOfSender sent_by cs (sent_by c) → with_change sent_by cs c ≡ cs }
    ensures members { (sent_by : C → ℕ) (cs : List C) (c d : C)
        → (Has (with_change sent_by cs c) d
        ↔ (Has cs d ⊎ ((IsOfSender sent_by cs (sent_by c) → ⊥) × (d ≡ c)))) }
{}

/// What a view is started with does not depend on the order in which the changes came.
pub fn starts_have_no_order()
    ensures { (w : View) (cs ds : List Change) → HasDistinctSenders (map plain cs)
        → IsPermutation cs ds → started w cs ≡ started w ds }
{}
