ghost use Rattle.std.specs.Prelude.{◌≡◌, ℕ, List, None, map, take, drop};
ghost use Rattle.nop_types.specs.declared.peer.Change.{Change};
ghost use Rattle.nop_types.specs.Meaning.{Meaning};
ghost use Rattle.nop_types.specs.Lists.{Has, IsPrefixOf};
ghost use Rattle.nop_types.specs.Logs.{
  Log,
  Keeping,
  Whole,
  Trimmed,
  IsWithin,
  adopted,
  overlaid,
};
ghost use Rattle.log_merge.specs.Merging.{merge_above, merged};
ghost use Rattle.trimming.specs.Trimming.{trim};
ghost use Rattle.trimming.specs.Merging.{trim_change, Agree};

/// Of whole logs the entries are the plain merge, and what that has above a slot is the merge of
/// what they have there.
#[tactic(auto, using(log_merge::proofs::WholeLogs::merged_entries, crate::proofs::Merging::rests_merge))]
pub fn whole_logs_merge()
    ensures entries { (cs : List Change) → (merged Whole cs).entries ≡ merge_above Whole 0 cs }
    ensures rests { (n : ℕ) (cs : List Change)
        → merge_above Whole n cs ≡ drop n (merge_above Whole 0 cs) }
{}

/// The sync point of the merge is within it, where those of all changes are within their logs.
#[tactic(auto, using(crate::proofs::Merging::merged_within))]
pub fn merge_stays_within()
    ensures { (cs : List Change) → ((c : Change) → Has cs c → IsWithin c.log)
        → IsWithin (merged Whole cs) }
{}

/// Where logs have no checkpoints, as whole ones need none, no call brings one but a rise of a
/// trimmed log.
#[tactic(auto, using(crate::proofs::Merging::have_none))]
pub fn no_checkpoints_come()
    ensures adopted { (k : Keeping) (new own : Log) → new.checkpoint ≡ None
        → own.checkpoint ≡ None → (adopted k new own).checkpoint ≡ None }
    ensures overlaid { (k : Keeping) (new own : Log) → new.checkpoint ≡ None
        → own.checkpoint ≡ None → (overlaid k new own).checkpoint ≡ None }
    ensures merged { (k : Keeping) (cs : List Change)
        → ((c : Change) → Has cs c → c.log.checkpoint ≡ None) → (merged k cs).checkpoint ≡ None }
{}

/// Changes agree where each one's entries up to its sync point begin the merge.
#[tactic(auto, using(crate::proofs::Merging::agree_from_prefixes))]
pub fn agree_from_prefixes()
    ensures { (cs : List Change)
        → ((c : Change) → Has cs c → IsWithin c.log
        × IsPrefixOf (take c.log.sync_point c.log.entries) (merge_above Whole 0 cs))
        → Agree cs }
{}

/// The merge of trimmed logs is the trimmed merge of the whole ones, where those agree.
#[tactic(auto, using(crate::proofs::Merging::merges_trim))]
pub fn merges_trim<S>()
    ensures { (m : Meaning S) (cs : List Change) → Agree cs
        → merged Trimmed (map (trim_change m) cs) ≡ trim m (merged Whole cs) }
{}
