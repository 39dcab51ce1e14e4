ghost use Rattle.std.specs.Prelude.{◌≡◌, ◌∷◌, [], Some, None, true, map, option_map};
ghost use Rattle.nop_types.specs.declared.request.Entry.TheVariants.{NoOp};
ghost use Rattle.nop_types.specs.Checkpoints.{Checkpoint};
ghost use Rattle.nop_types.specs.Logs.{
  Whole,
  Trimmed,
  length_of,
  entry_at,
  appended,
  adopted,
  overlaid,
};
ghost use Rattle.nop_types.specs.CheckpointedLogs.{loads, slot_result, raised};
ghost use Rattle.execution_laws.specs.Worked.{appending};
ghost use Rattle.log_merge.specs.Merging.{merged};
ghost use Rattle.trimming.specs.Trimming.{trim};
ghost use Rattle.trimming.specs.Merging.{trim_change, Agree};
ghost use Rattle.trimming.specs.Worked.{
  entry_a,
  entry_b,
  entry_c,
  entry_d,
  entry_e,
  whole_log,
  trimmed_log,
  after_two,
  after_three,
  change_of,
  whole_changes,
  trimmed_changes,
  other_changes,
};

/// A log of three entries with sync point 2 is trimmed, read and goes on, and its sync point rises.
pub fn worked_trimming()
    ensures trim { trim appending (whole_log 2 (entry_a ∷ entry_b ∷ entry_c ∷ []))
        ≡ trimmed_log 2 after_two (entry_c ∷ []) }
    ensures length { length_of Trimmed (trimmed_log 2 after_two (entry_c ∷ [])) ≡ 3 }
    ensures loads { loads appending (trimmed_log 2 after_two (entry_c ∷ [])) ≡ true }
    ensures entry_2 { entry_at Trimmed (trimmed_log 2 after_two (entry_c ∷ [])) 2 ≡ None }
    ensures entry_3 { entry_at Trimmed (trimmed_log 2 after_two (entry_c ∷ [])) 3
        ≡ Some entry_c }
    ensures result_2 { slot_result appending Trimmed
        (trimmed_log 2 after_two (entry_c ∷ [])) 2 ≡ None }
    ensures result_3 { slot_result appending Trimmed
        (trimmed_log 2 after_two (entry_c ∷ [])) 3 ≡ Some (10 ∷ 20 ∷ 30 ∷ []) }
    ensures append { appended (trimmed_log 2 after_two (entry_c ∷ [])) entry_d
        ≡ trimmed_log 2 after_two (entry_c ∷ entry_d ∷ []) }
    ensures raise_whole { raised appending Whole
        (whole_log 2 (entry_a ∷ entry_b ∷ entry_c ∷ entry_d ∷ [])) 3
        ≡ whole_log 3 (entry_a ∷ entry_b ∷ entry_c ∷ entry_d ∷ []) }
    ensures raise { raised appending Trimmed
        (trimmed_log 2 after_two (entry_c ∷ entry_d ∷ [])) 3
        ≡ trimmed_log 3 after_three (entry_d ∷ []) }
    ensures trim_later { trim appending
        (whole_log 3 (entry_a ∷ entry_b ∷ entry_c ∷ entry_d ∷ []))
        ≡ trimmed_log 3 after_three (entry_d ∷ []) }
{}

/// Two logs with sync points 2 and 3, whatever their checkpoints are. The further one brings its
/// sync point and checkpoint; what stands above comes from the one that is adopted or laid over
/// the other.
pub fn worked_adoption()
    ensures adopt_whole { adopted Whole
        (whole_log 3 (entry_a ∷ entry_b ∷ NoOp ∷ entry_d ∷ []))
        (whole_log 2 (entry_a ∷ entry_b ∷ entry_c ∷ entry_e ∷ NoOp ∷ []))
        ≡ whole_log 3 (entry_a ∷ entry_b ∷ NoOp ∷ entry_d ∷ []) }
    ensures adopt { (c d : Checkpoint) → adopted Trimmed (trimmed_log 3 c (entry_d ∷ []))
        (trimmed_log 2 d (entry_c ∷ entry_e ∷ NoOp ∷ [])) ≡ trimmed_log 3 c (entry_d ∷ []) }
    ensures adopt_nearer_whole { adopted Whole
        (whole_log 2 (entry_a ∷ entry_b ∷ entry_c ∷ entry_e ∷ NoOp ∷ []))
        (whole_log 3 (entry_a ∷ entry_b ∷ NoOp ∷ entry_d ∷ []))
        ≡ whole_log 3 (entry_a ∷ entry_b ∷ NoOp ∷ entry_e ∷ NoOp ∷ []) }
    ensures adopt_nearer { (c d : Checkpoint) → adopted Trimmed
        (trimmed_log 2 d (entry_c ∷ entry_e ∷ NoOp ∷ [])) (trimmed_log 3 c (entry_d ∷ []))
        ≡ trimmed_log 3 c (entry_e ∷ NoOp ∷ []) }
    ensures overlay_whole { overlaid Whole
        (whole_log 3 (entry_a ∷ entry_b ∷ NoOp ∷ entry_d ∷ []))
        (whole_log 2 (entry_a ∷ entry_b ∷ entry_c ∷ entry_e ∷ NoOp ∷ []))
        ≡ whole_log 3 (entry_a ∷ entry_b ∷ NoOp ∷ entry_d ∷ NoOp ∷ []) }
    ensures overlay { (c d : Checkpoint) → overlaid Trimmed (trimmed_log 3 c (entry_d ∷ []))
        (trimmed_log 2 d (entry_c ∷ entry_e ∷ NoOp ∷ []))
        ≡ trimmed_log 3 c (entry_d ∷ NoOp ∷ []) }
{}

/// Changes with a lower sync point, and with the greatest one. Of the latter the lower sender's
/// checkpoint is taken, and what all have above the slot is merged: a NO-OP wins there, else the
/// lower sender, also where its sync point is lower.
pub fn worked_merge()
    ensures whole { merged Whole whole_changes
        ≡ whole_log 3 (entry_a ∷ entry_b ∷ entry_c ∷ NoOp ∷ entry_e ∷ []) }
    ensures agree { Agree whole_changes }
    ensures trimmed { (a b c : Checkpoint) → merged Trimmed (trimmed_changes a b c)
        ≡ trimmed_log 3 b (NoOp ∷ entry_e ∷ []) }
    ensures requests { (a b : Checkpoint) → merged Trimmed
        (change_of 0 (trimmed_log 2 a (entry_c ∷ entry_e ∷ []))
        ∷ change_of 1 (trimmed_log 3 b (entry_d ∷ entry_a ∷ [])) ∷ [])
        ≡ trimmed_log 3 b (entry_e ∷ entry_a ∷ []) }
{}

/// Changes that do not agree: a slot at the greatest sync point is a NO-OP elsewhere, so that the
/// merge of the trimmed logs has another checkpoint than the merge of the whole ones.
pub fn worked_disagreement()
    ensures disagree { Agree other_changes → ⊥ }
    ensures whole { option_map (λ c. c.host)
        (trim appending (merged Whole other_changes)).checkpoint ≡ Some [] }
    ensures trimmed { option_map (λ c. c.host)
        (merged Trimmed (map (trim_change appending) other_changes)).checkpoint ≡ Some (10 ∷ []) }
{}
