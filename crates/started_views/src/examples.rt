ghost use Rattle.std.specs.Prelude.{◌≡◌, ◌≤◌, ◌++◌, ◌∷◌, [], ℕ, List, Some, None, length, take};
ghost use Rattle.nop_types.specs.declared.view.View.{View};
ghost use Rattle.nop_types.specs.declared.request.Entry.TheVariants.{NoOp, Req};
ghost use Rattle.nop_types.specs.Lists.{IsPrefixOf};
ghost use Rattle.nop_types.specs.Views.{Below, first_view};
ghost use Rattle.started_views.specs.Past.{Entered, HadLog, LeaderHad, IsStart};
ghost use Rattle.started_views.specs.Parts.{InParts};
ghost use Rattle.started_views.specs.Quorums.{Quorum};
ghost use Rattle.started_views.specs.Settled.{Reached, HadNoOp, Fixed, MainLog};
ghost use Rattle.started_views.specs.Started.{Grounds};
ghost use Rattle.started_views.specs.Worked.{
  second_view,
  request_of,
  worked_stamps,
  worked_last_normal,
  leader_log,
  follower_log,
  second_start,
  settled_past,
  unsettled_past,
  overrun_past,
  standing_taken,
  standing_entered,
  standing_adopted,
  taken_past,
  noted_past,
};

/// A past of three replicas that meets the grounds. Two slots of the first view are fixed, a
/// settled gap among them, and the second view and the main log begin with them. The third slot had
/// the leader alone, and the second view begins without it.
pub fn settled_gap_is_kept()
    ensures grounds { Grounds 1 worked_stamps worked_last_normal settled_past }
    ensures fixed { Fixed 1 settled_past first_view leader_log 2 }
    ensures later { Below first_view second_view
        × IsStart settled_past second_view (second_start NoOp) }
    ensures start { (second_start NoOp).log ≡ take 2 leader_log }
    ensures main { MainLog 1 worked_last_normal settled_past second_view
        (take 2 leader_log ++ NoOp ∷ []) }
    ensures third { (r : ℕ) → Reached settled_past first_view 3 r → r ≡ 0 }
    ensures lost { IsPrefixOf (take 3 leader_log) (second_start NoOp).log → ⊥ }
{}

/// A past that meets the grounds, and in which a quorum had as many slots, but the leader alone had
/// the NO-OP of a gap: the second view begins without it. So the NO-OP part of a fixed prefix is
/// needed.
pub fn unsettled_gap_is_lost()
    ensures grounds { Grounds 1 worked_stamps worked_last_normal unsettled_past }
    ensures leads { LeaderHad 1 unsettled_past first_view leader_log × (2 ≤ length leader_log) }
    ensures reached { Quorum 1 (Reached unsettled_past first_view 2) }
    ensures noop { (r : ℕ) → HadNoOp unsettled_past first_view 2 r → r ≡ 0 }
    ensures start { IsStart unsettled_past second_view (second_start (Req (request_of 2))) }
    ensures lost { IsPrefixOf (take 2 leader_log) (second_start (Req (request_of 2))).log → ⊥ }
{}

/// The past of the settled gap, but for one log that went on in the first view after its replica
/// had entered the second one: three slots are fixed, and the second view begins without the third.
/// So it is needed that a log stays when its view is left.
pub fn log_of_left_view_must_stay()
    ensures broken { ((r : ℕ) (v : View) (e : Entered) → overrun_past.entry r v ≡ Some e
        → HadLog overrun_past r e.last_normal e.log) → ⊥ }
    ensures fixed { Fixed 1 overrun_past first_view leader_log 3 }
    ensures start { IsStart overrun_past second_view (second_start NoOp) }
    ensures lost { IsPrefixOf (take 3 leader_log) (second_start NoOp).log → ⊥ }
{}

/// What is noted of a replica that takes a request, and then enters and adopts the second view and
/// adds a NO-OP in one step. The leader of the second view notes what it was started with, and
/// another replica does not. Entering may be noted apart.
pub fn noted_steps()
    ensures left { HadLog (noted_past 1) 1 first_view (Req (request_of 1) ∷ []) }
    ensures log { HadLog (noted_past 1) 1 second_view (Req (request_of 1) ∷ NoOp ∷ []) }
    ensures other { HadLog (noted_past 1) 0 first_view [] }
    ensures entry { (noted_past 1).entry 1 second_view
        ≡ Some (record {
          last_normal = first_view;
          next = 2;
          sync_point = 0;
          log = Req (request_of 1) ∷ [];
        }) }
    ensures start { IsStart (noted_past 1) second_view
        (record { next = 2; log = Req (request_of 1) ∷ [] }) }
    ensures first_start { IsStart (noted_past 1) first_view (record { next = 1; log = [] }) }
    ensures follower { (noted_past 2).start second_view ≡ None }
    ensures parts { InParts 1 (taken_past 1) 1 standing_taken standing_entered standing_adopted }
{}
