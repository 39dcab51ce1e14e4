//! Laws of rounds and questions.

ghost use Rattle.std.specs.Prelude.{◌≡◌, [], ℕ, List};
ghost use Rattle.nop_types.specs.declared.output.Actor.{Actor};
ghost use Rattle.admission.specs.Registries.{answered, Claims};
ghost use Rattle.roll_call.specs.Rolls.{Rolled, heard, news, question_by, standings, turned};

/// Where a round has no lines, each node stands as before.
#[tactic(auto, using(crate::proofs::Telling::silence_is_sameness))]
pub fn changes_are_told()
    ensures { (r : Rolled) (now : ℕ) → news r now ≡ [] → (turned r now).nodes ≡ r.nodes }
{}

/// How a node stands is shown by rounds alone: an answer leaves the lines as they were.
#[tactic(auto, using(crate::proofs::Telling::answers_stay))]
pub fn answers_show_in_rounds()
    ensures { (r : Rolled) (now : ℕ) (bytes : List ℕ)
        → standings (heard r now bytes) ≡ standings r }
{}

/// What is asked changes nothing that a link keeps, whatever it keeps, and from whatever place it comes.
#[tactic(auto, using(crate::proofs::Telling::no_trace))]
pub fn questions_leave_no_trace()
    ensures { (r : Rolled) (kept : Claims) (source : Actor) (port : ℕ)
        → (answered kept source (question_by r.asker port)).0 ≡ kept }
{}
