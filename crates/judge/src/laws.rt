ghost use Rattle.std.specs.Prelude.{◌≢◌, ◌↔◌, List, map};
ghost use Rattle.std.specs.List.{flat_map};
ghost use Rattle.judge.specs.Saying.{claiming};
ghost use Rattle.nop_types.specs.Legality.{Legal};
ghost use Rattle.nop_types.specs.Lines.{Line};
ghost use Rattle.nop_types.specs.Meaning.{Meaning};
ghost use Rattle.nop_types.specs.declared.request.Request.{Request};
ghost use Rattle.judge.specs.Breaks.{Breaks};
ghost use Rattle.judge.specs.declared.broken.Broken.{Broken};
ghost use Rattle.judge.specs.declared.broken.Broken.TheVariants as broken;
ghost use Rattle.transcript_reader.specs.Transcripts.{said_by};
ghost use Rattle.transcript_rows.specs.LineRows.{row_of};

/// What is broken is not legal, so legal lines are never refused.
#[tactic(auto, using(crate::proofs::Illegal::broken_is_illegal))]
pub fn broken_is_illegal<S>()
    ensures { (m : Meaning S) (lines : List Line) (history : List Request) (e : Broken)
        → e ≢ broken.NoMemory → Breaks m lines history e → Legal m lines history → ⊥ }
{}

/// Lines are legal where those are that claim something.
pub fn claims_are_enough<S>()
    ensures { (m : Meaning S) (lines : List Line) (history : List Request)
        → (Legal m (claiming lines) history ↔ Legal m lines history) }
{}

/// What a run tells is legal exactly where a transcript is that has its rows.
pub fn runs_are_judged<S>()
    ensures { (m : Meaning S) (lines : List Line) (history : List Request)
        → (Legal m (flat_map said_by (map row_of lines)) history ↔ Legal m lines history) }
{}
