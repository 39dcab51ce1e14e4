ghost use Rattle.std.specs.Prelude.{◌≡◌, ◌++◌, ◌∷◌, [], ℕ, List, length, take};
ghost use Rattle.nop_types.specs.declared.request.Request.{Request};
ghost use Rattle.nop_types.specs.declared.request.Entry.{Entry};
ghost use Rattle.nop_types.specs.Meaning.{Meaning};
ghost use Rattle.nop_types.specs.Lists.{Has, IsPrefixOf};
ghost use Rattle.nop_types.specs.Lines.{Line, Submit, Accept};
ghost use Rattle.nop_types.specs.Histories.{history_of};
ghost use Rattle.nop_types.specs.Legality.{
  IsSubmittedBefore,
  IsAnswered,
  AcceptedOnce,
  Legal,
};
ghost use Rattle.execution_laws.specs.Legality.{
  IsOtherLine,
  IsUnsubmitted,
  IsUnaccepted,
  IsNoMember,
  SubmittedOnce,
  IsGrounded,
  Grounded,
  StandsFrom,
};

/// What a line submits is submitted before each line that comes.
#[tactic(auto, using(crate::proofs::Lines::submitted_so_far))]
pub fn submitted_so_far()
    ensures { (lines : List Line) (r : Request) → Has lines (Submit r)
        → IsSubmittedBefore lines (length lines) r.client r.id }
{}

/// What is submitted before a line is so whatever lines are added at the end.
#[tactic(auto, using(crate::proofs::Lines::submitted_stays))]
pub fn submitted_stays()
    ensures { (lines more : List Line) (k client id : ℕ) → IsPrefixOf lines more
        → IsSubmittedBefore lines k client id → IsSubmittedBefore more k client id }
{}

/// Each client and id stays submitted once, where a line that submits one submits a new one.
#[tactic(auto, using(crate::proofs::Lines::submitted_once_stays, crate::proofs::Lines::submitted_once_with_others))]
pub fn submitted_once_stays()
    ensures line { (lines : List Line) (line : Line) → SubmittedOnce lines
        → ((p : Request) → line ≡ Submit p → IsUnsubmitted lines p.client p.id)
        → SubmittedOnce (lines ++ line ∷ []) }
    ensures others { (lines more : List Line) → SubmittedOnce lines
        → ((line : Line) → Has more line → IsOtherLine line) → SubmittedOnce (lines ++ more) }
{}

/// Each client and id stays accepted once, where a line that accepts one accepts a new one.
#[tactic(auto, using(crate::proofs::Lines::accepted_once_stays, crate::proofs::Lines::accepted_once_with_others))]
pub fn accepted_once_stays()
    ensures line { (lines : List Line) (line : Line) → AcceptedOnce lines
        → ((client id : ℕ) (result : List ℕ) → line ≡ Accept client id result
        → IsUnaccepted lines client id)
        → AcceptedOnce (lines ++ line ∷ []) }
    ensures others { (lines more : List Line) → AcceptedOnce lines
        → ((line : Line) → Has more line → IsOtherLine line) → AcceptedOnce (lines ++ more) }
{}

/// Before the first line the empty history is legal.
#[tactic(auto, using(crate::proofs::Legal::legal_at_first))]
pub fn legal_at_first<S>()
    ensures { (m : Meaning S) → Legal m [] [] }
{}

/// A history stays legal where lines are added at the end that neither submit nor accept.
pub fn legal_with_other_line<S>()
    ensures line { (m : Meaning S) (lines : List Line) (history : List Request) (line : Line)
        → IsOtherLine line → Legal m lines history → Legal m (lines ++ line ∷ []) history }
    ensures others { (m : Meaning S) (lines more : List Line) (history : List Request)
        → ((line : Line) → Has more line → IsOtherLine line)
        → Legal m lines history → Legal m (lines ++ more) history }
{}

/// A history stays legal where a client and id is submitted that no line submitted before.
pub fn legal_with_submit<S>()
    ensures { (m : Meaning S) (lines : List Line) (history : List Request) (p : Request)
        → IsUnsubmitted lines p.client p.id
        → Legal m lines history → Legal m (lines ++ Submit p ∷ []) history }
{}

/// A history stays legal where a submitted client and id is first accepted, with its answer.
pub fn legal_with_accept<S>()
    ensures { (m : Meaning S) (lines : List Line) (history : List Request)
        (client id : ℕ) (result : List ℕ)
        → IsSubmittedBefore lines (length lines) client id → IsUnaccepted lines client id
        → IsAnswered m history client id result
        → Legal m lines history → Legal m (lines ++ Accept client id result ∷ []) history }
{}

/// A history stays legal where a submitted request that is no member yet is added at its end.
pub fn legal_with_member<S>()
    ensures { (m : Meaning S) (lines : List Line) (history : List Request) (r : Request)
        → Has lines (Submit r) → IsNoMember history r.client r.id
        → Legal m lines history → Legal m lines (history ++ r ∷ []) }
{}

/// Where each accept line has its grounds in a log, the log's history is legal.
pub fn legal_from_grounds<S>()
    ensures { (m : Meaning S) (lines : List Line) (log : List Entry)
        → Grounded m lines log → Legal m lines (history_of log) }
{}

/// Grounds stay so among more lines, and in each log that begins with the entries up to the slot.
pub fn grounds_carry<S>()
    ensures { (m : Meaning S) (lines more : List Line) (log other : List Entry)
        (k client id : ℕ) (result : List ℕ) (g : IsGrounded m lines log k client id result)
        → IsPrefixOf lines more → IsPrefixOf (take g.slot log) other
        → IsGrounded m more other k client id result }
{}

/// Where a request has its grounds in a log, the history of each log that begins with the entries up to their slot has it from there on.
pub fn grounds_stand<S>()
    ensures { (m : Meaning S) (lines : List Line) (log other : List Entry)
        (k client id : ℕ) (result : List ℕ) (g : IsGrounded m lines log k client id result)
        → IsPrefixOf (take g.slot log) other
        → StandsFrom m other client id g.slot result }
{}
