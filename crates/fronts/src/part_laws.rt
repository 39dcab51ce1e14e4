ghost use Rattle.std.specs.Prelude.{ℕ, Bool, List, filter};
ghost use Rattle.execution_laws.specs.Legality.{SubmittedOnce};
ghost use Rattle.fronts.specs.Fronts.{AcceptedLater};
ghost use Rattle.fronts.specs.Parts.{is_of, of_part, AreOwn, AreTimed, HasParts};
ghost use Rattle.nop_types.specs.Legality.{AcceptedOnce, Legal};
ghost use Rattle.nop_types.specs.Lines.{Line, Submit};
ghost use Rattle.nop_types.specs.Lists.{Has};
ghost use Rattle.nop_types.specs.declared.request.Request.{Request};

use crate::parted::Parted;

/// A legal history of all lines, without the requests of other parts, is legal for the lines of a part.
pub fn parts_are_legal<P: Parted>()
    ensures { (lines : List Line) (parts : List (List ℕ)) (p : List ℕ) (own : Line
        → Bool) (history : List Request)
        → HasParts P.part P.MAX_PARTS lines parts → AreOwn lines (is_of P.part p) own
        → Legal P.Service.meaning lines history
        → Legal P.Service.meaning (filter own lines) (of_part (is_of P.part p) history) }
{}

/// A history is legal for all lines where it is so for the lines of each part, without the requests of the others, and its members
/// have times that rise along it and lie between the lines that submit and accept them.
pub fn the_whole_is_legal<P: Parted>()
    ensures { (lines : List Line) (parts : List (List ℕ)) (own : List ℕ → Line
        → Bool) (history : List Request)
        (time : ℕ → ℕ) → HasParts P.part P.MAX_PARTS lines parts
        → ((p : List ℕ) → Has parts p → AreOwn lines (is_of P.part p) (own p))
        → SubmittedOnce lines → AcceptedOnce lines → AcceptedLater lines
        → ((r : Request) → Has history r → Has lines (Submit r))
        → ((p : List ℕ) → Has parts p
        → Legal P.Service.meaning (filter (own p) lines) (of_part (is_of P.part p) history))
        → AreTimed lines history time → Legal P.Service.meaning lines history }
{}
