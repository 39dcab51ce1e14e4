//! Orders of what is asked are orders of the lines with their results filled in, and the other way round.

ghost use Rattle.std.specs.Prelude.{◌≡◌, ℕ, Bool, List, map};
ghost use Rattle.fronts.specs.Fronts.{HasOrder};
ghost use Rattle.nop_types.specs.Legality.{Legal};
ghost use Rattle.nop_types.specs.Lines.{Line};
ghost use Rattle.nop_types.specs.Meaning.{Meaning};
ghost use Rattle.nop_types.specs.declared.request.Request.{Request};
ghost use Rattle.unknown_results.specs.AnyResults.{any_result};
ghost use Rattle.unknown_results.specs.Asking.{asked, asked_line, without_byte};
ghost use Rattle.unknown_results.specs.Filling.{AreAnswers, HasNoOrder};

/// A history that is legal for what is asked is legal for the lines themselves, where these accept its answers.
pub fn filled_orders_are_legal<S>()
    ensures { (m : Meaning S) (unknown : ℕ → ℕ → Bool) (filled : List Line)
        (history : List Request)
        → Legal (any_result m) (map (asked_line unknown) filled) history
        → AreAnswers m unknown filled (map without_byte history)
        → Legal m filled (map without_byte history) }
{}

/// A history that is legal for lines is so for what is asked in their place.
pub fn asked_orders_are_legal<S>()
    ensures { (m : Meaning S) (unknown : ℕ → ℕ → Bool) (filled : List Line)
        (history : List Request) → Legal m filled history
        → Legal (any_result m) (map (asked_line unknown) filled) (map (asked unknown) history) }
{}

/// Where what is asked has no order, the lines have none, whatever the unknown results are.
pub fn none_whatever_results<S>()
    ensures { (m : Meaning S) (unknown : ℕ → ℕ → Bool) (lines : List Line)
        → (HasOrder (any_result m) (map (asked_line unknown) lines) → ⊥)
        → HasNoOrder m unknown lines }
{}
