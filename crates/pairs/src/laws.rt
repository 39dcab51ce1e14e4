ghost use Rattle.std.specs.Prelude.{ℕ, List};
ghost use Rattle.fronts.specs.Fronts.{HasOrder};
ghost use Rattle.nop_types.specs.Lines.{Line};
ghost use Rattle.nop_types.specs.Meaning.{Meaning};
ghost use Rattle.pairs.specs.Stops.{IsGroundless};

/// Where a line accepts what was not submitted, or what is accepted already, no history is legal.
pub fn groundless_lines_have_no_order<S>()
    ensures { (m : Meaning S) (lines : List Line) (k : ℕ) → IsGroundless lines k
        → HasOrder m lines → ⊥ }
{}
