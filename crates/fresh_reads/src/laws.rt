//! What a client that reads what is new enough does over any inputs.

ghost use Rattle.std.specs.Prelude.{◌≡◌, ◌∷◌, ℕ, List, true, false};
ghost use Rattle.nop_types.specs.Configuration.{Configuration};
ghost use Rattle.nop_types.specs.Given.{Given, Read};
ghost use Rattle.client_quorum.specs.Core.{HasNoRead};
ghost use Rattle.fresh_reads.specs.FreshReads.{after, fresh_count, gave, is_done, opening};

/// Once it is done, one answer's position is not below the least; before, none is.
pub fn has_one_fresh_answer()
    ensures done { (config : Configuration) (number observer : ℕ) (key : List ℕ) (least : ℕ)
        (xs : List Given) → HasNoRead xs →
        is_done (after (opening config number observer key least) (Read observer key ∷ xs)) ≡ true →
        fresh_count least (gave (opening config number observer key least)
        (Read observer key ∷ xs)) ≡ 1 }
    ensures not_done { (config : Configuration) (number observer : ℕ) (key : List ℕ) (least : ℕ)
        (xs : List Given) → HasNoRead xs →
        is_done (after (opening config number observer key least)
        (Read observer key ∷ xs)) ≡ false →
        fresh_count least (gave (opening config number observer key least)
        (Read observer key ∷ xs)) ≡ 0 }
{}
