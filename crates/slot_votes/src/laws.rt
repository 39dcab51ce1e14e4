ghost use Rattle.std.specs.Prelude.{◌≡◌, ◌<◌, ◌↔◌, ◌⊎◌, ℕ, List, Some, slice_get};
ghost use Rattle.nop_types.specs.Lists.{Has};
ghost use Rattle.slot_votes.specs.Votes.{with_vote};

use nop_types::MAX_REPLICAS;

/// A vote adds its sender and nobody else, nobody stands twice, and a second vote changes nothing.
pub fn with_vote_by_member()
    ensures members { (votes : List ℕ) (q k : ℕ)
        → (Has (with_vote votes q) k ↔ ((k < MAX_REPLICAS) × ((k ≡ q) ⊎ Has votes k))) }
    ensures distinct { (votes : List ℕ) (q i j k : ℕ) →
        slice_get (with_vote votes q) i ≡ Some k
        → slice_get (with_vote votes q) j ≡ Some k → i ≡ j }
    ensures again { (votes : List ℕ) (q r : ℕ) → Has (with_vote votes q) r
        → with_vote (with_vote votes q) r ≡ with_vote votes q }
{}
