ghost use Rattle.std.specs.Prelude.{◌≡◌, ◌<◌, [], length};
ghost use Rattle.nop_types.specs.Lists.{Has};
ghost use Rattle.slot_votes.specs.Votes.{with_vote, vote_of};

use nop_types::{MAX_REPLICAS, Vote};
use std::marker::Model;

/// The replicas that voted, each once.
#[derive(Drop)]
pub struct Votes {
    mask: u8,
}

impl Model for Votes {
    ghost use Rattle.std.specs.Prelude.{List, ℕ, ◌<◌, ◌^◌};
    ghost use Rattle.nop_types.specs.declared.limits.TheConstants.{MAX_REPLICAS};
    ghost use Rattle.slot_votes.specs.Mask.{voters_of};

    ghost Value = { List ℕ };

    ghost view = { λ v. voters_of v.mask };

    ghost invariant = { λ v. v.mask < 2 ^ MAX_REPLICAS };
}

impl Votes {
    /// No votes.
    #[tactic(auto, unfolding(crate::specs::Mask::voters_of))]
    pub fn new() -> Votes
        ensures { result ≡ [] }
    {
        Votes { mask: 0 }
    }

    /// Counts the vote of a replica. One that voted before changes nothing.
    #[tactic(auto, using(crate::proofs::Masks::voters_of_set, crate::proofs::Masks::voters_of_set_again, crate::proofs::Masks::set_is_small))]
    pub fn add(&mut self, replica: u8)
        requires { replica < MAX_REPLICAS }
        ensures after { self.new ≡ with_vote self.old replica }
        ensures again { Has self.old replica → self.new ≡ self.old }
    {
        self.mask |= 1 << replica;
    }

    /// How many replicas voted.
    #[tactic(auto, using(crate::proofs::Masks::length_of_voters))]
    pub fn count(&self) -> u32
        ensures { result ≡ length self.now }
    {
        self.mask.count_ones()
    }

    /// Settled where at least `f` replicas voted.
    pub fn vote(&self, f: u8) -> Vote
        ensures { result ≡ vote_of f self.now }
    {
        if self.count() >= u32::from(f) {
            Vote::Settled
        } else {
            Vote::Waiting
        }
    }
}
