ghost use Rattle.std.specs.Prelude.{◌≡◌, ◌<◌};
ghost use Rattle.nop_types.specs.Lists.{Has};
ghost use Rattle.slot_votes.specs.Votes.{vote_of};
ghost use Rattle.slot_votes.specs.Agreement.{begun, gap_vote_counted};

use crate::Votes;
use nop_types::{MAX_REPLICAS, Vote};
use std::marker::Model;

/// A leader's agreement with the others on a NO-OP in a slot.
#[derive(Drop)]
pub struct Gap {
    slot: u32,
    f: u8,
    votes: Votes,
}

impl Model for Gap {
    ghost use Rattle.slot_votes.specs.Agreement.{Agreement};

    ghost Value = { Agreement };

    ghost view = { λ g. record { slot = g.slot; f = g.f; votes = g.votes } };
}

impl Gap {
    /// An agreement without votes, which those of `f` other replicas settle.
    pub fn begin(slot: u32, f: u8) -> Gap
        ensures { result ≡ begun slot f }
    {
        Gap {
            slot,
            f,
            votes: Votes::new(),
        }
    }

    pub fn slot(&self) -> u32
        ensures { result ≡ self.now.slot }
    {
        self.slot
    }

    /// Counts the vote of another replica, and says whether at least `f` voted by now.
    pub fn on_rep(&mut self, sender: u8) -> Vote
        requires { sender < MAX_REPLICAS }
        ensures after { self.new ≡ gap_vote_counted self.old sender }
        ensures again { Has self.old.votes sender → self.new ≡ self.old }
        ensures vote { result ≡ vote_of self.new.f self.new.votes }
    {
        self.votes.add(sender);
        self.votes.vote(self.f)
    }
}
