ghost use Rattle.std.specs.Prelude.{◌≡◌, ◌<◌};
ghost use Rattle.slot_votes.specs.Synchronisation.{
  opening,
  cleared,
  with_round,
  raised,
  taken,
  sync_vote_counted,
  vote_for,
  committed,
  commit_of,
};

use crate::Votes;
use nop_types::{MAX_REPLICAS, Vote};
use std::marker::Model;

/// What a leader waits for: votes for a log of this length.
#[derive(Drop)]
struct Round {
    len: u32,
    votes: Votes,
}

impl Round {
    ghost use Rattle.slot_votes.specs.Synchronisation.{with_vote_for, round_vote};
    ghost use Rattle.slot_votes.specs.Rounds.{round_given};

    fn on_rep(&mut self, f: u8, sender: u8, len: u32) -> Vote
        requires { sender < MAX_REPLICAS }
        ensures after { round_given self.new ≡ with_vote_for (round_given self.old) sender len }
        ensures vote { result ≡ round_vote f (round_given self.old) sender len }
    {
        if self.len != len {
            return Vote::Waiting;
        }
        self.votes.add(sender);
        self.votes.vote(f)
    }
}

/// A replica's sync point, and what moves it: at a follower the length of the longest log that it took from the leader of its
/// view, at a leader the votes of the others for the log that it sent them.
#[derive(Drop)]
pub struct SyncPoints {
    f: u8,
    sync_point: u32,
    prepared: u32,
    syncing: Option<Round>,
}

impl Model for SyncPoints {
    ghost use Rattle.slot_votes.specs.Synchronisation.{Synchronisation};
    ghost use Rattle.slot_votes.specs.Rounds.{round_given};
    ghost use Rattle.std.specs.Prelude.{option_map};

    ghost Value = { Synchronisation };

    ghost view = { λ s. record {
      f = s.f;
      sync_point = s.sync_point;
      prepared = s.prepared;
      syncing = option_map round_given s.syncing;
    } };
}

impl SyncPoints {
    /// A sync point of 0. The votes of `f` other replicas settle a round.
    pub fn new(f: u8) -> SyncPoints
        ensures { result ≡ opening f }
    {
        SyncPoints {
            f,
            sync_point: 0,
            prepared: 0,
            syncing: None,
        }
    }

    /// The slots up to this one are synchronised; 0 is none.
    pub fn sync_point(&self) -> u32
        ensures { result ≡ self.now.sync_point }
    {
        self.sync_point
    }

    /// For another view: nothing is prepared and no round is under way, and the sync point stays.
    pub fn clear(&mut self)
        ensures { self.new ≡ cleared self.old }
    {
        self.prepared = 0;
        self.syncing = None;
    }

    /// A leader sends a log of this length. Where it is longer than the sync point, a round without votes begins, in the place
    /// of an earlier one; at `f` = 0, where no votes are needed, none begins, and the sync point is that length at once.
    pub fn prepare(&mut self, len: u32)
        ensures { self.new ≡ with_round self.old len }
    {
        if len <= self.sync_point {
            return;
        }
        if self.f == 0 {
            self.sync_point = len;
            self.syncing = None;
        } else {
            self.syncing = Some(Round {
                len,
                votes: Votes::new(),
            });
        }
    }

    /// A log was taken whose sync point is this one: where that is greater, it is the own one then.
    pub fn raise(&mut self, sync_point: u32)
        ensures { self.new ≡ raised self.old sync_point }
    {
        self.sync_point = self.sync_point.max(sync_point);
    }

    /// A follower took a log of this length from its leader.
    pub fn on_prepare(&mut self, len: u32)
        ensures { self.new ≡ taken self.old len }
    {
        self.prepared = self.prepared.max(len);
    }

    /// Counts the vote of another replica for a length, where that is the length of the round. At `f` votes the sync point rises
    /// to that length, and no round is under way.
    pub fn on_rep(&mut self, sender: u8, len: u32) -> Vote
        requires { sender < MAX_REPLICAS }
        ensures after { self.new ≡ sync_vote_counted self.old sender len }
        ensures vote { result ≡ vote_for self.old sender len }
    {
        let vote = match &mut self.syncing {
            Some(round) => round.on_rep(self.f, sender, len),
            None => Vote::Waiting,
        };
        if let Vote::Settled = vote {
            self.sync_point = self.sync_point.max(len);
            self.syncing = None;
        }
        vote
    }

    /// A follower is told that a length is settled. The answer is its sync point then, or None, with nothing changed, where it did
    /// not take a log of at least that length from this leader.
    pub fn on_commit(&mut self, len: u32) -> Option<u32>
        ensures after { self.new ≡ committed self.old len }
        ensures point { result ≡ commit_of self.old len }
    {
        if len > self.prepared {
            return None;
        }
        self.sync_point = self.sync_point.max(len);
        Some(self.sync_point)
    }
}
