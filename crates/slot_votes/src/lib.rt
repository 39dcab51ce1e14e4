//! What replicas vote on: a NO-OP in a slot of the log, and up to which slot their logs are
//! synchronised.
//!
//! A set of votes has each replica once, and a second vote of a replica changes nothing. It is
//! `Settled` exactly where at least f replicas voted. A `Gap`, the leader's gap agreement, is such
//! a set for one slot, and keeps that slot.
//!
//! `SyncPoints` says up to which slot the log of a replica is synchronised, and what moves that.
//! A sync point never falls. A round of the leader begins for a log that is longer than its sync
//! point; a vote for another length counts for nothing, and f votes raise the sync point to the
//! round's length. A follower moves its own only up to a length that it took from the leader of
//! its view. With a log that is sent with a greater sync point, that one is taken too.
//!
//! Calls, for the state of a replica: `Gap::begin`, `slot` and `on_rep`; `SyncPoints::new`,
//! `prepare` and `on_rep` (leader), `on_prepare` and `on_commit` (follower), `raise` (a log is
//! taken), `clear` (another view), and `sync_point`. Each is a definition of its name. `Votes` is
//! the set alone; the law `with_vote_by_member` says which members it has after one more vote.
//!
//! Files: `voters`, `agreement`, `synchronisation`; `specs/Votes` (`with_vote`, `vote_of`),
//! `Agreement` and `Synchronisation`. `specs/Mask` reads the set from the bits of a byte.
#![tactic(auto)]

mod agreement;
mod laws;
mod synchronisation;
mod voters;

pub use agreement::Gap;
pub use laws::with_vote_by_member;
pub use synchronisation::SyncPoints;
pub use voters::Votes;
