//! Laws on the whole world: replicas keep all of their logs, and peer messages travel whole. Over any host, whatever list of
//! events is taken, it is safe.
//!
//! `WholeWorld` has the actors, all datagrams that are no fragments, and letters: a peer message, whole, with its sender, its
//! number and its destination. An event says what it delivers to its actor (`Brings`): a tick, an op, a key that is asked for,
//! malformed bytes, a crash; an answer to a read, whoever gives it, since no observer is here; the datagram with these bytes; or
//! the message of this sender and number. The last two are looked up, so nothing but an answer comes that was not sent
//! (`what_comes_was_sent`); a crashed replica takes no step (`crashed_replicas_stay`). `whole_step` is one event,
//! `whole_run` a list of them, and both are total. A replica's row is that of the step table (`arrive`).
//!
//! `whole_runs_are_safe`: after any list of events in their ranges a configuration of the protocol shows the world, and moves
//! lead to it from the initial state. So what was stamped, sent, logged, replied and accepted is sound, replicas agree as far as
//! they are synchronised, the lines are legal of the one history, what a client keeps as accepted is in it from its slot on, and
//! what it has open is stale in no replica's log (`OpenIsNotStale`). Each session that was given out is of a controller of this
//! world, and at most the last session of that one. The same held after every prefix of the events; moves lead on from there, and
//! nothing was undone. The premise on the service is `ResultsShort`: each result fits a reply.
//!
//! `whole_can_trim`: after any list of events in their ranges, and so of each safe run, three facts hold that trimming needs.
//! Sync points of replicas, of messages and of changes that are gathered are within their logs (`AllWithin`). The changes with
//! which a view starts agree up to the greatest of their sync points (`Agree` of `trimming`), also with one that a letter delivers
//! to what is gathered (`StartsAgree`). What is synchronised is the same in all replicas and messages (`PrefixesAgree`). So each row
//! that such a world takes is, over trimmed logs, the same row trimmed (`whole_rows_trim`, by `rows_trim` of `trimmed_rows`).
//!
//! `archives_go_on`: the entries that move out of logs as sync points rise, each appended once, are what
//! is synchronised of each replica (`IsArchive`).
//!
//! Files: `laws`. Definitions: `specs/Whole` (the world), `Passed`, `Shows`, `Safe` (the claims); `Coming`, `Trimming`, `Archives`.
//! The proof of `safety` shows that the world of the program follows this one. More in docs/PROOF.md.
#![tactic(auto)]

mod laws;

pub use laws::{
    archives_go_on, crashed_replicas_stay, what_comes_was_sent, whole_can_trim, whole_rows_trim,
    whole_runs_are_safe,
};
