//! The safety of each run: what holds of the world that a list of events leads to, as the contract
//! of the call that carries them out.
//!
//! For each configuration, each list of events in their ranges of which none is refused, and each
//! host, what the events lead to is `SafelyPassed`:
//!
//! - It follows the whole world of `whole_world`, in which replicas keep all of their logs
//!   (`FollowsWhole`): the same datagrams, lines and history; the same actors, but that each log is
//!   trimmed: its checkpoint is the execution of the entries up to its sync point, and the others are
//!   kept. The archive and a replica's log are its whole log, and the fragments carry the letters. The whole
//!   world has no observers: what they answer comes from nowhere there.
//! - The whole world is safe (`IsSafeThroughout`): there is a configuration of `protocol` that shows
//!   it, and in it all that was stamped, sent, logged, replied and accepted is sound (`Sound`,
//!   docs/THEOREMS.md, "Soundness").
//! - The same held after every prefix of the events (`Followed`), and from then to the end the
//!   configuration only went on.
//! - So replicas agree as far as they are synchronised (`Agreed`), and the lines are legal of the
//!   history (`Legal`).
//! - What a client keeps as accepted is in the history from its slot on (`AcceptedStand`): the
//!   history of the first slots of the main log has it, of as many as its slot says or more. So a
//!   client that waits for an answer of that position reads what it wrote.
//! - What a client has open is stale in no replica's log (`OpenIsNotStale`): no id that it has there is
//!   a window ahead of it. So each slot of it has a result, where the log serves the client.
//! - What was read is right (`Reads`): each line that answers a read stands behind the one line that
//!   asks for it, has what the service answers after those members of the history that stand in the
//!   first slots of the main log, up to its position, and goes back behind nothing that its observer
//!   was known to have answered when it was asked. And each observer executed what is synchronised.
//!
//! `run_events` gives the world, or the refusal of the first event that is refused; its types keep
//! the other premises. The law `runs_are_safe` says the same of each run, whoever carries it out;
//! `observers_read_the_history` is of any observer to which any of what was sent came, early or late,
//! in any order and any number of times, whether or not it has a seat in the run.
//!
//! Files: `run`. Definitions: `specs/Safe` (`SafelyPassed`), `Following` (`FollowsWhole`), `Reads`,
//! `Observers`. How the proof goes is told in docs/PROOF.md.
#![tactic(auto)]

mod run;

pub use run::{observers_read_the_history, run_events, runs_are_safe, runs_follow_whole};
