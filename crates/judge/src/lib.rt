//! A judge of claims against a history: clients say what they submitted and which results they
//! accepted, and a history lists the requests in the order in which one service is to have
//! executed them. Legal is what a linearizable service may show: each member of the history was
//! submitted, no pair of client and id stands there twice, each accepted result is the answer
//! of the sequential service at its place, and what was accepted before something was submitted
//! comes before it in the history. It knows nothing of a protocol, and judges for any host.
//!
//! Proved of `decide`: at Ok the claims and the history are `Legal`; else the answer names the
//! first rule that is broken and the first place that breaks it (`specs/Breaks`), so the
//! earlier rules hold everywhere. What is broken is not legal, so legal claims are refused for
//! want of memory alone; and lines are legal exactly where those of them are that claim
//! something, and where a transcript with their rows is (`laws`).
//!
//! Proved of `check`, which reads a transcript and decides it (`specs/Checking`): at Ok
//! the source has none left, its bytes spell a transcript that is legal, and the tally counts
//! its claims and members. At Refuted clauses 1 and 2 are the reader's; at 3 to 6 the bytes
//! spell a transcript, and the line is the first that breaks the first broken rule. ReadFault comes
//! exactly where a read failed (clause `count`), and hides no line that breaks clause 1 or 2. And
//! the other way round: the bytes of a legal transcript are never refuted (`passes`).
//!
//! Calls: `check` for a source, and `write_verdict` for the line that tells its answer; `decide` for claims that are at hand, as
//! `transcript_reader` gives them.
//!
//! To read in this order: `checking`, `broken`, `deciding`; then one file for each rule,
//! `members`, `submitted`, `answers` and `founded`, `ordered`. `places` alone knows the map
//! that they share. It takes n log n steps.
#![tactic(auto)]

mod answers;
mod broken;
mod checking;
mod deciding;
mod founded;
mod laws;
mod members;
mod ordered;
mod places;
mod submitted;
mod tally;
mod verdict;

pub use broken::Broken;
pub use checking::check;
pub use deciding::decide;
pub use laws::{broken_is_illegal, claims_are_enough, runs_are_judged};
pub use tally::Tally;
pub use verdict::write_verdict;
