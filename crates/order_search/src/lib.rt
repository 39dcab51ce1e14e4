//! A search for an order in which the claims of a transcript are linearizable, over any service
//! that is `Parted`, of which it knows the `Host` and which ops only read.
//!
//! It goes through the claims one by one. A claim that submits is passed, and its request waits; a
//! claim that accepts what is placed is passed too. At any other claim those that wait are tried,
//! in the order in which they were submitted: the host applies the op, and the request is placed
//! where the claim that accepts it, wherever it stands, accepts the answer. Where none is left to
//! try, the configuration (the claim, what waits, the saved state) has failed: it is kept, the
//! request placed last is taken back, and the next one tried. A configuration that is kept is not
//! searched again.
//!
//! Before the first is tried at a claim, each request that waits, is accepted and only reads is
//! placed if its answer agrees, until what the claim accepts is placed. No other need be tried in
//! its place: where the front goes on to a legal history, it goes on with the read. So where such a
//! read is taken back, the front before it has failed too.
//!
//! Proved of `find_order`, for borrowed claims with their pairs, as `pairs_of` gives them: where it
//! finds an order, what the claims at these places submit is a history that is `Legal` for the
//! claims; along it the lines at which the requests were placed do not fall, and each is the place
//! of a claim, behind the one that submits the request and not behind the one that accepts it
//! (`AreTimed`). So orders of parts of the claims can be joined by these lines. Where it answers
//! Nothing, no history is legal; the claim that it names accepts (it is the furthest at which the
//! search stood). Spent comes only where no steps are left, and there were fewer than `most_steps`
//! of the claims; no answer takes more than these, and steps are never added. `most_steps` grows
//! like a factorial of the requests (`specs/Bounds`): it knows nothing of what was kept. Not
//! proved: how many steps it takes in fact. They may double with each request more that waits at
//! one time.
//!
//! A claim is passed in constant time. Any other step takes no longer than there are requests that
//! wait, besides what the host takes to save its state, and to apply an op and undo it: of one that
//! waits, and of each that only reads where none was tried.
//!
//! The argument is made of the laws of `fronts`. A front is the list of the requests placed so far;
//! of each one that was tried before another it is known that the front does not go on with it
//! (`HasTried`), so where all were tried the front goes nowhere, and where the empty front goes
//! nowhere no history is legal. Each step keeps how many of those that waited lead nowhere where
//! its own request does (`Settles`): those up to it, or all where it reads. A request is tried only
//! at a claim that accepts what is not placed; so behind each front a claim is passed once and a
//! request tried once, and what is left of `most_steps` falls with each step (`steps_left`,
//! `IsCounted`).
//!
//! Files, in reading order: `search`, its state, with `step`; `finding`, the search as a whole;
//! `turning`, one step; `placing`, with `agreeing`, `reads` and `claims`; `failed`, which alone
//! knows the set of what is kept; `outcome` and `stopped`. Definitions: `specs/States` (`IsSearch`:
//! what holds between two steps), `Searching` (`IsSearching`), then `Waiting`, `Placing`, `Reads`,
//! `Failing`, `Agreeing`, `Turns`, `Outcomes`, `Bounds`.
#![tactic(auto)]

mod agreeing;
mod claims;
mod failed;
mod finding;
mod outcome;
mod placing;
mod reads;
mod search;
mod step;
mod stopped;
mod turning;

pub use finding::find_order;
pub use outcome::{Outcome, Placed};
pub use stopped::Stopped;
