//! An order of claims of which some accept a result that nobody noted, over a service of parts; with it the
//! claims with the answers along it in place of these results.
//!
//! Where the result is unknown the request takes effect, and any answer to it is taken. So other claims are
//! searched in place of these (`unknown_results`): their requests have a byte in front of the op, 1 where any
//! answer is taken. Where an order is found, the service answers its requests once more, one after the other, and
//! the answers are filled in. Where no result is unknown the claims themselves are searched.
//!
//! Proved of `filled_order_of` (`specs/FilledAnswers`): at Order the claims that come with it are those that were
//! given but for unknown results (`Fills`), and the history at the places is legal for them. At Nothing no
//! history is legal, whatever the unknown results are, and none is so for the lines of the part alone, or there
//! are more parts than the service may have. Groundless and Repeated name the first claim that has no pair.
//!
//! For `linearize`. Files, in reading order: `order`; `asking`, what is searched; `filling`; `claims`. Definitions:
//! `specs/FilledAnswers`, `Filling` (used inside alone).
#![tactic(auto)]

mod asking;
mod claims;
mod filling;
mod order;

pub use order::filled_order_of;
