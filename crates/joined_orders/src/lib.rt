//! An order in which claims are linearizable, over a service of parts: each part is searched alone, and the
//! orders that are found are joined.
//!
//! A claim that submits is of the part of its op, and one that accepts is of the part of the op whose result
//! it accepts. The claims of each part are searched (`order_search::find_order`), part by part in the order in
//! which the parts come first, with the steps that are left. A search places a request before a claim that
//! accepts, which is of the same part; so the orders are joined by these places, where requests of one place
//! stay in the order of their part. Where there are more parts than the service may have, all claims are
//! searched as one part.
//!
//! Proved of `order_of`: at Order each claim at these places submits, and what they submit is a history that
//! is `Legal` for the claims. At Nothing no history is legal; none is so for the lines of the part alone, or
//! there are more parts than the service may have (`LacksOrder`). At Groundless and Repeated the claim is the
//! first that has no pair (of `pairs`; where one is Groundless no history is legal, which is a law there).
//! Spent comes only where no steps are left, and steps are never added. The claim that Nothing names accepts.
//! Not proved: how many steps it takes (for one part `order_search` has a bound), and that no order goes past
//! that claim.
//!
//! Besides the searches it takes n log n steps for n claims.
//!
//! The argument is locality, with places as times. The place before which a request was placed lies between
//! the claims that submit and accept it, so orders of all parts, sorted by these places, are one of the whole
//! (`the_whole_is_legal` of `fronts`); and an order of the whole has one of each part in it
//! (`parts_are_legal`). The sort is stable and the places do not fall along the order of a part, so the sort
//! leaves it as it is (`proofs/Sorting`).
//!
//! Files, in reading order: `order`; `split`, the claims by parts, with `names`, which alone knows the set of
//! names, and `part`; `part_order`, an order of one part, with `borrowed`; `join`; `linearized`. Definitions:
//! `specs/Answers`, `Owning` (which lines are of a part), `Splitting`, `Joining`, `Names`.
#![tactic(auto)]

mod borrowed;
mod join;
mod linearized;
mod names;
mod order;
mod part;
mod part_order;
mod split;

pub use linearized::Linearized;
pub use order::order_of;
