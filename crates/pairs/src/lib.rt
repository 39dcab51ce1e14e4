//! Which claims of a transcript belong together: the one that submits a client and id, and the one that
//! accepts it.
//!
//! Proved of `pairs_of`: at Ok each claim that accepts has the place of the one that submits, which stands
//! before it, and each claim that submits has the place of the one that accepts, if there is one
//! (`specs/Pairing`, `ArePaired`); no client and id is submitted twice or accepted twice, and none is
//! accepted before it is submitted. At Repeated and Groundless the claim at that place is the first that
//! has no pair (`specs/Stops`). Where one is Groundless no history is legal, over any service
//! (`groundless_lines_have_no_order`); where one is Repeated nothing is said.
//!
//! The claims are borrowed, so that some of a transcript's can be paired without a copy (`specs/Said`). It is
//! one pass with a map of clients and ids, and takes n log n steps.
//!
//! Files: `pairing`, `unpaired`, `submitted`, which alone knows the map, `laws`.
#![tactic(auto)]

mod laws;
mod pairing;
mod submitted;
mod unpaired;

pub use laws::groundless_lines_have_no_order;
pub use pairing::{Pairs, pairs_of};
pub use unpaired::Unpaired;
