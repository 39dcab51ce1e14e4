//! The lock service as one part, for a search of an order.
//!
//! Proved: `AllLocks` is `Parted`: the service with all its locks as one part, since its tokens count the
//! grants of all of them. Inspects, and bytes that spell no op, change nothing, so a search places them at
//! once where their answers agree (`only_reads`).
//!
//! Files: `parted`; that any service is one part of itself is in `fronts/specs/OnePart`.
#![tactic(auto)]

mod parted;

pub use parted::AllLocks;
