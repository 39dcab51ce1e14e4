//! The keys of the key-value service as its parts, for a search of an order.
//!
//! Proved: `ByKey` is `Parted`: the service by the keys of its ops, for at most `MAX_KEYS` of them. Ops of one
//! key answer by its value alone, and change it alone: with so few keys among all ops no put is answered
//! `full`, which is the one answer that rests on the other keys. The state of a part is the value of the
//! key, together with the fact that no keys but those of the ops have one (`specs/Keys`, `SameKey`). Bytes
//! that spell no op are of the part that has no byte. Gets, and bytes that spell no op, change nothing, so a
//! search places them at once where their answers agree (`only_reads`).
//!
//! Files: `parted`; the law is in `specs/KeyParts`, on counts of keys that have a value (`specs/Counts`).
#![tactic(auto)]

mod parted;

pub use parted::ByKey;
