//! From an op of the key-value service to the bytes that spell it; `kv_host` reads them.
//!
//! Proved: `spell` gives the bytes that spell the op (`Spells` of `kv_host`), and None exactly where
//! a field has a length that no op may have (laws `spelled_ops_are_read` and
//! `what_is_spelled_is_given`). `key_op`, `value_op` and `swap_op` give the same bytes for who has
//! looked at the lengths (`fits_key`, `fits_value`) already.
//!
//! Calls: `spell`, for `kv_text`; the others, for `kv_resp`.
//!
//! Files: `fields`, `ops`, `spelling`, `laws`. Definitions: `specs/Spell`; `specs/Laws` proves the laws.
#![tactic(auto)]

mod fields;
mod laws;
mod ops;
mod spelling;

pub use fields::{fits_key, fits_value};
pub use laws::{spelled_ops_are_read, what_is_spelled_is_given};
pub use ops::{key_op, swap_op, value_op};
pub use spelling::spell;
