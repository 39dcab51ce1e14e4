//! Lines of text as fields: what reads them, beside `transcript_text`, which writes them.
//!
//! A line is cut at its spaces. A field is a word, a number of 64 bits in decimal, the name of an actor, or bytes in
//! hexadecimal, of any length, of an op or of a key.
//!
//! Proved: each reader gives exactly what the definition in `specs/Fields` gives, for every field; and what was written is read
//! again as what it was written from, a number, an actor's name or bytes (`laws`).
//!
//! `cut`, `next_field` and `is_word` take a line apart; `number`, `small_number`, `actor`, `bytes`, `op` and `key` read
//! a field.
//!
//! To read in this order: `split`, `spelling`, `laws`; then `specs/Fields`. `schedule_text` and `transcript_rows` read whole
//! lines with it.
#![tactic(auto)]

mod laws;
mod spelling;
mod split;

pub use laws::{written_actors_are_read, written_bytes_are_read, written_numbers_are_read};
pub use spelling::{actor, bytes, key, number, op, small_number};
pub use split::{cut, is_word, next_field};
