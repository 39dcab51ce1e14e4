//! The smallest service: a number that counts.
//!
//! The op `+` counts one more and answers the new number, `?` answers the number; a number is eight bytes.
//! At 2^64 - 1 `+` is answered `full`, and any other bytes are answered `bad`. It is an example for who
//! writes a service (docs/OWN-SERVICE.md): a `Host` with its seven laws.
//!
//! Proved: the answer and the next state are those of `counter_meaning` (`specs/Counter`); each op is
//! undone by the number before it; a state is saved as its number, and nothing else loads. Laws of its
//! own, over all lists of ops: the number never falls (`counts_rise`), and its answers are bytes
//! (`answers_are_bytes`), which the check of its replays asks for.
//!
//! Call: `CounterHost`, by the trait `Host`.
//!
//! Files: `counter`, `laws`; `specs/Counter`, and the proofs of the laws, `specs/Laws`.
#![tactic(auto)]

mod counter;
mod laws;

pub use counter::CounterHost;
pub use laws::{answers_are_bytes, counts_rise};
