//! The protocol apart from programs, over any host: losses, gap agreement, view changes,
//! synchronisation, sessions and retries as moves of a plain configuration, with no bytes, no
//! network and no limits.
//!
//! - The initial configuration meets the invariant `Inv` (`opening_meets`), and whatever moves are
//!   made, each where its guard holds, keep it (`moves_keep`).
//! - What a configuration has goes on (`Evolves`, `goes_on`), and no replica's view falls
//!   (`views_never_fall`).
//! - The guards can be met: `gap_run`, `session_run` and `sync_run` are three runs worked by hand.
//!
//! The laws are cited by `protocol_sync`, `refinement` and `safety`; there is no code. What the
//! invariant has, and in which order to read definitions and proofs, is told in docs/PROOF.md.
//!
//! Files: `laws`, `examples`. Definitions: `specs/Conf` (the configuration), `Said` (messages),
//! `Moves` (effects and guards), `Runs` (`Move`, `MayAll`), `Truth`, `Invariant`, `Evolves`, `Laws`
//! (what the laws say).
#![tactic(auto)]

mod examples;
mod laws;

pub use examples::{gap_run, session_run, sync_run};
pub use laws::{goes_on, moves_keep, opening_meets, views_never_fall};
