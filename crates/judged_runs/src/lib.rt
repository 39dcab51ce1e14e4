//! The two programs meet: what `replay` writes of a schedule, `check` passes. There is no code; each law is the contract of a
//! function with an empty body.
//!
//! - `runs_are_legal`: over any `Host` whose answers to bytes are bytes, what is written for a
//!   schedule without a bad line is the text of the transcript of its run (`specs/Runs`, `transcript_of`), and its history
//!   is legal for its claims. So it is exactly where the text has no more lines than a transcript may have (`HasRoom`).
//! - `replayed_runs_pass`: over any `Host` whose answers to bytes are bytes, where the text has room (`specs/Passing`, `RunsPass`).
//!   The premises are the clauses `ends` and `safe` of `replay::replay` at Ok, and the clauses `checked` and `passes` of
//!   `judge::check` on a source of the bytes that were written. So of any answer of that check: it is not Refuted, and at Ok
//!   its counts are those of the run. The clauses `replay`, `safe` and `check` of `commands::run` have these.
//! - `kv_runs_pass`, `lock_runs_pass`: so of the services of the two programs, whose answers to bytes are bytes by the laws
//!   `answers_are_bytes` of `kv_host` and `lock_host`.
//!
//! No bound on the lines of a run is proved: a schedule may have 999,999 events, and one event may send thousands of fragments,
//! each with a line of its own.
//!
//! The proof finds the ranges of all that the lines of a run tell. `proofs/Ops`: the ops of a schedule are bytes, and short.
//! `Outs`, `Lines`: whoever tells a line is there, and only clients submit. `Datagrams`: kinds and lengths of datagrams. `Rows`,
//! `Texts`, `Spelled` and `Passing` put the lines together; what is left comes from `safety`, `replay` and `judge`.
#![tactic(auto)]

mod laws;

pub use laws::{kv_runs_pass, lock_runs_pass, replayed_runs_pass, runs_are_legal};
