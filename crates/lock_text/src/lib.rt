//! The ops and results of the lock service as words: `acquire LOCK OWNER`, `release LOCK OWNER
//! TOKEN`, `inspect LOCK`; `granted TOKEN`, `held TOKEN OWNER`, `released`, `refused`, `free`,
//! `full`, `spent`, `bad`. A token is a number in decimal.
//!
//! `LockText` is the table of these ops and answers (`op_table`), and so meets the trait `OpText`.
//! Words name an op exactly where `named` reads one from them, with names of 1 to 64 bytes; its
//! bytes are then those that spell it (law `named_ops_are_spelled`). Each op that its bytes spell
//! has words (`words_in`, law `spelled_ops_have_words`), and they name it (`reads_back` of
//! `op_table`). The words of an answer tell its token and owner (law `answers_are_told_in_words`).
//!
//! Calls: `LockText`, by the trait, for the programs of the lock service, as `locks`.
//!
//! Files: `table`, `laws`. Definitions: `specs/Text`; `specs/Laws` proves the laws.
#![tactic(auto)]

mod laws;
mod table;

pub use laws::{answers_are_told_in_words, named_ops_are_spelled, spelled_ops_have_words};
pub use table::LockText;
