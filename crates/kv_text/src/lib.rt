//! The ops and results of the key-value service as words: `get KEY`, `put KEY VALUE`, `delete KEY`
//! and `compare-and-set KEY OLD NEW`, for which `swap` may stand; `=VALUE`, `none`, `yes`, `no`,
//! `full`, `bad`.
//!
//! `KvText` meets the trait `OpText`. Words name an op exactly where `named` reads one from them
//! whose fields have lengths that an op may have; its bytes are then those that spell it (law
//! `named_ops_are_spelled`). Each op that its bytes spell has words (`words_in`), and they name it
//! (`reads_back`); bytes that spell none have no words.
//!
//! Calls: `KvText`, by the trait, for the programs of the key-value store, as `kv`.
//!
//! Files: `text` (from words, and to words), `laws`. Definitions: `specs/Text`; `kv_spelling` has the
//! bytes of an op.
#![tactic(auto)]

mod laws;
mod text;

pub use laws::named_ops_are_spelled;
pub use text::KvText;
