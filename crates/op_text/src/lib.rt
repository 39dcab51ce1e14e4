//! Ops and results as people write them: words such as `put k v` and `granted 1`, for tools beside
//! the programs of a service, which take and print hexadecimal.
//!
//! A word that begins with `0x` stands for the bytes whose digits follow, each other word for
//! itself; bytes that are printable ASCII without spaces are written as they are (`word_of`), and
//! read back (law `words_are_read_back`). A service brings an `OpText`: the op that words name, the
//! words of an op, and those of a result. Its law `reads_back`: the words of an op of bytes name
//! that op.
//!
//! Calls: `bytes_of` and `Words`, for an `OpText`; `run`, for the programs that turn one into the
//! other (`kv`, `locks`). Proved of `run`: what it answers to its arguments is the line of
//! `specs/Answers`, and with which status it ends; on an error it wrote a proper prefix of that line,
//! and `Failed` comes exactly where a write failed.
//!
//! Files: `word`, `words`, `op_text` (the trait), `answering`, `laws`. Definitions: `specs/Words`
//! (`bytes_of`, `word_of`, `text_of`), `Answers`.
#![tactic(auto)]

mod answering;
mod laws;
mod op_text;
mod word;
mod words;

pub use answering::{Status, run};
pub use laws::words_are_read_back;
pub use op_text::OpText;
pub use word::bytes_of;
pub use words::Words;
