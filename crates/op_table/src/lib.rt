//! The `OpText` of a service from a table: which words name an op, and the words of an op and of
//! an answer.
//!
//! A row says what an op is called and which byte it begins with, and what its fields are:
//! numbers, and texts of lengths in a range, spelled in bytes as `saved_fields` has them, or all
//! that follows. In words an op is its name, and a word for each field: a number in decimal, a
//! text as `op_text` writes bytes. Words name an op exactly where a row has the name and as many
//! fields, each word stands for its field, and the op has no more than `MAX_OP_BYTES` (`op_of`, in
//! `specs/Shapes`); the bytes of an op are read by the first row of their first byte (`words_of`),
//! so an op may have a second name, in a row behind it. An answer that begins with the name of a
//! row, and is its fields from there on, has that name, where there is one, and the words of these
//! fields; any other is one word (`result_words`).
//!
//! Proved: `ByTable` of a table meets the trait `OpText` with these definitions, and so the words
//! of an op of bytes name it (`reads_back`, in `specs/Laws`), if no two ops have one name, which
//! a table owes. The bytes of an op are its kind and the fields that the words stand for (`op_is`).
//!
//! For a service: `impl OpTable` with its rows, and `ByTable` of that as its `OpText`, as
//! `lock_text` has it. It is for ops whose bytes are a kind and such fields; others have an
//! `OpText` of their own, as `kv_text`, whose fields have lengths of two bytes.
//!
//! Files: `table` (the rows), `from_words`, `to_words`, `text`; `specs/Shapes`, and the proofs
//! of the laws, `specs/Laws`.
#![tactic(auto)]

mod from_words;
mod table;
mod text;
mod to_words;

pub use table::{AnswerRow, FieldShape, OpRow, OpTable};
pub use text::ByTable;
