//! Ops, results and keys in lines of text, as words in place of hexadecimal, and back: a filter for
//! schedules, transcripts, traces and what is said of them.
//!
//! Which field of a line is hexadecimal is said by its place (`specs/Rows`, `row_of`): the op of
//! `submit`, `history` and `entry`, the result of `accept` and `answer`, the key of `read` and of
//! `none part`, and the same in lines of traces. A line in words has the words of an `OpText` there
//! (`in_words`, `specs/Lines`); a line in hexadecimal has digits (`in_hex`). Each other line stays as
//! it is, and so does one whose words would not give it back.
//!
//! Proved of `translate` (clause `ends`, `specs/Translating`): at Ok the source has none left, and
//! each of its lines was written, in words or in hexadecimal, with its end; on an error the lines
//! before it were, or as much of them as there was. Each count of faults rose by one at its error, and
//! at no other answer. Law `words_are_read_back`: a line that was changed into words is what it was
//! once it is in hexadecimal again, whatever the service says of words.
//!
//! Calls: `translate`, for `tool_program`; `direction_of`, for the words behind a command; `ResultText`,
//! for a service; `fields_of` and `is_too_much`, of a line, for `service_tool`, which takes lines too.
//!
//! Files, in reading order: `row`, `result_text`, `fields`, `line`; `error`, `running`; `direction`;
//! `laws`.
#![tactic(auto)]

mod direction;
mod error;
mod fields;
mod laws;
mod limits;
mod line;
mod result_text;
mod row;
mod running;

pub use direction::{Direction, direction_of};
pub use error::WordsError;
pub use fields::fields_of;
pub use laws::words_are_read_back;
pub use limits::MAX_TEXT_LINES;
pub use result_text::ResultText;
pub use running::{is_too_much, translate};
