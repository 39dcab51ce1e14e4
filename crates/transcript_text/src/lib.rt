//! The lines of a transcript, and any line of a word and further fields.
//!
//! Each writer appends the one text of its line, and nothing on an error. `write_line` does so for
//! any word and fields: a field is a word, a number, an actor, a destination, the kind of a
//! datagram, whether an actor crashed, a status, or bytes.
//!
//! Calls: `submit_line`, `send_line`, `accept_line`, `busy_line`, `read_line`, `answer_line` and
//! `dead_line`, for what actors do; `transcript_line`, `replica_line`, `entry_line`,
//! `observer_line`, `history_line`, `error_line` and `end_line`, for the beginning and the end;
//! `write_line` and `counts_line`, the first line behind its word, for schedules; `put_number`.
//!
//! Files: `lines`, `field`; `specs/Transcript` (`lines_text`, and one definition a line),
//! `LineText` (`line_of`).
#![tactic(auto)]

mod field;
mod lines;

pub use field::{Field, put_number, write_line};
pub use lines::{
    accept_line, answer_line, busy_line, counts_line, dead_line, end_line, entry_line, error_line,
    history_line, observer_line, read_line, replica_line, send_line, submit_line, transcript_line,
};
