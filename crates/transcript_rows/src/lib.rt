//! The lines of a transcript as values: what each line behind the first one says, and what the
//! first one says.
//!
//! Proved: `read_row` gives the row whose text the line and its end are, and None where there
//! is none (`specs/Reading`, `IsRowOf`); so does `read_header`. Numbers have to be in their
//! ranges, and names within the limits of a configuration, whatever the first line counts
//! (`specs/Rows`, `RowFits`). `write_row` appends the text of a row, and what is written is
//! read again (`laws`), so no two rows have one text. What a run tells of its events is the
//! text of a row (`specs/LineRows`).
//!
//! A line is read leniently and what was read is written again: the line is that row where both
//! are the same. So the grammar is that of the writers, and the reader has to be told no rule
//! twice.
//!
//! To read in this order: `row`, `reading`, `parsing`, `fields`, `ranges`, `writing`; then
//! `specs/Rows`, `specs/Reading`.
#![tactic(auto)]

mod fields;
mod laws;
mod parsing;
mod ranges;
mod reading;
mod row;
mod writing;

pub use laws::{lines_are_rows, written_rows_are_read};
pub use reading::{read_header, read_row};
pub use row::{MAX_SENT_BYTES, Row};
pub use writing::write_row;
