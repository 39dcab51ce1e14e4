//! The lines of traces as values: whose step it is, and what the actor took or gave.
//!
//! A line behind the first one is a row: `in` and what an actor took, or `out` and what it gave. A
//! name may be one that no configuration has, since whoever reads a trace tells such a line from one
//! that is spelled wrong; bytes are read in either case of hexadecimal.
//!
//! Proved: `read_row` gives exactly the row of a line by the rules in `specs/Reading` (`row_of`), and
//! None where it has none: each rule is a line there. What is read is in its ranges
//! (`read_rows_fit`); the text of each row within its ranges is read as that row (`rows_are_read`); and the
//! lines that `trace_text` writes of a step are texts of the rows that say the same, each of which
//! is read again (`traced_lines_are_read`).
//!
//! Calls: `read_row`; `Row`, `Name`, `Number`, `To`, `Taken`, `Gave`.
//!
//! To read in this order: `row`, `reading`, `taken`, `gave`, `fields`, `names`, `laws`; then `specs/Rows`,
//! `Reading`, `TracedRows`.
#![tactic(auto)]

mod fields;
mod gave;
mod laws;
mod names;
mod reading;
mod row;
mod taken;

pub use laws::{read_rows_fit, rows_are_read, traced_lines_are_read};
pub use reading::read_row;
pub use row::{Gave, Name, Number, Row, Taken, To};
