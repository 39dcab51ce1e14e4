//! The lines of any input, cut with a limit on their number and on their length.
//!
//! A line is decided by its end, by its 4,097th byte, by the first byte of a line more than there may be, or by the end of the
//! input, and no sooner.
//!
//! Proved: which line comes first, whatever bytes follow (`specs/Deciding`); that a call reads only
//! while no further line is decided (`has_line` tells before); that the bytes that were read and not
//! yet taken are those that went from the source, in order, also after a fault or where memory runs
//! out; and that a read that failed is always told: the source's count of faults rises by one at
//! ReadFault, and stays at every other answer (clause `count`).
//!
//! `LineReader::next_line` gives a line, `text` shows it, `take` goes behind it. A line is looked
//! for once, as soon as its bytes are there and the line before it is taken.
//!
//! For `schedule_text` and `transcript_reader`, each with its own limit.
//!
//! To read in this order: `line_reader`, `first_line`, `buffer`; then `specs/Cutting`, `specs/Deciding`, `specs/Reading`.
#![tactic(auto)]

mod buffer;
mod first_line;
mod line_reader;
mod read_error;

pub use first_line::FirstLine;
pub use line_reader::LineReader;
pub use read_error::ReadError;
