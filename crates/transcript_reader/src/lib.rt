//! Transcripts, read line by line from any source: their first line, the lines of events, those
//! of the replicas' states, those of the observers, the history numbered from 1, `end`, and nothing
//! more.
//!
//! Proved: at Ok the source has none left and its bytes spell a transcript
//! (`specs/Transcripts`, `Spells`), of which the answer is what it submits and accepts, with
//! the numbers of these lines, its history, and how many lines it has. At Refuted the earlier
//! lines are each in their place, and this is the first that breaks a clause, whatever follows
//! (`specs/Reading`, `RefusesLine`): 1 for a line of more than 4,096 bytes or one more than
//! there may be, else 2 for a line that may not come here, that has no end, or that is missing.
//! The source's count of faults rises by one at ReadFault, and stays at every other answer (clause
//! `count`); at ReadFault the bytes that were read decide no line that breaks a clause
//! (`IsInterrupted`). Bytes that spell a transcript are never refused, and all
//! transcripts that they spell say the same (`laws`).
//!
//! `read_transcript` is the call, for `judge`. It keeps nothing of a line that claims nothing.
//! `read_rows` is the same over any `RowTaker`, which may read a line as another text, for
//! `unnoted_reader`; what it answers is in `specs/AsRead`.
//!
//! To read in this order: `read`, `taking`, `row_taker`, `taken`; then `specs/Transcripts`,
//! `specs/Steps`, `specs/Reading`, `specs/AsRead`.
#![tactic(auto)]

mod check_error;
mod claim;
mod laws;
mod limits;
mod part;
mod read;
mod row_taker;
mod taken;
mod taking;

pub use check_error::CheckError;
pub use claim::Claim;
pub use laws::{read_in_one_way, written_is_not_refused};
pub use limits::MAX_TRANSCRIPT_LINES;
pub use part::Part;
pub use read::{read_rows, read_transcript};
pub use row_taker::RowTaker;
pub use taken::Taken;
