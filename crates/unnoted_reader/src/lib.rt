//! Transcripts in which a `?` may stand for the result of a line that accepts, which nobody noted; read as
//! `transcript_reader` reads those that have all results.
//!
//! A line that begins `accept ` and ends in `?` is read with `-`, the result of no byte, in its place (`as_read`
//! in `specs/Unnoted`), and its claim has a mark. All else is as in `transcript_reader`, whose definitions are
//! cited: which row may come where, and which line breaks a clause. The reader is its `read_rows`, over an
//! `Unnoted`, which takes rows as they are read.
//!
//! Proved of `read_unnoted`: at Ok the source has none left; as they are read, its lines spell a transcript, of
//! which the answer is the claims and the history (`specs/Reading`, `IsTranscript`), and each claim has a mark
//! where its line has a `?`. At Refuted the earlier lines are each in their place as they are read, and this is
//! the first that breaks a clause. ReadFault, NoMemory and the count of faults are as in `transcript_reader`.
//!
//! For `linearize`. To read in this order: `read`, `taking`, `dash`, `unnoted`; then `specs/Unnoted`,
//! `specs/Reading` and `transcript_reader`'s `specs/AsRead`.
#![tactic(auto)]

mod dash;
mod laws;
mod read;
mod taking;
mod unnoted;

pub use laws::noted_is_read_as_ever;
pub use read::read_unnoted;
pub use unnoted::Unnoted;
