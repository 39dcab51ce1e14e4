//! What the programs do that find an order for a history, over any service that is `Parted` and any
//! devices: `kv_linearize` and `lock_linearize` are one call of `run` each. A transcript is read as
//! `judge` reads one, but nothing is asked of its history, and a `?` may stand for a result that
//! nobody noted. An order is looked for in which what it claims is linearizable, whatever these
//! results are. The transcript with that order, and with results found, is written, or why there is
//! none.
//!
//! Clauses of `run`:
//! - `ends` (`specs/Ending`): the answer is right for the bytes (`specs/Answers`), and it was
//!   written:
//!   - Done: what was written spells a transcript of the same claims, but for the results that nobody
//!     noted (`Fills`), with a history that is legal for it (`IsOrdered`). So `judge::check` passes
//!     it.
//!   - Refuted, `none part HEX line K`: whatever these results are, no history is legal, and this
//!     part alone has none (`HasNone`).
//!   - Refuted, `refuted line K clause 5`: line K is the first without its pair. It accepts what no
//!     earlier line submits, or what an earlier one accepts, and no history is legal
//!     (`LacksGround`). At clauses 1 and 2 the bytes are no transcript, as `read_unnoted` says.
//!   - Undecided, `repeated line K`: line K is the first without its pair, and submits what an
//!     earlier one submits (`IsRepeated`).
//!   - Undecided, `unknown steps N`: N steps were allowed. They are spent, as `joined_orders` says.
//!   - ReadFault: a read failed, and nothing was written. WriteFault: a proper prefix of a right
//!     answer was written; NoMemory: a prefix, perhaps none of it.
//!   - Usage: the arguments are others (`specs/Words`), and the usage line was written.
//! - `reads`, `writes`: the source's count of faults rose by one at ReadFault, the sink's at
//!   WriteFault, and at no other status; but where a write or memory failed behind a read that
//!   failed, only the later one is told.
//! - `unread`: nothing is read where the arguments are others.
//!
//! The law `as_ever`: where no line has a `?`, all this is said of the claims as they were read.
//!
//! Not proved: which order is found where there are several; that no order goes past line K of a
//! `none` line, which accepts; how many steps it takes. NoMemory is also the answer where the
//! transcript with the order would have more than `MAX_TRANSCRIPT_LINES` lines, and where there is a
//! `?` and an op of `MAX_OP_BYTES`.
//!
//! Nothing is written before all is decided: the answer is made in memory, and written by one call.
//!
//! Files: `running`; `answering`, from the transcript to the `answer`; `writing`, from there to
//! bytes; `words`, `status`, `laws`. Definitions: `specs/Ending`, `Answers`, `Noted`, `Texts` (what
//! is written of each answer), `Words`; `Answering` and `Writing` are used inside alone.
#![tactic(auto)]

mod answer;
mod answering;
mod laws;
mod running;
mod status;
mod words;
mod writing;

pub use answer::Answer;
pub use laws::as_ever;
pub use running::{linearize, run};
pub use status::Status;
pub use words::DEFAULT_STEPS;
