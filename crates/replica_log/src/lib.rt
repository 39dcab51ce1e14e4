//! The log that a replica keeps, trimmed: a sync point, the checkpoint that is in place of the
//! entries up to there, and at most 4,096 entries above. Slots count from 1.
//!
//! Each call gives what the definition of its name gives, at the reading `Trimmed`: `len`
//! (`length_of`), `has_room`, `at` (`entry_at`), `first`, `append` (`appended`), `put_noop`
//! (`with_noop`), `adopt` (`adopted`), `overlay` (`overlaid`). `raise` puts a checkpoint in place of
//! the entries up to a slot, and returns those (`between`). `sync_point`, `checkpoint`, `entries`,
//! `as_ref` and `copy` give the log. Entries move from log to log; `copy` alone copies them. On an
//! error the log is as before.
//!
//! Laws: `set_slot_by_slot`, `laid_by_slot`, `adopted_by_slot` and `overlaid_by_slot` say what each
//! slot of a whole log has then. Of a log that is kept whole or trimmed, `adopted_is_as_long` and
//! `overlaid_is_as_long` say the sync point and the last slot, and `log_stays_in_ranges` that it
//! stays in its ranges.
//!
//! What a leader answers to a replica that asks for a slot is `answer` (`answer_of`): `Below`
//! exactly where the slot is at most the log's sync point, so that its entry is no longer kept;
//! above, the request in the slot; where a NO-OP is there, the gap agreement again; in the slot
//! after the last, the beginning of one, where none waits and the log has room; otherwise nothing.
//! It takes no memory.
//!
//! Files: `log`, `laws`; `answers`, `lookup`. Definitions are those of `nop_types`: `Logs`, `Slots`,
//! `Lists`, `Ranges`; and `specs/Answer`.
#![tactic(auto)]

mod answers;
mod laws;
mod log;
mod lookup;

pub use answers::Answer;
pub use laws::{
    adopted_by_slot, adopted_is_as_long, laid_by_slot, log_stays_in_ranges, overlaid_by_slot,
    overlaid_is_as_long, set_slot_by_slot,
};
pub use log::ReplicaLog;
pub use lookup::answer;
