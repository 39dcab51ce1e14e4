//! Laws on the execution of a log, its history, and when the lines of a run are legal of a history,
//! over any host. Each is the contract of a function with an empty body; it speaks of the
//! definitions `Execution`, `Windows`, `Tables`, `Checkpoints`, `Histories` and `Legality` of
//! `nop_types`.
//!
//! - Execution: a log is executed as the members of its history are, each once, in order
//!   (`exec_is_of_history`, `member_is_executed`); a request whose client has the same id before
//!   it, or one a window ahead, does nothing (`repeat_is_not_executed`). It needs no more than the
//!   client table (`exec_is_by_kept`), as the code has it: the table tells which requests are
//!   executed (`table_tells_executed`), since it has the first clients of the log
//!   (`table_serves_the_first`), and of each the greatest id and the results that may be asked for
//!   again (`accounts_are_of_log`).
//! - Checkpoints: what an execution leaves loads from its checkpoint (`checkpoints_load`), goes on
//!   from there (`exec_goes_on`), and is within the limits (`checkpoints_fit`).
//! - Results: a request at a slot has a result exactly where its client is served and its id is
//!   not stale (`has_result_where_served`). That is the answer to a member of the history
//!   (`result_is_answered`), and rests on the entries up to the slot alone
//!   (`result_needs_prefix`). An id less than a window behind each of its client's is not stale
//!   (`open_is_not_stale`), so each of its slots has a result; one that its client left a window
//!   behind has none (`has_result_unless_stale`).
//! - Histories: no client and id is in one twice (`members_are_distinct`), and the history of a
//!   prefix begins that of the log (`history_of_prefix`).
//! - Legality: where each accept line has its grounds in a log (`Grounded`), the history of that
//!   log is legal (`legal_from_grounds`); grounds last in longer runs, and in each log with the
//!   same entries up to the slot (`grounds_carry`), whose history has the request from that slot on
//!   (`grounds_stand`). `legal_with_submit`, `legal_with_accept` and others are on one more line or
//!   member.
//!
//! No law rests on how wide the window is, or on how many clients are served; with a window of one
//! an id is new where it exceeds all before it (`one_is_greatest`).
//!
//! Files: `execution`, `checkpoints`, `histories`, `legality`; `examples` computes a log and lines
//! worked by hand (`specs/Worked`), legal ones and others.
#![tactic(auto)]

mod checkpoints;
mod examples;
mod execution;
mod histories;
mod legality;

pub use checkpoints::{checkpoints_fit, checkpoints_load, execs_are_sound, hosts_keep};
pub use examples::{
    clients_past_the_limit, illegal_histories, illegal_lines, legal_lines, window_of_eight,
    worked_log,
};
pub use execution::{
    accounts_are_of_log, exec_goes_on, exec_is_by_kept, exec_is_of_history, exec_kept_of_append,
    exec_kept_of_rest, exec_of_append, exec_of_next_entry, exec_of_next_slot, executed_is_kept,
    has_result_unless_stale, has_result_where_served, kept_is_answered, last_result_is_kept,
    one_is_greatest, open_is_not_stale, repeat_is_not_executed, result_is_answered, result_is_kept,
    result_is_of_request, result_needs_prefix, results_are_equal, table_serves_the_first,
    table_tells_executed,
};
pub use histories::{
    answer_needs_prefix, answer_of_member, answer_stays, history_of_append, history_of_next_entry,
    history_of_prefix, member_is_executed, members_are_distinct, members_are_logged,
    members_are_new, members_keep_order, repeat_is_no_member,
};
pub use legality::{
    accepted_once_stays, grounds_carry, grounds_stand, legal_at_first, legal_from_grounds,
    legal_with_accept, legal_with_member, legal_with_other_line, legal_with_submit,
    submitted_once_stays, submitted_so_far, submitted_stays,
};
