//! Laws on what replicas had, view by view, and which prefixes of logs are kept when views change.
//!
//! The premise of most is `Grounds`: thirteen clauses on stamps, last normal views and the past
//! (what each replica had in each view). Under it:
//!
//! - Of any two started views one is at most the other (`started_views_are_comparable`).
//! - A prefix of the log of a view's leader that is `Fixed` there begins what each later view is
//!   started with, by whatever certificate, and each log of a later leader
//!   (`fixed_prefixes_are_kept`). Fixed is: a quorum had as many slots in the view, and each NO-OP
//!   among them above its start was in the logs of a quorum.
//! - There is one log from which the history is read (`main_log_is_one`). It begins with each fixed
//!   prefix, and with what a replica has up to its sync point (`main_log_has_fixed_prefixes`,
//!   `synchronised_prefixes_are_kept`).
//!
//! Without it: two quorums share a replica (`quorums_share`); what f others synchronised is fixed,
//! and so is a prefix that ends in a request, that a quorum reached, with each NO-OP in the logs of
//! f others (`prefixes_are_fixed`); what is fixed stays so as the past goes on
//! (`fixed_prefixes_stay`). Of the pasts in `examples` one meets all grounds; in two others one
//! thing is missing, and the prefix is lost.
//!
//! Files: `theorems`, the other laws, `examples`; `specs/Past`, `Settled`, `Started`.
#![tactic(auto)]

mod examples;
mod growing_laws;
mod log_laws;
mod past_laws;
mod quorum_laws;
mod theorems;
mod view_laws;

pub use examples::{
    log_of_left_view_must_stay, noted_steps, settled_gap_is_kept, unsettled_gap_is_lost,
};
pub use growing_laws::{fixed_prefixes_stay, pasts_grow};
pub use log_laws::{laid_log, logs_go_toward, prefixes_agree, toward_keeps, written_log};
pub use past_laws::{first_past_is_empty, noted_entry, noted_log, noted_start, past_of_parts};
pub use quorum_laws::{others_and_leader, quorum_of_more, quorums_share};
pub use theorems::{
    fixed_prefixes_are_kept, grounds_at_first, main_log_has_fixed_prefixes, main_log_is_one,
    merge_agrees, prefixes_are_fixed, started_views_are_comparable, synchronised_prefixes_are_kept,
};
pub use view_laws::{ranks_follow_order, views_are_ordered};
